//! A piece line: `piece`, a length for each axis, then a lower and an upper end for each axis.

ghost use Rattle.std.specs.Prelude.{◌≡◌, ◌*◌, ◌≤◌, List};
ghost use Rattle.std.specs.Option.{option_map};
ghost use Rattle.room.specs.Listed.{listed};
ghost use Rattle.room.specs.declared.piece.Extent.{Extent as ExtentT};
ghost use Rattle.text.specs.Numerals.{numbers};
ghost use Rattle.forms.specs.Forms.{extents as extents_of, extents_fit, says_piece};

use crate::fault::Fault;
use crate::form::LineForm;
use crate::line::{Line, classify};
use room::array_vec::ArrayVec;
use room::limits::MAX_AXES;
use room::piece::{Extent, NO_EXTENT};
use room::span::Span;
use text::items::Items;

/// The extents of a piece, one for each axis.
pub type Extents = ArrayVec<Extent, MAX_AXES>;

/// A line of a piece on this many axes.
#[derive(Drop)]
pub struct PieceLine {
    pub axes: usize,
    ghost few: { axes ≤ 3 },
}

impl PieceLine {
    /// The extents that the items of a line give: a length for each axis, then a pair of ends for each.
    fn extents(&self, mut items: Items<'_>) -> Option<Extents>
        ensures { option_map (λ es. listed es) result ≡ option_map (extents_of self.now.axes) (numbers (3 * self.now.axes) items.entry) }
    {
        let mut lengths: ArrayVec<i32, MAX_AXES> = ArrayVec::new(0);
        for _ in 0..self.axes {
            // there is room: a board has no more axes than a list of extents
            let _ = lengths.push(items.number()?);
        }
        let mut extents = ArrayVec::new(NO_EXTENT);
        for &length in lengths.as_slice() {
            let lower = items.number()?;
            let upper = items.number()?;
            let _ = extents.push(Extent {
                length,
                span: Span { lower, upper },
            });
        }
        items.next().is_none().then_some(extents)
    }
}

fn all_fit(extents: &[Extent]) -> bool
    ensures { result ≡ extents_fit extents.now }
{
    extents.iter().all(Extent::fits)
}

impl LineForm for PieceLine {
    type Item = Extents;

    ghost Said = { List ExtentT };

    ghost denotes = { λ es. listed es };

    ghost says = { λ form body. says_piece form.axes body };

    fn read(&self, body: &[u8]) -> Result<Extents, Fault> {
        // the case of an enum, whose others are all one fault
        let Some(Line::Piece(text)) = classify(body) else {
            return Err(Fault::Form);
        };
        let extents = self.extents(Items::new(text)).ok_or(Fault::Form)?;
        if all_fit(extents.as_slice()) {
            Ok(extents)
        } else {
            Err(Fault::Range)
        }
    }
}
