//! The record of a piece, and what is said of a piece on one axis.

ghost use Rattle.std.specs.Prelude.{◌≡◌, ◌<◌, ◌≤◌};
ghost use Rattle.room.specs.Fit.{first_extent, axis_fits, piece_fits, records_fit};
ghost use Rattle.room.specs.Limits.{extent_fits};
ghost use Rattle.room.specs.Seen.{bounds_box, box_of};

use crate::limits::{MAX_AXES, MAX_END, MAX_LENGTH};
use crate::region::Region;
use crate::span::{NO_SPAN, Span};

/// A piece's record. It lies in lent memory, so its numbers may be anything until they are looked at. The lengths stand
/// beside the boxes, as a box is compared, cut and copied whole.
#[derive(Clone, Copy)]
pub struct Piece {
    pub lengths: [i32; MAX_AXES],
    pub first: Region,
    pub present: Region,
}

const NO_BOUNDS: Region = Region {
    spans: [NO_SPAN; MAX_AXES],
};

/// Fills records that are not in use.
pub const NO_PIECE: Piece = Piece {
    lengths: [0; MAX_AXES],
    first: NO_BOUNDS,
    present: NO_BOUNDS,
};

/// What is said of a piece on one axis: its length, and the range of its origin.
#[derive(Clone, Copy)]
pub struct Extent {
    pub length: i32,
    pub span: Span,
}

/// Fills places that are not in use.
pub const NO_EXTENT: Extent = Extent {
    length: 0,
    span: NO_SPAN,
};

/// All origins that there are on an axis.
const ORIGINS: Span = Span {
    lower: -MAX_END,
    upper: MAX_END,
};

impl Extent {
    /// Whether the length and the ends are within the limits, and the lower end is not above the upper.
    pub fn fits(&self) -> bool
        ensures { result ≡ extent_fits self.now }
    {
        (0..=MAX_LENGTH).contains(&self.length) && self.span.is_inside(&ORIGINS)
    }
}

impl Piece {
    /// The length and the first ends on an axis.
    pub fn extent(&self, axis: usize) -> Extent
        requires { axis < 3 }
        ensures { result ≡ first_extent self.now axis }
    {
        Extent {
            length: self.lengths[axis],
            span: self.first.spans[axis],
        }
    }

    /// The box of the origins within the present ends.
    pub fn bounds(&self) -> Region
        ensures { box_of result ≡ bounds_box self.now }
    {
        self.present
    }

    fn axis_fits(&self, axis: usize) -> bool
        requires { axis < 3 }
        ensures { result ≡ axis_fits self.now axis }
    {
        self.extent(axis).fits() && self.present.spans[axis].is_inside(&self.first.spans[axis])
    }

    /// Whether the record is within the limits on its first axes, and its present ends lie inside its first ends there.
    pub fn fits(&self, axes: usize) -> bool
        requires { axes ≤ 3 }
        ensures { result ≡ piece_fits axes self.now }
    {
        (0..axes).all(|axis| self.axis_fits(axis))
    }
}

/// Whether every record fits a board of this many axes.
pub fn records_fit(axes: usize, records: &[Piece]) -> bool
    requires { axes ≤ 3 }
    ensures { result ≡ records_fit axes records.now }
{
    // a loop: `all` round the `all` of a record is compiled to more work
    for piece in records {
        if !piece.fits(axes) {
            return false;
        }
    }
    true
}
