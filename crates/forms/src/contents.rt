//! The contents line: `sheet`, the axes, `strict` or `nonstrict`, and the numbers of pieces, orders and wall rows.

ghost use Rattle.std.specs.Prelude.{◌≡◌, Some};
ghost use Rattle.std.specs.Option.{option_map};
ghost use Rattle.forms.specs.Forms.{Names, mode_word, says_contents, contents_items, contents_fit, contents_from};
ghost use Rattle.forms.specs.Outcome.{in_range};
ghost use Rattle.forms.specs.Announced.{announced_by};
ghost use Rattle.forms.specs.declared.contents.Contents.{Contents as ContentsT};
ghost use Rattle.text.specs.Items.{items};

use crate::counts::count_within;
use crate::fault::Fault;
use crate::form::LineForm;
use crate::line::{Line, classify};
use room::limits::{MAX_AXES, MAX_ORDERS, MAX_PIECES, MAX_ROWS};
use std::fmt;
use std::fmt::Display;
use text::items::Items;

/// Whether a piece of length 0 can overlap another: strict, it can.
#[derive(Clone, Copy)]
pub enum Mode {
    Strict,
    Nonstrict,
}

impl Display for Mode {
    ghost output = { λ m. Some (mode_word m) };

    fn fmt<W: fmt::Write>(&self, f: &mut fmt::Formatter<W>) -> fmt::Result {
        match self {
            Mode::Strict => f.write_str("strict"),
            Mode::Nonstrict => f.write_str("nonstrict"),
        }
    }
}

impl<'a> TryFrom<&'a [u8]> for Mode {
    type Error = Fault;

    ghost try_from_gives = { λ word mode. Names word.now mode };

    fn try_from(word: &'a [u8]) -> Result<Self, Fault> {
        match word {
            b"strict" => Ok(Mode::Strict),
            b"nonstrict" => Ok(Mode::Nonstrict),
            _ => Err(Fault::Form),
        }
    }
}

/// What the first line of a sheet announces.
#[derive(Clone, Copy)]
pub struct Contents {
    pub axes: usize,
    pub mode: Mode,
    pub pieces: usize,
    pub orders: usize,
    pub rows: usize,
}

/// What a contents line has, before its numbers are looked at: the numbers of pieces, orders and rows in this order.
#[derive(Clone, Copy)]
pub struct Announced {
    axes: i32,
    mode: Mode,
    counts: [i32; 3],
}

impl Announced {
    /// What the items of a contents line announce; nothing where they are not of its form.
    fn read(text: &[u8]) -> Option<Self>
        ensures { option_map announced_by result ≡ contents_items (items text.now) }
    {
        let mut items = Items::new(text);
        Some(Announced {
            axes: items.number()?,
            mode: Mode::try_from(items.next()?).ok()?,
            counts: items.numbers()?,
        })
    }

    /// The contents, where each number is in its range.
    fn contents(&self) -> Result<Contents, Fault>
        ensures { result ≡ in_range (contents_fit (announced_by self.now)) (contents_from (announced_by self.now)) }
    {
        let [pieces, orders, rows] = self.counts;
        Ok(Contents {
            axes: count_within(self.axes, 1, MAX_AXES)?,
            mode: self.mode,
            pieces: count_within(pieces, 1, MAX_PIECES)?,
            orders: count_within(orders, 0, MAX_ORDERS)?,
            rows: count_within(rows, 0, MAX_ROWS)?,
        })
    }
}

/// The first line of a sheet.
#[derive(Drop)]
pub struct ContentsLine;

impl LineForm for ContentsLine {
    type Item = Contents;

    ghost Said = { ContentsT };

    ghost denotes = { λ c. c };

    ghost says = { λ _ body. says_contents body };

    fn read(&self, body: &[u8]) -> Result<Contents, Fault> {
        // the case of an enum, whose others are all one fault
        let Some(Line::Contents(text)) = classify(body) else {
            return Err(Fault::Form);
        };
        Announced::read(text).ok_or(Fault::Form)?.contents()
    }
}
