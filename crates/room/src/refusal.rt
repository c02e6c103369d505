//! Refusals: why a call was not done. Each tells a number, a layer and a line.

ghost use Rattle.std.specs.Prelude.{◌≡◌, Some};
ghost use Rattle.room.specs.Told.{told, layer_word, refusal_line};

use std::fmt;
use std::fmt::Display;

/// Where a call was refused.
#[derive(Clone, Copy)]
pub enum Layer {
    Sheet,
    Rule,
    Board,
}

/// Why a call was refused. Lines count from 1.
#[derive(Clone, Copy)]
pub enum Refusal {
    /// A sheet of over 16,384 bytes.
    SheetTooLong,
    /// A line of over 96 bytes, with a byte outside 32 to 126, or without its line feed.
    LineUnreadable { line: usize },
    /// A line that was announced and is not there.
    LineMissing { line: usize },
    /// A line past those that were announced.
    LineLeftOver { line: usize },
    /// A line that is not of the form that its place asks for.
    LineMalformed { line: usize },
    /// A line with a number outside its range, numbers that do not go together, or too many cells.
    LineOutOfRange { line: usize },
    /// A number, a range or a point outside its limits.
    OutOfRange { layer: Layer },
    /// Too little memory was lent.
    MemoryShort { layer: Layer },
    /// A lent record outside the limits, or present ends outside the first ends.
    RecordUnfit { layer: Layer },
    /// A box was asked for past the last that is listed.
    NotListed,
    /// An order more than a rule has room for.
    OrdersFull,
    /// The rule does not suit the board's axes and pieces.
    Unsuited,
}

/// What a refusal tells. The number is a number, as it is what is printed; which case it is of is the `Refusal`.
#[derive(Clone, Copy)]
pub struct Told {
    pub number: u8,
    pub layer: Layer,
    pub line: usize,
}

impl Refusal {
    /// The number, the layer and the line; the line is 0 where there is none.
    pub fn tell(self) -> Told
        ensures { result ≡ told self }
    {
        let (number, layer, line) = match self {
            Refusal::SheetTooLong => (1, Layer::Sheet, 0),
            Refusal::LineUnreadable { line } => (2, Layer::Sheet, line),
            Refusal::LineMissing { line } => (3, Layer::Sheet, line),
            Refusal::LineLeftOver { line } => (3, Layer::Sheet, line),
            Refusal::LineMalformed { line } => (4, Layer::Sheet, line),
            Refusal::LineOutOfRange { line } => (5, Layer::Sheet, line),
            Refusal::OutOfRange { layer } => (5, layer, 0),
            Refusal::MemoryShort { layer } => (6, layer, 0),
            Refusal::RecordUnfit { layer } => (7, layer, 0),
            Refusal::NotListed => (11, Layer::Rule, 0),
            Refusal::OrdersFull => (12, Layer::Rule, 0),
            Refusal::Unsuited => (13, Layer::Rule, 0),
        };
        Told {
            number,
            layer,
            line,
        }
    }
}

impl Display for Layer {
    ghost output = { λ l. Some (layer_word l) };

    fn fmt<W: fmt::Write>(&self, f: &mut fmt::Formatter<W>) -> fmt::Result {
        match self {
            Layer::Sheet => f.write_str("sheet"),
            Layer::Rule => f.write_str("rule"),
            Layer::Board => f.write_str("board"),
        }
    }
}

impl Display for Refusal {
    ghost output = { λ e. Some (refusal_line e) };

    fn fmt<W: fmt::Write>(&self, f: &mut fmt::Formatter<W>) -> fmt::Result {
        let Told {
            number,
            layer,
            line,
        } = self.tell();
        write!(f, "refused {number} {layer} {line}")
    }
}
