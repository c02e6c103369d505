//! What a rule is asked about.

ghost use Rattle.std.specs.Prelude.{◌<◌, length};
ghost use Rattle.room.specs.Fit.{Board};

use room::piece::Piece;

/// A piece of a board that may be asked about: the axes, the records of all pieces, and the number of the piece.
#[derive(Clone, Copy)]
pub struct Subject<'a> {
    pub axes: usize,
    pub records: &'a [Piece],
    pub piece: usize,
    pub ghost board: { Board axes records.now },
    pub ghost known: { piece < length records.now },
}

impl<'a> Subject<'a> {
    ghost use Rattle.std.specs.Prelude.{◌≡◌};
    ghost use Rattle.room.specs.Seen.{at};

    /// The record of the piece.
    pub fn record(&self) -> &'a Piece
        ensures { result.now ≡ at self.now.records.now self.now.piece }
    {
        &self.records[self.piece]
    }
}
