//! Laying a sheet down in lent memory.

ghost use Rattle.std.specs.Prelude.{◌≡◌, ◌<◌, ◌≤◌, map, length, Ok, MatchResult};
ghost use Rattle.room.specs.Listed.{listed, rows_of};
ghost use Rattle.forms.specs.Outcome.{map_ok};
ghost use Rattle.sheet.specs.Lay.{axis_laid, laid, laid_all, answered, left_in_records};
ghost use Rattle.sheet.specs.Meaning.{meaning};

use crate::reader::Sheet;
use forms::contents::Contents;
use forms::piece::Extents;
use room::orders::Orders;
use room::piece::{Extent, Piece};
use room::refusal::{Layer, Refusal};
use room::walls::WallMap;

/// Writes the length and the ends of one axis; present ends are first ends.
fn lay_axis(piece: &mut Piece, axis: usize, extent: &Extent)
    requires { axis < 3 }
    ensures { piece.new ≡ axis_laid axis extent.now piece.old }
{
    piece.lengths[axis] = extent.length;
    piece.first.spans[axis] = extent.span;
    piece.present.spans[axis] = extent.span;
}

/// Writes the axes of one record; the others are left as they were.
fn lay_piece(piece: &mut Piece, extents: &[Extent])
    requires { length extents.now ≤ 3 }
    ensures { piece.new ≡ laid extents.now piece.old }
{
    // by the axis, which is a place in three arrays of a record
    for (axis, extent) in extents.iter().enumerate() {
        lay_axis(piece, axis, extent);
    }
}

/// Writes a record for each piece; the others are left as they were.
fn lay_pieces(records: &mut [Piece], pieces: &[Extents])
    requires { length pieces.now ≤ length records.old }
    ensures { records.new ≡ laid_all (map (λ es. listed es) pieces.now) records.old }
{
    // by the number: over `iter_mut` and `zip` the proof does not close
    for (i, extents) in pieces.iter().enumerate() {
        lay_piece(&mut records[i], extents.as_slice());
    }
}

/// Reads a sheet into lent memory: a record for each piece, the whole wall map and all orders. It answers what the first
/// line announces. A refused sheet changes nothing that was lent.
pub fn read_sheet(
    text: &[u8],
    records: &mut [Piece],
    walls: &mut WallMap,
    orders: &mut Orders,
) -> Result<Contents, Refusal>
    ensures answer { result ≡ answered (length records.old) (meaning text.now) }
    ensures records { records.new ≡ left_in_records (meaning text.now) records.old }
    ensures walls { MatchResult result (λ _. map_ok (λ p. p.rows) (meaning text.now) ≡ Ok (rows_of walls.new)) (λ _. walls.new ≡ walls.old) }
    ensures orders { MatchResult result (λ _. map_ok (λ p. p.orders) (meaning text.now) ≡ Ok (listed orders.new)) (λ _. orders.new ≡ orders.old) }
{
    let sheet = Sheet::read(text)?;
    let contents = sheet.contents();
    if records.len() < contents.pieces {
        return Err(Refusal::MemoryShort {
            layer: Layer::Sheet,
        });
    }
    lay_pieces(records, sheet.pieces());
    *walls = *sheet.walls();
    *orders = *sheet.orders();
    Ok(contents)
}
