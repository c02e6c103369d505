//! A wall line: `wall`, and the letters of a row, `#` for wall and `.` for open.

ghost use Rattle.std.specs.Prelude.{◌≡◌, List, take};
ghost use Rattle.std.specs.Option.{option_map};
ghost use Rattle.room.specs.Listed.{listed};
ghost use Rattle.room.specs.declared.walls.Cell.{Cell as CellT};
ghost use Rattle.forms.specs.Forms.{cell_of, cells as cells_of, says_wall};

use crate::fault::Fault;
use crate::form::LineForm;
use crate::line::{Line, classify};
use room::array_vec::ArrayVec;
use room::limits::MAX_CELLS;
use room::walls::{Cell, Row};

/// A line of a wall row.
#[derive(Drop)]
pub struct WallLine;

// No `TryFrom` of the room's `Cell`: it would stand in `room`, which knows nothing of the letters of a sheet.
fn cell(letter: u8) -> Option<Cell>
    ensures { result ≡ cell_of letter }
{
    match char::from(letter) {
        '#' => Some(Cell::Wall),
        '.' => Some(Cell::Open),
        _ => None,
    }
}

/// The cells of the letters, as many as a row has room for; nothing where a letter is none of the two.
fn cells(letters: &[u8]) -> Option<Row>
    ensures { option_map (λ row. listed row) result ≡ option_map (take 64) (cells_of letters.now) }
{
    let mut row = ArrayVec::new(Cell::Open);
    for letter in letters {
        // cells past a row's room need not be held: such a line is refused
        let _ = row.push(cell(*letter)?);
    }
    Some(row)
}

impl LineForm for WallLine {
    type Item = Row;

    ghost Said = { List CellT };

    ghost denotes = { λ row. listed row };

    ghost says = { λ _ body. says_wall body };

    fn read(&self, body: &[u8]) -> Result<Row, Fault> {
        // the case of an enum, whose others are all one fault
        let Some(Line::Wall(letters)) = classify(body) else {
            return Err(Fault::Form);
        };
        let row = cells(letters).ok_or(Fault::Form)?;
        if letters.is_empty() {
            return Err(Fault::Form);
        }
        let too_wide = letters.len() > MAX_CELLS;
        if too_wide {
            return Err(Fault::Range);
        }
        Ok(row)
    }
}
