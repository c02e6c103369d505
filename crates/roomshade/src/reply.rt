//! What is printed for a sheet.

ghost use Rattle.std.specs.Prelude.{◌≡◌, IfOk, string_bytes};
ghost use Rattle.sheet.specs.Meaning.{meaning};
ghost use Rattle.answer.specs.Answers.{Gives, printed};
ghost use Rattle.roomshade.specs.Replies.{sheet_shaded};

use answer::{Unanswered, printed};
use room::array_vec::ArrayVec;
use room::limits::MAX_PIECES;
use room::orders::NO_ORDER;
use room::piece::NO_PIECE;
use room::walls::Cell;
use shade::picture::shade;
use sheet::lay::read_sheet;
use sheet_rule::sheet_rule;
use std::alloc::{AllocError, Global};

/// The pictures of a sheet's room, under its three rules.
fn shade_sheet(heap: Global, text: &[u8]) -> Result<String, Unanswered>
    ensures { Gives (sheet_shaded (meaning text.now)) result }
{
    let mut records = [NO_PIECE; MAX_PIECES];
    let mut walls = ArrayVec::new(ArrayVec::new(Cell::Open));
    let mut orders = ArrayVec::new(NO_ORDER);
    let contents = read_sheet(text, &mut records, &mut walls, &mut orders)?;
    let rule = sheet_rule(contents.mode, &walls, &orders)?;
    shade(heap, &rule, contents.axes, contents.pieces, &records)
}

/// What a program prints for a text: the pictures, or one line that says why it is refused.
pub fn reply(heap: Global, text: &[u8]) -> Result<String, AllocError>
    ensures { IfOk result (λ t. string_bytes t ≡ printed (sheet_shaded (meaning text.now))) }
{
    printed(heap, shade_sheet(heap, text))
}
