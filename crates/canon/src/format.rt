//! Formatting a sheet.

ghost use Rattle.std.specs.Prelude.{◌≡◌, IfOk, Ok, string_bytes};
ghost use Rattle.sheet.specs.Held.{plan_of};
ghost use Rattle.sheet.specs.Meaning.{meaning};
ghost use Rattle.answer.specs.Answers.{Gives, printed};
ghost use Rattle.canon.specs.Canonical.{canonical};
ghost use Rattle.canon.specs.Formatted.{formatted};
ghost use Rattle.canon.specs.Kept.{KeepsLimits};

use crate::writer::{Canonical, put_each};
use answer::{Unanswered, printed};
use sheet::reader::Sheet;
use std::alloc::{AllocError, Global};
use std::fmt;

/// The canonical text of a sheet; it fails only for want of memory.
pub fn write_sheet(heap: Global, sheet: &Sheet) -> Result<String, fmt::Error>
    ensures text { IfOk result (λ t. string_bytes t ≡ canonical (plan_of sheet.now)) }
    ensures back { IfOk result (λ t. meaning (string_bytes t) ≡ Ok (plan_of sheet.now)) }
    ensures limits { IfOk result (λ t. KeepsLimits (string_bytes t)) }
{
    let mut out = String::new(heap);
    sheet.contents().put(&mut out)?;
    put_each(sheet.pieces(), &mut out)?;
    put_each(sheet.orders().as_slice(), &mut out)?;
    put_each(sheet.walls().as_slice(), &mut out)?;
    Ok(out)
}

/// The canonical text of the sheet that a text writes.
pub fn format_sheet(heap: Global, text: &[u8]) -> Result<String, Unanswered>
    ensures gives { Gives (formatted text.now) result }
    ensures back { IfOk result (λ t. meaning (string_bytes t) ≡ meaning text.now) }
    ensures again { IfOk result (λ t. formatted (string_bytes t) ≡ Ok (string_bytes t)) }
    ensures limits { IfOk result (λ t. KeepsLimits (string_bytes t)) }
{
    let sheet = Sheet::read(text)?;
    Ok(write_sheet(heap, &sheet)?)
}

/// What a program prints for a text: the formatted sheet, or one line that says why it is refused.
pub fn reply(heap: Global, text: &[u8]) -> Result<String, AllocError>
    ensures { IfOk result (λ t. string_bytes t ≡ printed (formatted text.now)) }
{
    printed(heap, format_sheet(heap, text))
}
