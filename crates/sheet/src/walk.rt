//! A walk over the lines of a text: one line, or as many of one kind as were announced.

ghost use Rattle.std.specs.Prelude.{◌≡◌, ◌+◌, ◌^◌, ◌<◌, ◌≤◌, map, length, OnOk};
ghost use Rattle.room.specs.Listed.{listed};
ghost use Rattle.text.specs.Lines.{lines};
ghost use Rattle.forms.specs.Outcome.{map_ok};
ghost use Rattle.sheet.specs.Meaning.{line_text, line_says, each_says, max_sheet, no_more, refusal_at};
ghost use Rattle.sheet.specs.Plan.{Plan};
ghost use Rattle.sheet.specs.Walked.{LinesLeft, all_lines, after};

use forms::fault::Fault;
use forms::form::LineForm;
use room::array_vec::ArrayVec;
use room::refusal::Refusal;
use std::marker::Model;
use text::lines::{is_readable, split_line};

/// A fault in a line, told with the line's number.
// No `From`: neither type is of this crate.
fn refusal(fault: Fault, line: usize) -> Refusal
    ensures { result ≡ refusal_at line fault }
{
    match fault {
        Fault::Form => Refusal::LineMalformed { line },
        Fault::Range => Refusal::LineOutOfRange { line },
    }
}

/// The lines of a text that are left, and the number of the first of them.
#[derive(Drop)]
pub struct Lines<'a> {
    rest: &'a [u8],
    number: usize,
}

impl<'a> Model for Lines<'a> {
    ghost Value = { LinesLeft };

    ghost view = { λ l. record { number = l.number; left = lines l.rest.now } };

    ghost invariant = { λ l. l.number + length (lines l.rest.now) < 2 ^ 64 };
}

impl<'a> Lines<'a> {
    /// All lines of a text.
    pub fn of(text: &'a [u8]) -> Self
        requires { length text.now ≤ max_sheet }
        ensures { result ≡ all_lines text.now }
    {
        Lines {
            rest: text,
            number: 1,
        }
    }

    /// Takes the next line and gives its text.
    fn take(&mut self) -> Result<&'a [u8], Refusal>
        ensures text { map_ok (λ t. t.now) result ≡ line_text self.old.number self.old.left }
        ensures left { OnOk result (self.new ≡ after 1 self.old) }
    {
        let line = self.number;
        match split_line(self.rest) {
            None => Err(Refusal::LineMissing { line }),
            Some((body, Some(rest))) if is_readable(body) => {
                self.rest = rest;
                self.number += 1;
                Ok(body)
            }
            Some(_) => Err(Refusal::LineUnreadable { line }),
        }
    }

    /// Reads the next line, which is of this form.
    pub fn read<L: LineForm>(&mut self, form: &L) -> Result<L::Item, Refusal>
        ensures says { map_ok L.denotes result ≡ line_says (L.says form.now) self.old.number self.old.left }
        ensures left { OnOk result (self.new ≡ after 1 self.old) }
    {
        let number = self.number;
        let body = self.take()?;
        form.read(body).map_err(|fault| refusal(fault, number))
    }

    /// Reads as many lines of this form as were announced.
    pub fn read_each<L: LineForm, const N: usize>(
        &mut self,
        form: &L,
        blank: L::Item,
        count: usize,
    ) -> Result<ArrayVec<L::Item, N>, Refusal>
        requires { count ≤ N }
        ensures say { map_ok (λ v. map L.denotes (listed v)) result ≡ each_says (L.says form.now) self.old.number count self.old.left }
        ensures left { OnOk result (self.new ≡ after count self.old) }
    {
        let mut items = ArrayVec::new(blank);
        for _ in 0..count {
            // There is room for as many as are read.
            let _ = items.push(self.read(form)?);
        }
        Ok(items)
    }

    /// Refuses a line past those that were announced.
    pub fn end(&self) -> Result<(), Refusal>
        ensures { (p : Plan) → map_ok (λ _. p) result ≡ no_more self.now.number self.now.left p }
    {
        match split_line(self.rest) {
            None => Ok(()),
            Some(_) => Err(Refusal::LineLeftOver { line: self.number }),
        }
    }
}
