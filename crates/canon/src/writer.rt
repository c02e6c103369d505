//! Writing a sheet: one space between items, no leading zeros, no minus before 0.

ghost use Rattle.std.specs.Prelude.{◌≡◌, ℕ, List, [], ◌∷◌, ◌++◌, string_bytes, OnOk};
ghost use Rattle.std.specs.List.{flat_map};
ghost use Rattle.forms.specs.Forms.{letter as letter_of};
ghost use Rattle.room.specs.Listed.{listed};
ghost use Rattle.canon.specs.Canonical.{contents_line, spaced, piece_line, order_line, row_line};

use forms::contents::Contents;
use forms::piece::Extents;
use room::orders::Order;
use room::piece::Extent;
use room::span::Span;
use room::walls::{Cell, Row};
use std::alloc::AllocError;

/// What has a canonical text. A call fails only for want of memory, and leaves any text then.
// Not `Display`: only the crate of a type can implement that, and the crates of these types know nothing of the form of a sheet.
pub trait Canonical {
    ghost written: { Self → List ℕ };

    /// Writes the text at the end of `out`.
    fn put(&self, out: &mut String) -> Result<(), AllocError>
        ensures { OnOk result (string_bytes out.new ≡ string_bytes out.old ++ written self.now) };
}

/// Writes one text after another.
pub fn put_each<T: Canonical>(items: &[T], out: &mut String) -> Result<(), AllocError>
    ensures { OnOk result (string_bytes out.new ≡ string_bytes out.old ++ flat_map T.written items.now) }
{
    for item in items {
        item.put(out)?;
    }
    Ok(())
}

impl Canonical for Contents {
    ghost written = { contents_line };

    fn put(&self, out: &mut String) -> Result<(), AllocError> {
        let Contents {
            axes,
            mode,
            pieces,
            orders,
            rows,
        } = self;
        write!(out, "sheet {axes} {mode} {pieces} {orders} {rows}\n")
    }
}

/// An extent on its own is written as its ends, each after a space: in a piece line, all lengths stand before the ends.
impl Canonical for Extent {
    ghost written = { λ e. spaced e.span.lower ++ spaced e.span.upper };

    fn put(&self, out: &mut String) -> Result<(), AllocError> {
        let Span { lower, upper } = self.span;
        write!(out, " {lower} {upper}")
    }
}

impl Canonical for Extents {
    ghost written = { λ es. piece_line (listed es) };

    fn put(&self, out: &mut String) -> Result<(), AllocError> {
        let extents = self.as_slice();
        write!(out, "piece")?;
        for Extent { length, .. } in extents {
            write!(out, " {length}")?;
        }
        put_each(extents, out)?;
        write!(out, "\n")
    }
}

impl Canonical for Order {
    ghost written = { order_line };

    fn put(&self, out: &mut String) -> Result<(), AllocError> {
        let Order {
            before,
            after,
            axis,
            gap,
        } = self;
        write!(out, "before {before} {after} {axis} {gap}\n")
    }
}

impl Canonical for Cell {
    ghost written = { λ c. letter_of c ∷ [] };

    fn put(&self, out: &mut String) -> Result<(), AllocError> {
        match self {
            Cell::Wall => write!(out, "#"),
            Cell::Open => write!(out, "."),
        }
    }
}

impl Canonical for Row {
    ghost written = { λ row. row_line (listed row) };

    fn put(&self, out: &mut String) -> Result<(), AllocError> {
        write!(out, "wall ")?;
        put_each(self.as_slice(), out)?;
        write!(out, "\n")
    }
}
