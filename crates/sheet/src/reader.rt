//! Reading a sheet.

ghost use Rattle.std.specs.Prelude.{◌≡◌, map};
ghost use Rattle.std.proofs.Props.{props};
ghost use Rattle.room.specs.Listed.{listed, rows_of};
ghost use Rattle.forms.specs.Outcome.{map_ok};
ghost use Rattle.sheet.specs.Fits.{Fits};
ghost use Rattle.sheet.specs.Parts.{plan_held};
ghost use Rattle.sheet.specs.Plan.{contents_of};
ghost use Rattle.sheet.specs.Meaning.{meaning};

use crate::walk::Lines;
use forms::before::BeforeLine;
use forms::contents::{Contents, ContentsLine, Mode};
use forms::piece::{Extents, PieceLine};
use forms::wall::WallLine;
use room::array_vec::ArrayVec;
use room::limits::MAX_PIECES;
use room::orders::{NO_ORDER, Orders};
use room::piece::NO_EXTENT;
use room::refusal::Refusal;
use room::walls::{Cell, WallMap};

/// A sheet may have this many bytes.
pub const MAX_SHEET: usize = 16_384;

/// A sheet that was read, within the limits: the axes, the mode, the extents of each piece, the orders and the wall map.
#[derive(Clone, Copy)]
pub struct Sheet {
    axes: usize,
    mode: Mode,
    pieces: ArrayVec<Extents, MAX_PIECES>,
    orders: Orders,
    walls: WallMap,
    pub ghost fits: { Fits (plan_held axes mode pieces orders walls) } by { Prim.hlevel props },
}

impl Sheet {
    ghost use Rattle.sheet.specs.Held.{plan_of};

    /// What a text says as a sheet, or the first thing that is wrong with it.
    pub fn read(text: &[u8]) -> Result<Sheet, Refusal>
        ensures says { map_ok plan_of result ≡ meaning text.now }
    {
        if text.len() > MAX_SHEET {
            return Err(Refusal::SheetTooLong);
        }
        let mut lines = Lines::of(text);
        let Contents {
            axes,
            mode,
            pieces,
            orders,
            rows,
        } = lines.read(&ContentsLine {})?;
        let extents = lines.read_each(&PieceLine { axes }, ArrayVec::new(NO_EXTENT), pieces)?;
        let orders = lines.read_each(&BeforeLine { axes, pieces }, NO_ORDER, orders)?;
        let walls = lines.read_each(&WallLine {}, ArrayVec::new(Cell::Open), rows)?;
        lines.end()?;
        Ok(Sheet {
            axes,
            mode,
            pieces: extents,
            orders,
            walls,
        })
    }

    /// The pieces, each with its extent on each axis.
    pub fn pieces(&self) -> &[Extents]
        ensures { map (λ es. listed es) result.now ≡ (plan_of self.now).pieces }
    {
        self.pieces.as_slice()
    }

    /// The orders, in the order of their lines.
    pub fn orders(&self) -> &Orders
        ensures { listed result.now ≡ (plan_of self.now).orders }
    {
        &self.orders
    }

    /// The wall map, row 0 first.
    pub fn walls(&self) -> &WallMap
        ensures { rows_of result.now ≡ (plan_of self.now).rows }
    {
        &self.walls
    }

    /// What the first line of such a sheet announces.
    pub fn contents(&self) -> Contents
        ensures { result ≡ contents_of (plan_of self.now) }
    {
        Contents {
            axes: self.axes,
            mode: self.mode,
            pieces: self.pieces.len(),
            orders: self.orders.len(),
            rows: self.walls.len(),
        }
    }
}
