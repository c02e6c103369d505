//! Wall maps: rows of cells. A cell that no row has is open.

use crate::array_vec::ArrayVec;
use crate::limits::{MAX_CELLS, MAX_ROWS};

/// A cell of a wall map: no piece may cover a wall.
#[derive(Clone, Copy, PartialEq, Eq)]
pub enum Cell {
    Wall,
    Open,
}

/// The cells of a row, column 0 first.
pub type Row = ArrayVec<Cell, MAX_CELLS>;

/// The rows of a map, row 0 first.
pub type WallMap = ArrayVec<Row, MAX_ROWS>;
