//! The limits of every room.

/// Axes of a board: 1 to this. An axis is a plain number, as in orders and sheets: a type of its own would be unwrapped at
/// each array that it is a place in.
pub const MAX_AXES: usize = 3;
/// Pieces of a board: 1 to this.
pub const MAX_PIECES: usize = 24;
/// Orders between pieces: 0 to this.
pub const MAX_ORDERS: usize = 32;
/// Rows of a wall map: 0 to this.
pub const MAX_ROWS: usize = 64;
/// Cells in a row of a wall map: 1 to this.
pub const MAX_CELLS: usize = 64;
/// A length or a gap: 0 to this.
pub const MAX_LENGTH: i32 = 1_000_000;
/// An end: minus this to this.
pub const MAX_END: i32 = 1_000_000;
