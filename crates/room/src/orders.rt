//! Orders between pieces.

use crate::array_vec::ArrayVec;
use crate::limits::MAX_ORDERS;

/// On the axis, the piece `before` with its length and the gap ends no later than the piece `after` begins.
#[derive(Clone, Copy)]
pub struct Order {
    pub before: usize,
    pub after: usize,
    pub axis: usize,
    pub gap: i32,
}

/// Fills places that are not in use.
pub const NO_ORDER: Order = Order {
    before: 0,
    after: 0,
    axis: 0,
    gap: 0,
};

/// The orders of a room.
pub type Orders = ArrayVec<Order, MAX_ORDERS>;
