//! Points: where a piece may stand.

use crate::limits::MAX_AXES;

/// An origin for each axis; an axis that the board does not use holds anything.
#[derive(Clone, Copy)]
pub struct Point {
    pub origins: [i32; MAX_AXES],
}
