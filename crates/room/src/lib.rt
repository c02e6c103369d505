//! The vocabulary of rooms: lists with a fixed capacity, records of pieces, points, boxes, orders, wall maps and refusals.

#![tactic(auto)]

pub mod array_vec;
pub mod limits;
pub mod orders;
pub mod piece;
pub mod point;
pub mod refusal;
pub mod region;
pub mod span;
pub mod walls;
