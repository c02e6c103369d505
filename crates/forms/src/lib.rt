//! What each kind of line of a sheet says: its form first, then the ranges of its numbers.

#![tactic(auto)]

pub mod before;
pub mod contents;
mod counts;
pub mod fault;
pub mod form;
pub mod line;
pub mod piece;
pub mod wall;
