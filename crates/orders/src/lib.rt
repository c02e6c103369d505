//! The rule of orders between pieces: on an axis, one piece ends before another begins.

#![tactic(auto)]

pub mod held;
mod shut;

pub use held::OrderRule;
