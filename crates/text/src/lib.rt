//! Text as a sheet has it: lines that end in a line feed, items parted by one space, decimal numbers.

#![tactic(auto)]

mod bytes;
pub mod items;
pub mod lines;
pub mod numerals;
pub mod split;
