//! The canonical text of a room sheet.

#![tactic(auto)]

pub mod format;
pub mod writer;
