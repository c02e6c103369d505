//! The room sheet: reading one, and laying it down in lent memory.

#![tactic(auto)]

pub mod lay;
pub mod reader;
mod walk;
