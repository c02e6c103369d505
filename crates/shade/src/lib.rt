//! Pictures of which origins a rule shuts.

#![tactic(auto)]

mod canvas;
pub mod picture;
