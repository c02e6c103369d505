//! Rules: what a rule means, the law that binds it, the questions that may be asked of it, and two rules held together.

#![tactic(auto)]

pub mod both;
pub mod interface;
pub mod listing;
pub mod questions;
pub mod subject;
