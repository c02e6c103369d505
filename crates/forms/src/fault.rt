//! What can be wrong with the text of a line.

/// A line that is not of its form, or one whose numbers are out of range.
#[derive(Clone, Copy)]
pub enum Fault {
    Form,
    Range,
}
