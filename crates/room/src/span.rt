//! Ranges of origins on one axis.

ghost use Rattle.std.specs.Prelude.{◌≡◌};
ghost use Rattle.room.specs.Spans.{span_holds, span_holds_any, span_inside, span_meets};

/// A range from a lower to an upper end; where the lower end is above the upper, no origin lies in it.
#[derive(Clone, Copy, Debug, PartialEq, Eq)]
pub struct Span {
    pub lower: i32,
    pub upper: i32,
}

/// The one origin 0; stands on axes that a board does not use.
pub const NO_SPAN: Span = Span { lower: 0, upper: 0 };

impl Span {
    /// Whether the origin lies in the range.
    pub fn holds(&self, origin: i32) -> bool
        ensures { result ≡ span_holds self.now origin }
    {
        (self.lower..=self.upper).contains(&origin)
    }

    /// Whether some origin lies in the range.
    pub fn holds_any(&self) -> bool
        ensures { result ≡ span_holds_any self.now }
    {
        self.lower <= self.upper
    }

    /// Whether some origin lies in the range, and the range lies inside another.
    pub fn is_inside(&self, outer: &Span) -> bool
        ensures { result ≡ span_inside self.now outer.now }
    {
        outer.lower <= self.lower && self.lower <= self.upper && self.upper <= outer.upper
    }

    /// Whether some origin lies both in it and in a range whose lower end is not above its upper.
    pub fn meets(&self, other: &Span) -> bool
        ensures { result ≡ span_meets self.now other.now }
    {
        self.holds_any() && self.lower <= other.upper && other.lower <= self.upper
    }
}
