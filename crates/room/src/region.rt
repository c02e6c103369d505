//! Boxes of origins: the bounds of pieces, and what rules answer.

ghost use Rattle.std.specs.Prelude.{◌≡◌, ℕ, ◌<◌, Decides, if◌then◌else◌, nat_eq};
ghost use Rattle.room.specs.Spans.{spans_hold, spans_meet};
ghost use Rattle.room.specs.Seen.{Holds, Meets, box_of, highs, lows, point_of, span_at};

use crate::limits::MAX_AXES;
use crate::point::Point;
use crate::span::Span;

/// A box: a range for each axis. An axis that the board does not use holds anything.
#[derive(Clone, Copy)]
pub struct Region {
    pub spans: [Span; MAX_AXES],
}

impl Region {
    /// Whether the point lies in the box.
    pub fn holds(&self, axes: usize, point: &Point) -> bool
        ensures { Decides result (Holds axes (box_of self.now) (point_of axes point.now.origins)) }
    {
        self.spans_hold(axes, &point.origins)
    }

    /// Whether some point lies both in the box and within bounds, no lower end of which is above its upper.
    pub fn meets(&self, axes: usize, bounds: &Region) -> bool
        ensures { Decides result (Meets axes (box_of self.now) (lows bounds.now) (highs bounds.now)) }
    {
        self.spans_meet(axes, &bounds.spans)
    }

    /// The box with another range on an axis.
    pub fn with_span(&self, axis: usize, span: Span) -> Region
        requires { axis < 3 }
        ensures { (d : ℕ) → span_at result d ≡ (if nat_eq d axis then span else span_at self.now d) }
    {
        let mut region = *self;
        region.spans[axis] = span;
        region
    }

    // two functions of one shape: of a test that is passed in, only its calls are known
    fn spans_hold(&self, axes: usize, origins: &[i32; MAX_AXES]) -> bool
        ensures { result ≡ spans_hold axes self.now.spans origins.now }
    {
        self.spans
            .iter()
            .zip(origins)
            .take(axes)
            .all(|(span, origin)| span.holds(*origin))
    }

    fn spans_meet(&self, axes: usize, bounds: &[Span; MAX_AXES]) -> bool
        ensures { result ≡ spans_meet axes self.now.spans bounds.now }
    {
        self.spans
            .iter()
            .zip(bounds)
            .take(axes)
            .all(|(span, bound)| span.meets(bound))
    }
}
