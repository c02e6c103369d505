//! An example of a house rule: no piece may stand with its origin in a strip of an axis.

#![tactic(auto)]

ghost use Rattle.std.specs.Prelude.{◌≡◌, ◌<◌};
ghost use Rattle.room.specs.Seen.{box_of};
ghost use Rattle.rule.specs.Gathered.{gathered};
ghost use Rattle.rule.specs.Means.{SameBox};
ghost use Rattle.rule.specs.Subjects.{room_seen};
ghost use Rattle.strip.specs.Meaning.{StripKept, strip_box, strip_shut, strip_source, strip_suits};

use room::point::Point;
use room::region::Region;
use room::span::Span;
use rule::interface::Rule;
use rule::listing::{Sources, count_boxes, listed_box};
use rule::subject::Subject;

/// On the axis, no origin of a piece lies in the range.
#[derive(Clone, Copy)]
pub struct Strip {
    axis: usize,
    span: Span,
}

impl Strip {
    /// The strip `from..=to` of the axis. Exactly the placements with no origin in it keep the rule.
    pub fn new(axis: usize, from: i32, to: i32) -> Strip
        ensures held { result ≡ record { axis = axis; span = record { lower = from; upper = to } } }
        ensures kept { StripKept result }
    {
        let span = Span {
            lower: from,
            upper: to,
        };
        Strip { axis, span }
    }

    /// The bounds of the piece that is asked about, cut to the strip.
    fn region(&self, subject: &Subject<'_>) -> Region
        requires { self.now.axis < subject.now.axes }
        ensures { SameBox subject.now.axes (box_of result) (strip_box self.now (room_seen subject.now) subject.now.piece) }
    {
        let bounds = &subject.record().present;
        let mut span = bounds.spans[self.axis];
        span.lower = span.lower.max(self.span.lower);
        span.upper = span.upper.min(self.span.upper);
        bounds.with_span(self.axis, span)
    }
}

impl Rule for Strip {
    ghost suited = { strip_suits };

    ghost shut = { strip_shut };

    ghost boxes = { λ s k r p. gathered (strip_source s k r p) 1 };

    // what is shut does not go by the bounds
    ghost narrows = { unfold strip_shut in λ s k b c p x in' here within shut. shut };

    fn suits(&self, axes: usize, _pieces: usize) -> bool {
        self.axis < axes
    }

    fn cover(&self, subject: &Subject<'_>, point: &Point) -> Option<Region> {
        let origin = point.origins[self.axis];
        self.span.holds(origin).then_some(self.region(subject))
    }

    fn count(&self, subject: &Subject<'_>) -> Option<usize> {
        count_boxes(self, subject)
    }

    fn listed(&self, subject: &Subject<'_>, number: usize) -> Region {
        listed_box(self, subject, number)
    }
}

/// The strip is the one source of boxes.
impl Sources for Strip {
    ghost serves = { strip_suits };

    ghost many = { λ _ _ _ _. 1 };

    ghost given = { strip_source };

    fn sources(&self, _subject: &Subject<'_>) -> usize {
        1
    }

    fn source_box(&self, subject: &Subject<'_>, _source: usize) -> Option<Region> {
        let region = self.region(subject);
        let bounds = &subject.record().present;
        region.meets(subject.axes, bounds).then_some(region)
    }
}
