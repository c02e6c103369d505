//! The box of points that one entry shuts.

ghost use Rattle.std.specs.Prelude.{◌≡◌, ℕ, ◌≤◌};
ghost use Rattle.room.specs.Seen.{at, box_of, span_at};
ghost use Rattle.rule.specs.Means.{SameBox};
ghost use Rattle.rule.specs.Subjects.{room_seen};
ghost use Rattle.orders.specs.Boxes.{Applies, first_shut, last_shut, order_box, order_span};

use room::orders::Order;
use room::region::Region;
use room::span::Span;
use rule::subject::Subject;

/// An entry that names the piece asked about, on a board that has its two pieces and its axis.
#[derive(Clone, Copy)]
pub struct Applied<'a> {
    pub subject: Subject<'a>,
    pub entry: &'a Order,
    pub ghost applies: { Applies subject entry.now },
}

impl<'a> Applied<'a> {
    // two functions: they differ in every operand

    /// The least origin of the piece before that is shut: there it reaches past the upper end of the other.
    fn first_shut(&self) -> i32
        ensures { result ≡ first_shut (room_seen self.now.subject) self.now.entry.now }
    {
        let axis = self.entry.axis;
        let before = &self.subject.records[self.entry.before];
        let after = &self.subject.records[self.entry.after];
        after.present.spans[axis].upper - before.lengths[axis] - self.entry.gap + 1
    }

    /// The greatest origin of the piece after that is shut: the other's lower end reaches past it.
    fn last_shut(&self) -> i32
        ensures { result ≡ last_shut (room_seen self.now.subject) self.now.entry.now }
    {
        let axis = self.entry.axis;
        let before = &self.subject.records[self.entry.before];
        before.present.spans[axis].lower + before.lengths[axis] + self.entry.gap - 1
    }

    /// The origins of the piece on the entry's axis that are shut, within its bounds: one end of these is moved. The lower
    /// end is above the upper where no origin is shut.
    pub fn span(&self) -> Span
        ensures { result ≡ order_span (room_seen self.now.subject) self.now.subject.piece self.now.entry.now }
    {
        let mut span = self.subject.record().present.spans[self.entry.axis];
        if self.subject.piece == self.entry.before {
            span.lower = span.lower.max(self.first_shut());
        } else {
            span.upper = span.upper.min(self.last_shut());
        }
        span
    }

    /// The points within the bounds of the piece that the entry shuts.
    pub fn region(&self) -> Region
        ensures shut { SameBox self.now.subject.axes (box_of result) (order_box (room_seen self.now.subject) self.now.subject.piece self.now.entry.now) }
        ensures past { (d : ℕ) → self.now.subject.axes ≤ d → span_at result d ≡ span_at (at self.now.subject.records.now self.now.subject.piece).present d }
    {
        let bounds = &self.subject.record().present;
        bounds.with_span(self.entry.axis, self.span())
    }
}
