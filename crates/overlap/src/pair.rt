//! The piece that is asked about beside another one.

ghost use Rattle.std.specs.Prelude.{ℕ, ◌<◌, ◌≤◌};
ghost use Rattle.overlap.specs.Ends.{PairLimits};

use room::piece::Piece;
use room::point::Point;
use room::region::Region;
use room::span::{NO_SPAN, Span};
use rule::subject::Subject;
use std::array::from_fn;

/// The asked piece and another, on the axes of a board.
#[derive(Clone, Copy)]
pub(crate) struct Pair<'a> {
    axes: usize,
    asked: &'a Piece,
    other: &'a Piece,
    ghost few: { axes ≤ 3 },
    ghost limits: { (d : ℕ) → d < axes → PairLimits asked.now.lengths other.now d },
}

impl<'a> Pair<'a> {
    ghost use Rattle.std.specs.Prelude.{◌≡◌};
    ghost use Rattle.room.specs.Below.{any_below};
    ghost use Rattle.room.specs.Fit.{AxisLimits};
    ghost use Rattle.room.specs.Seen.{box_of, holds, on_axis};
    ghost use Rattle.rule.specs.Means.{SameBox};
    ghost use Rattle.overlap.specs.Pairs.{PairOf, pair_box, zero_on};

    /// The piece that is asked about, and another whose record is within the limits.
    pub fn new(subject: &Subject<'a>, other: &'a Piece) -> Self
        requires { (d : ℕ) → d < subject.now.axes → AxisLimits other.now d }
        ensures { PairOf subject.now other.now result }
    {
        Pair {
            axes: subject.axes,
            asked: subject.record(),
            other,
        }
    }

    /// The origins, on an axis, at which the asked piece clashes with the other wherever that one lies.
    fn span(&self, axis: usize) -> Span
        requires { axis < self.now.axes }
        ensures lower { result.lower ≡ (pair_box self.now).from axis }
        ensures upper { result.upper ≡ (pair_box self.now).to axis }
    {
        let bounds = &self.other.present.spans[axis];
        Span {
            lower: bounds.upper - self.asked.lengths[axis] + 1,
            upper: bounds.lower + self.other.lengths[axis] - 1,
        }
    }

    /// The box of those origins.
    pub fn region(&self) -> Region
        ensures { SameBox self.now.axes (box_of result) (pair_box self.now) }
    {
        Region {
            spans: from_fn(|axis| {
                if axis < self.axes {
                    self.span(axis)
                } else {
                    NO_SPAN
                }
            }),
        }
    }

    /// Whether the point lies in the box of those origins.
    pub fn clashes_at(&self, point: &Point) -> bool
        ensures { result ≡ holds self.now.axes (pair_box self.now) (on_axis point.now.origins) }
    {
        (0..self.axes).all(|axis| self.span(axis).holds(point.origins[axis]))
    }

    /// Whether a length of the two is 0 on some axis.
    pub fn has_zero(&self) -> bool
        ensures { result ≡ any_below (zero_on self.now) self.now.axes }
    {
        (0..self.axes).any(|axis| self.asked.lengths[axis] == 0 || self.other.lengths[axis] == 0)
    }
}
