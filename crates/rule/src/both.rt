//! Two rules held together.

ghost use Rattle.std.specs.Prelude.{◌≡◌, ◌&&◌, ◌++◌};
ghost use Rattle.rule.specs.Kept.{BothKept, either};
ghost use Rattle.rule.specs.Pair.{one_of, two_of};
ghost use Rattle.std.proofs.Common.{rules};

use crate::interface::{MAX_LISTED, Rule};
use crate::subject::Subject;
use room::point::Point;
use room::region::Region;

/// Two rules of any make: it suits where each does, and shuts what either shuts. The first is asked first, so the one that
/// is quicker to answer belongs there.
#[derive(Clone, Copy)]
pub struct Both<P, Q> {
    one: P,
    two: Q,
}

impl<P: Rule, Q: Rule> Both<P, Q> {
    /// Exactly the placements that keep each of the two keep the pair.
    pub fn new(one: P, two: Q) -> Self
        ensures held { (one_of result ≡ one) × (two_of result ≡ two) }
        ensures kept { BothKept (P.shut one) (Q.shut two) }
    {
        Both { one, two }
    }
}

impl<P: Rule, Q: Rule> Rule for Both<P, Q> {
    ghost suited = { λ s k n. P.suited s.one k n && Q.suited s.two k n };

    ghost shut = { λ s. either (P.shut s.one) (Q.shut s.two) };

    ghost boxes = { λ s k r p. P.boxes s.one k r p ++ Q.boxes s.two k r p };

    ghost narrows = { Prim.search rules };

    fn suits(&self, axes: usize, pieces: usize) -> bool {
        self.one.suits(axes, pieces) && self.two.suits(axes, pieces)
    }

    fn cover(&self, subject: &Subject<'_>, point: &Point) -> Option<Region> {
        // `or_else` takes a closure, and of a closure that asks a rule of a type parameter nothing is known
        match self.one.cover(subject, point) {
            Some(region) => Some(region),
            None => self.two.cover(subject, point),
        }
    }

    fn count(&self, subject: &Subject<'_>) -> Option<usize> {
        let one = self.one.count(subject);
        let two = self.two.count(subject);
        let all = one? + two?;
        let countable = all <= MAX_LISTED;
        countable.then_some(all)
    }

    fn listed(&self, subject: &Subject<'_>, number: usize) -> Region {
        let first = self.one.count(subject).unwrap_or(MAX_LISTED);
        if number < first {
            self.one.listed(subject, number)
        } else {
            self.two.listed(subject, number - first)
        }
    }
}
