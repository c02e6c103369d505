//! The rules that no two pieces overlap: strict, and nonstrict, under which a piece of length 0 is in nobody's way.

#![tactic(auto)]

ghost use Rattle.std.specs.Prelude.{◌≡◌, true, Decides};
ghost use Rattle.rule.specs.Gathered.{gathered};
ghost use Rattle.overlap.specs.Clash.{ShutsBlocked, clash_source, overlap_shut};
ghost use Rattle.overlap.specs.Diffn.{StrictKept, NonstrictKept};
ghost use Rattle.overlap.specs.Pairs.{PairExempt};
ghost use Rattle.overlap.specs.Clashing;

mod pair;

use crate::pair::Pair;
use room::point::Point;
use room::region::Region;
use rule::interface::Rule;
use rule::listing::{Sources, count_boxes, listed_box};
use rule::subject::Subject;

/// Pieces i and j clash when, on every axis, i's origin lies below j's origin + length, and j's below i's origin + length.
/// A point of a piece is shut when some other piece clashes with it at every origin within that piece's bounds.
#[derive(Clone, Copy)]
pub enum Overlap {
    /// Lengths 0 count: such a piece clashes with one that it lies strictly inside of.
    Strict,
    /// A pair with a length 0 on any axis never clashes.
    Nonstrict,
}

impl Overlap {
    /// The strict rule. Exactly the placements that satisfy `diffn_k` keep it.
    pub fn strict() -> Overlap
        ensures rule { result ≡ Overlap.Strict }
        ensures means { ShutsBlocked result }
        ensures kept { StrictKept }
    {
        Self::Strict
    }

    /// The nonstrict rule. Exactly the placements that satisfy `diffn_nonstrict_k` keep it.
    pub fn nonstrict() -> Overlap
        ensures rule { result ≡ Overlap.Nonstrict }
        ensures means { ShutsBlocked result }
        ensures kept { NonstrictKept }
    {
        Self::Nonstrict
    }

    /// Whether the pair never clashes.
    fn exempts(&self, pair: &Pair<'_>) -> bool
        ensures { Decides result (PairExempt self.now pair.now) }
    {
        match self {
            Overlap::Strict => false,
            Overlap::Nonstrict => pair.has_zero(),
        }
    }
}

impl Rule for Overlap {
    ghost suited = { λ _ _ _. true };

    ghost shut = { overlap_shut };

    ghost boxes = { λ s k r p. gathered (clash_source s k r p) r.count };

    ghost narrows = { λ s k b c p x in' here within shut. Clashing.narrows s k b c p x in' here shut };

    fn suits(&self, _axes: usize, _pieces: usize) -> bool {
        true
    }

    fn cover(&self, subject: &Subject<'_>, point: &Point) -> Option<Region> {
        // A fixed form of the project: a loop over the records with their numbers, which skips the asked piece.
        for (j, other) in subject.records.iter().enumerate() {
            let is_other = j != subject.piece;
            let pair = Pair::new(subject, other);
            if is_other && pair.clashes_at(point) && !self.exempts(&pair) {
                return Some(pair.region());
            }
        }
        None
    }

    fn count(&self, subject: &Subject<'_>) -> Option<usize> {
        count_boxes(self, subject)
    }

    fn listed(&self, subject: &Subject<'_>, number: usize) -> Region {
        listed_box(self, subject, number)
    }
}

/// The sources of a piece's boxes are the pieces.
impl Sources for Overlap {
    ghost serves = { λ _ _ _. true };

    ghost many = { λ _ _ r _. r.count };

    ghost given = { clash_source };

    fn sources(&self, subject: &Subject<'_>) -> usize {
        subject.records.len()
    }

    fn source_box(&self, subject: &Subject<'_>, source: usize) -> Option<Region> {
        let is_asked = source == subject.piece;
        let pair = Pair::new(subject, &subject.records[source]);
        if is_asked || self.exempts(&pair) {
            return None;
        }
        let region = pair.region();
        region
            .meets(subject.axes, &subject.record().present)
            .then_some(region)
    }
}
