//! Counting and listing boxes that come from numbered sources: the other pieces, the cells of a map, the entries of a list.
//! A rule's `count` and `listed` are one call of these each: a trait cannot give them to just those rules that have sources,
//! and a type round each such rule would be longer than the two calls.

ghost use Rattle.std.specs.Prelude.{◌≡◌, ℕ, ◌<◌, Bool, length, Option as OptionT};
ghost use Rattle.room.specs.Seen.{Room, Box as BoxT, box_of};
ghost use Rattle.rule.specs.Means.{SameBox, box_at, counted};
ghost use Rattle.rule.specs.Subjects.{ShowsThere, Suits, gathered_there, many_there};

use crate::interface::MAX_LISTED;
use crate::subject::Subject;
use room::region::Region;

/// What gives boxes by numbered sources, each of which gives one box for a piece, or none.
pub trait Sources {
    /// The numbers of axes and pieces at which sources may be asked.
    ghost serves: { Self → ℕ → ℕ → Bool };

    /// How many sources there are for a piece.
    ghost many: { Self → ℕ → Room → ℕ → ℕ };

    /// The box that a source gives for a piece.
    ghost given: { Self → ℕ → Room → ℕ → ℕ → OptionT BoxT };

    /// How many sources there are for the piece.
    fn sources(&self, subject: &Subject<'_>) -> usize
        requires { Suits (serves self.now) subject.now }
        ensures { result ≡ many_there (many self.now) subject.now };

    /// The box that a source gives for the piece.
    fn source_box(&self, subject: &Subject<'_>, source: usize) -> Option<Region>
        requires suits { Suits (serves self.now) subject.now }
        requires there { source < many_there (many self.now) subject.now }
        ensures { ShowsThere (given self.now) subject.now source result };
}

/// How many boxes the sources give for the piece; nothing where they are too many to count.
pub fn count_boxes<S: Sources>(rule: &S, subject: &Subject<'_>) -> Option<usize>
    requires { Suits (S.serves rule.now) subject.now }
    ensures { result ≡ counted (length (gathered_there (S.given rule.now) (S.many rule.now) subject.now)) }
{
    // no `filter` and `count`: of a closure that asks a rule of a type parameter nothing is known
    let mut boxes = 0;
    for source in 0..rule.sources(subject) {
        if rule.source_box(subject, source).is_some() {
            boxes += 1;
        }
    }
    let countable = boxes <= MAX_LISTED;
    countable.then_some(boxes)
}

/// The box at a number among those that the sources give for the piece.
pub fn listed_box<S: Sources>(rule: &S, subject: &Subject<'_>, number: usize) -> Region
    requires suits { Suits (S.serves rule.now) subject.now }
    requires there { number < length (gathered_there (S.given rule.now) (S.many rule.now) subject.now) }
    ensures { SameBox subject.now.axes (box_of result) (box_at (gathered_there (S.given rule.now) (S.many rule.now) subject.now) number) }
{
    // no `filter_map` and `nth`, likewise
    let mut left = number;
    for source in 0..rule.sources(subject) {
        if let Some(region) = rule.source_box(subject, source) {
            let reached = left == 0;
            if reached {
                return region;
            }
            left -= 1;
        }
    }
    unreachable()
}
