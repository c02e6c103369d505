//! The interface of a rule.

ghost use Rattle.std.specs.Prelude.{◌≡◌, ℕ, ◌<◌, Bool, true, List, length};
ghost use Rattle.room.specs.Seen.{Room, Point as PointT, Box as BoxT, Within, Inside};
ghost use Rattle.rule.specs.Means.{counted, max_listed};
ghost use Rattle.rule.specs.Subjects.{CoveredThere, ListsThere, SameThere, Suits, WithinBounds, boxes_there};

use crate::subject::Subject;
use room::point::Point;
use room::region::Region;

/// Boxes are counted up to this.
pub const MAX_LISTED: usize = 1_000_000_000;

/// A rule: which boards it suits, and which points within a piece's bounds it shuts, for lengths and present bounds of all
/// pieces. A question changes nothing.
pub trait Rule {
    /// The numbers of axes and pieces that the rule suits.
    ghost suited: { Self → ℕ → ℕ → Bool };

    /// With this many axes, in this room, whether a point of a piece is shut.
    ghost shut: { Self → ℕ → Room → ℕ → PointT → Bool };

    /// The boxes that the rule lists for a piece: its own choice among the right lists.
    ghost boxes: { Self → ℕ → Room → ℕ → List BoxT };

    /// Whether the rule suits a board of so many axes and pieces.
    fn suits(&self, axes: usize, pieces: usize) -> bool
        ensures { result ≡ suited self.now axes pieces };

    /// Nothing where the point of the piece is not shut, otherwise a box that holds it and in which all is shut.
    fn cover(&self, subject: &Subject<'_>, point: &Point) -> Option<Region>
        requires suits { Suits (suited self.now) subject.now }
        requires within { WithinBounds subject.now point.now.origins }
        ensures { CoveredThere (shut self.now) subject.now point.now.origins result };

    /// How many boxes are listed for the piece; nothing where they are too many to count.
    fn count(&self, subject: &Subject<'_>) -> Option<usize>
        requires suits { Suits (suited self.now) subject.now }
        ensures number { result ≡ counted (length (boxes_there (boxes self.now) subject.now)) }
        ensures lists { ListsThere (shut self.now) (boxes self.now) subject.now };

    /// The box at a number of the list, from 0.
    fn listed(&self, subject: &Subject<'_>, number: usize) -> Region
        requires suits { Suits (suited self.now) subject.now }
        requires there { number < length (boxes_there (boxes self.now) subject.now) }
        requires small { number < max_listed }
        ensures { SameThere (boxes self.now) subject.now number result };

    /// What is shut stays shut where bounds get tighter.
    ghost narrows: { (s : Self) (k : ℕ) (b c : Room) (p : ℕ) (x : PointT) → Inside k c b → p < b.count → Within k c p x → shut s k b p x ≡ true → shut s k c p x ≡ true };
}
