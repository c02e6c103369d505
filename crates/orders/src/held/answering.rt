//! The answers of a rule of orders: each entry that names a piece gives a box of its own.

ghost use Rattle.std.specs.Prelude.{◌≡◌, length};
ghost use Rattle.rule.specs.Gathered.{gathered};
ghost use Rattle.orders.specs.Boxes.{source_of};
ghost use Rattle.orders.specs.Entries.{entries_of};
ghost use Rattle.orders.specs.Named.{naming_of};
ghost use Rattle.orders.specs.Ordered.{order_suits, orders_shut, orders_suit};
ghost use Rattle.orders.specs.Shutting;

use crate::held::OrderRule;
use crate::shut::Applied;
use room::orders::Order;
use room::point::Point;
use room::region::Region;
use rule::interface::Rule;
use rule::listing::{Sources, count_boxes, listed_box};
use rule::subject::Subject;

/// Whether a board of so many axes and pieces has the entry's two pieces and its axis.
fn suits_board(entry: &Order, axes: usize, pieces: usize) -> bool
    ensures { result ≡ order_suits axes pieces entry.now }
{
    entry.before < pieces && entry.after < pieces && entry.axis < axes
}

impl Rule for OrderRule {
    ghost suited = { λ s. orders_suit (entries_of s) };

    ghost shut = { λ s. orders_shut (entries_of s) };

    ghost boxes = { λ s k r p. gathered (source_of (entries_of s) r p) (length (naming_of p (entries_of s))) };

    ghost narrows = { λ s k b c p x inside known within shut. Shutting.narrows (entries_of s) k b c p x inside shut };

    fn suits(&self, axes: usize, pieces: usize) -> bool {
        self.entries
            .as_slice()
            .iter()
            .all(|entry| suits_board(entry, axes, pieces))
    }

    fn cover(&self, subject: &Subject<'_>, point: &Point) -> Option<Region> {
        // no chain: that an entry applies is known by its place in the list, of which a closure is told nothing
        for entry in self.naming[subject.piece].as_slice() {
            let applied = Applied {
                subject: *subject,
                entry,
            };
            let region = applied.region();
            if region.holds(subject.axes, point) {
                return Some(region);
            }
        }
        None
    }

    fn count(&self, subject: &Subject<'_>) -> Option<usize> {
        count_boxes(self, subject)
    }

    fn listed(&self, subject: &Subject<'_>, number: usize) -> Region {
        listed_box(self, subject, number)
    }
}

impl Sources for OrderRule {
    ghost serves = { λ s. orders_suit (entries_of s) };

    ghost many = { λ s k r p. length (naming_of p (entries_of s)) };

    ghost given = { λ s k r p. source_of (entries_of s) r p };

    fn sources(&self, subject: &Subject<'_>) -> usize {
        self.naming[subject.piece].len()
    }

    fn source_box(&self, subject: &Subject<'_>, source: usize) -> Option<Region> {
        let applied = Applied {
            subject: *subject,
            entry: &self.naming[subject.piece].as_slice()[source],
        };
        applied.span().holds_any().then_some(applied.region())
    }
}
