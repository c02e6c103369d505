//! Adding entries, each checked on its own.

ghost use Rattle.std.specs.Prelude.{◌≡◌, ◌<◌, [], ◌∷◌, ◌++◌, length, Some, None, MatchResult, slice_index_or};
ghost use Rattle.room.specs.Listed.{listed};
ghost use Rattle.rule.specs.Questions.{Answers};
ghost use Rattle.orders.specs.Entries.{entries_of};
ghost use Rattle.orders.specs.Named.{Filed, all_refusal, no_orders};
ghost use Rattle.orders.specs.Ordered.{OrdersKept, add_refusal, order_legal};

use crate::held::OrderRule;
use room::array_vec::ArrayVec;
use room::limits::{MAX_AXES, MAX_LENGTH, MAX_PIECES};
use room::orders::{NO_ORDER, Order, Orders};
use room::refusal::{Layer, Refusal};

/// Whether some board has the pieces and the axis, the pieces are two, and the gap is within its range.
fn is_legal(order: &Order) -> bool
    ensures { result ≡ order_legal order.now }
{
    order.before < MAX_PIECES
        && order.after < MAX_PIECES
        && order.axis < MAX_AXES
        && (0..=MAX_LENGTH).contains(&order.gap)
        && order.before != order.after
}

/// Puts the entry at the end of a piece's list, which has room.
fn file(naming: &mut [Orders; MAX_PIECES], piece: usize, order: Order)
    requires known { piece < 24 }
    requires room { length (listed (slice_index_or naming.old piece no_orders)) < 32 }
    ensures { Filed piece order naming.old naming.new }
{
    naming[piece].push(order).unwrap();
}

impl OrderRule {
    /// No entries.
    pub fn new() -> OrderRule
        ensures empty { entries_of result ≡ [] }
        ensures kept { OrdersKept (entries_of result) }
    {
        let none = ArrayVec::new(NO_ORDER);
        OrderRule {
            entries: none,
            naming: [none; MAX_PIECES],
        }
    }

    /// Adds an entry at the end; where it is refused, nothing changes.
    pub fn add(&mut self, order: Order) -> Result<(), Refusal>
        ensures added { MatchResult result (λ _. (add_refusal (entries_of self.old) order ≡ None) × (entries_of self.new ≡ entries_of self.old ++ order ∷ [])) (λ e. (add_refusal (entries_of self.old) order ≡ Some e) × (self.new ≡ self.old)) }
        ensures kept { OrdersKept (entries_of self.new) }
    {
        if !is_legal(&order) {
            return Err(Refusal::OutOfRange { layer: Layer::Rule });
        }
        self.entries.push(order).map_err(|_| Refusal::OrdersFull)?;
        file(&mut self.naming, order.before, order);
        file(&mut self.naming, order.after, order);
        Ok(())
    }
}

/// All the orders, in their order.
impl<'a> TryFrom<&'a Orders> for OrderRule {
    type Error = Refusal;

    ghost try_from_gives = { λ orders result. Answers (all_refusal (listed orders.now)) (λ rule. entries_of rule ≡ listed orders.now) result };

    fn try_from(orders: &'a Orders) -> Result<Self, Refusal> {
        let mut rule = OrderRule::new();
        for order in orders.as_slice() {
            rule.add(*order)?;
        }
        Ok(rule)
    }
}
