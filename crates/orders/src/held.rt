//! What a rule of orders holds.

ghost use Rattle.std.specs.Prelude.{◌≡◌, true};
ghost use Rattle.room.specs.Listed.{listed};
ghost use Rattle.orders.specs.Named.{Grouped, orders_legal};

use room::limits::MAX_PIECES;
use room::orders::Orders;

pub mod adding;
pub mod answering;

/// Orders between pieces, all of which have to be kept.
#[derive(Clone, Copy)]
pub struct OrderRule {
    /// All entries, in the order of their adding.
    entries: Orders,
    /// For each piece the entries that name it, in the same order, so that no answer walks past other pieces' entries.
    naming: [Orders; MAX_PIECES],
    ghost legal: { orders_legal (listed entries) ≡ true },
    ghost grouped: { Grouped naming (listed entries) },
}
