//! The rules of a room sheet, held together.

#![tactic(auto)]

ghost use Rattle.room.specs.Listed.{listed, rows_of};
ghost use Rattle.rule.specs.Questions.{Answers};
ghost use Rattle.orders.specs.Named.{all_refusal};
ghost use Rattle.sheet_rule.specs.Together.{SheetKept};
ghost use Rattle.sheet_rule.specs.Held.{HoldsRules};

use forms::contents::Mode;
use orders::OrderRule;
use overlap::Overlap;
use room::orders::Orders;
use room::refusal::Refusal;
use room::walls::WallMap;
use rule::both::Both;
use walls::WallRule;

/// Orders, walls and overlap in one. The first two are quicker to answer, so they are asked first.
pub type SheetRule = Both<OrderRule, Both<WallRule, Overlap>>;

/// Holds the rules of a sheet: its mode, its wall map and its orders. Exactly the placements that keep every order, cover
/// no wall and have no two pieces overlap keep it. Orders that were read from a sheet are never refused.
pub fn sheet_rule(mode: Mode, walls: &WallMap, orders: &Orders) -> Result<SheetRule, Refusal>
    ensures held { Answers (all_refusal (listed orders.now)) (λ rule. HoldsRules mode (rows_of walls.now) (listed orders.now) rule) result }
    ensures kept { SheetKept mode (rows_of walls.now) (listed orders.now) }
{
    let ordered = OrderRule::try_from(orders)?;
    // a `From` would have to stand in `forms` or in `overlap`, which know nothing of each other
    let overlap = match mode {
        Mode::Strict => Overlap::strict(),
        Mode::Nonstrict => Overlap::nonstrict(),
    };
    Ok(Both::new(ordered, Both::new(WallRule::new(walls), overlap)))
}
