//! An order line: `before`, the piece before, the piece after, the axis and the gap.

ghost use Rattle.std.specs.Prelude.{◌≡◌};
ghost use Rattle.room.specs.declared.orders.Order.{Order as OrderT};
ghost use Rattle.forms.specs.Forms.{order_fits, order_from, says_before};
ghost use Rattle.forms.specs.Outcome.{in_range};

use crate::counts::count_below;
use crate::fault::Fault;
use crate::form::LineForm;
use crate::line::{Line, classify};
use room::limits::MAX_LENGTH;
use room::orders::Order;
use text::items::Items;

/// A line of an order in a room of this many axes and pieces.
#[derive(Drop)]
pub struct BeforeLine {
    pub axes: usize,
    pub pieces: usize,
}

impl BeforeLine {
    fn order(&self, numbers: [i32; 4]) -> Result<Order, Fault>
        ensures { result ≡ in_range (order_fits self.now.axes self.now.pieces numbers) (order_from numbers) }
    {
        let [before, after, axis, gap] = numbers;
        let order = Order {
            before: count_below(before, self.pieces)?,
            after: count_below(after, self.pieces)?,
            axis: count_below(axis, self.axes)?,
            gap,
        };
        if order.before != order.after && (0..=MAX_LENGTH).contains(&gap) {
            Ok(order)
        } else {
            Err(Fault::Range)
        }
    }
}

impl LineForm for BeforeLine {
    type Item = Order;

    ghost Said = { OrderT };

    ghost denotes = { λ o. o };

    ghost says = { λ form body. says_before form.axes form.pieces body };

    fn read(&self, body: &[u8]) -> Result<Order, Fault> {
        // the case of an enum, whose others are all one fault
        let Some(Line::Before(text)) = classify(body) else {
            return Err(Fault::Form);
        };
        let numbers = Items::new(text).numbers().ok_or(Fault::Form)?;
        self.order(numbers)
    }
}
