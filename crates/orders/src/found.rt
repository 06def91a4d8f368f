// Orders as a call finds them.
ghost use Rattle.std.specs.Prelude.{◌≡◌};
ghost use Rattle.orders.specs.Finding.{found};

use crate::table::Order;
use crate::{Kind, Side};

// An order as a call finds it: where it stands, and the shares that it brings.
#[derive(Clone, Copy, Default)]
pub struct FoundOrder {
    pub number: u16,
    pub entry: u32,
    pub kind: Kind,
    pub side: Side,
    pub broker: u16,
    pub standing: u32,
    pub shares: u32,
}

impl FoundOrder {
    pub fn new(order: &Order, standing: u32) -> FoundOrder
        ensures { result ≡ found order.now standing }
    {
        FoundOrder {
            number: order.number,
            entry: order.entry,
            kind: order.kind,
            side: order.side,
            broker: order.broker,
            standing,
            shares: order.left,
        }
    }
}
