// How the orders that a call finds are listed.
ghost use Rattle.std.specs.Prelude.{◌≡◌, ◌+◌, ◌≤◌, [], ◌∷◌, ◌++◌, length, if◌then◌else◌, nat_lt};
ghost use Rattle.auction.specs.Orders.{listed, size};

use super::FoundOrders;
use fixed_list::FixedList;
use orders::found::FoundOrder;

impl FoundOrders {
    pub fn new() -> FoundOrders
        ensures none { listed result ≡ [] }
        ensures size { size result ≡ 0 }
    {
        FoundOrders {
            orders: FixedList::new(FoundOrder::default()),
        }
    }

    // Adds an order, if there is room. Answers whether there was.
    pub fn push(&mut self, order: FoundOrder) -> bool
        ensures answer { result ≡ nat_lt (size self.old) 128 }
        ensures size { size self.new ≡ (if result then size self.old + 1 else size self.old) }
        ensures after { listed self.new ≡ (if result then listed self.old ++ (order ∷ []) else listed self.old) }
    {
        self.orders.push(order).is_some()
    }

    pub fn as_slice(&self) -> &[FoundOrder]
        ensures value { result.now ≡ listed self.now }
        ensures few { length result.now ≤ 128 }
    {
        self.orders.as_slice()
    }
}
