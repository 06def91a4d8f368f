// Orders, and the table of 128 that holds them.
ghost use Rattle.std.specs.Prelude.{◌≡◌, ◌≤◌, length, if◌then◌else◌, Some, None};
ghost use Rattle.orders.specs.Tables.{listed, size, no_orders, known, order_at, with_order, has_room, with_more, OthersSame};

use crate::{Kind, PegFlag, Phase, Side};
use fixed_list::FixedList;

// A day has no more orders, and no call finds more.
pub const MOST_ORDERS: usize = 128;

// An order as the book holds it. It stands while shares are left. It has the fields of an `Entry` and no `Entry` inside: an
// amendment changes one of them, and every reader would go through the inner one.
#[derive(Clone, Copy, Debug, Default, PartialEq, Eq)]
pub struct Order {
    // 1 to 128, in the order of acceptance, never given twice.
    pub number: u16,
    // Lower is earlier; an amendment gives a new one.
    pub entry: u32,
    pub kind: Kind,
    pub side: Side,
    pub flag: PegFlag,
    pub broker: u16,
    pub limit: u32,
    pub volume: u32,
    pub left: u32,
    // The phase in which the order was entered.
    pub phase: Phase,
}

// The orders accepted, in turn: the order with number n is the n-th.
#[derive(Clone, Copy, Debug, PartialEq, Eq)]
pub struct OrderTable {
    pub orders: FixedList<Order, MOST_ORDERS>,
}

impl OrderTable {
    pub fn new() -> OrderTable
        ensures { result ≡ no_orders }
    {
        OrderTable {
            orders: FixedList::new(Order::default()),
        }
    }

    pub fn get(&self, number: u16) -> Option<Order>
        ensures { result ≡ order_at self.now number }
    {
        let place = usize::from(number);
        if place == 0 || place > self.orders.count || place > MOST_ORDERS {
            return None;
        }
        Some(self.orders.places[place - 1])
    }

    // The orders accepted, in turn.
    pub fn as_slice(&self) -> &[Order]
        ensures value { result.now ≡ listed self.now }
        ensures few { length result.now ≤ 128 }
    {
        self.orders.as_slice()
    }

    // Puts `order` in the place of the order with this number, and leaves every other as it was. Answers whether there is one.
    pub fn replace(&mut self, number: u16, order: Order) -> bool
        ensures answer { result ≡ known self.old number }
        ensures after { self.new ≡ with_order self.old number order }
        ensures others { OthersSame self.old self.new number }
    {
        let place = usize::from(number);
        if place == 0 || place > self.orders.count || place > MOST_ORDERS {
            return false;
        }
        self.orders.places[place - 1] = order;
        true
    }

    // Adds an order in the next place, if there is one. Answers its place.
    pub fn push(&mut self, order: Order) -> Option<usize>
        ensures answer { result ≡ (if has_room self.old then Some (size self.old) else None) }
        ensures after { self.new ≡ with_more self.old order }
    {
        self.orders.push(order)
    }
}
