// The orders that a call finds: at most 128.
ghost use Rattle.std.specs.Prelude.{◌≤◌};

use fixed_list::FixedList;
use orders::found::FoundOrder;
use orders::table::MOST_ORDERS;

pub mod list;

#[derive(Clone, Copy)]
pub struct FoundOrders {
    orders: FixedList<FoundOrder, MOST_ORDERS>,
    ghost few: { orders.count ≤ 128 },
}
