// What would trade at a price.
ghost use Rattle.std.specs.Prelude.{◌≡◌, ◌+◌, ◌^◌, ◌≤◌, Bool};
ghost use Rattle.orders.specs.declared.Side.TheVariants.{Buy, Sell};
ghost use Rattle.orders.specs.declared.found.FoundOrder.{FoundOrder};
ghost use Rattle.auction.specs.Laws.{Monotone};
ghost use Rattle.auction.specs.Orders.{listed};
ghost use Rattle.auction.specs.Sums.{Tells, closing_and, one_more, shares_of};
ghost use Rattle.auction.specs.Totals.{eligible, total, closing_total, market_total};

use crate::found::FoundOrders;
use orders::found::FoundOrder;
use orders::{Kind, Side};

// Shares to buy and shares to sell: of all orders that count, and of the closing orders among them.
#[derive(Clone, Copy)]
pub struct FourTotals {
    pub all: (u64, u64),
    pub closing: (u64, u64),
}

pub fn is_eligible(order: &FoundOrder, price: u32) -> bool
    ensures { result ≡ eligible price order.now }
{
    match (order.kind, order.side) {
        (Kind::Market, _) => true,
        (_, Side::Buy) => order.standing >= price,
        (_, Side::Sell) => order.standing <= price,
    }
}

// The totals with one order more, if it counts.
fn with_order(totals: FourTotals, order: &FoundOrder, counts: bool) -> FourTotals
    requires all { (totals.all.0 + 2 ^ 32 ≤ 2 ^ 64) × (totals.all.1 + 2 ^ 32 ≤ 2 ^ 64) }
    requires closing { (totals.closing.0 + 2 ^ 32 ≤ 2 ^ 64) × (totals.closing.1 + 2 ^ 32 ≤ 2 ^ 64) }
    ensures all { result.all ≡ one_more (λ _. counts) order.now totals.all }
    ensures closing { result.closing ≡ one_more (closing_and (λ _. counts)) order.now totals.closing }
    ensures small { (result.all.0 ≤ totals.all.0 + 2 ^ 32) × (result.all.1 ≤ totals.all.1 + 2 ^ 32) }
    ensures small_closing { (result.closing.0 ≤ totals.closing.0 + 2 ^ 32) × (result.closing.1 ≤ totals.closing.1 + 2 ^ 32) }
{
    if !counts {
        return totals;
    }
    let shares = u64::from(order.shares);
    let closing = if order.kind.is_closing() { shares } else { 0 };
    let (buys, sells) = totals.all;
    let (closing_buys, closing_sells) = totals.closing;
    match order.side {
        Side::Buy => FourTotals {
            all: (buys + shares, sells),
            closing: (closing_buys + closing, closing_sells),
        },
        Side::Sell => FourTotals {
            all: (buys, sells + shares),
            closing: (closing_buys, closing_sells + closing),
        },
    }
}

// The shares of the orders that count, in one pass over the orders.
fn shares_of<F: Fn(&FoundOrder) -> bool>(orders: &FoundOrders, counts: F) -> FourTotals
    requires { F.IsAlwaysCallable counts }
    ensures all { (test : FoundOrder → Bool) → Tells F.Fn counts test → result.all ≡ shares_of test (listed orders.now) }
    ensures closing { (test : FoundOrder → Bool) → Tells F.Fn counts test → result.closing ≡ shares_of (closing_and test) (listed orders.now) }
{
    let mut sums = FourTotals {
        all: (0, 0),
        closing: (0, 0),
    };
    for order in orders.as_slice() {
        sums = with_order(sums, order, counts(order));
    }
    sums
}

// The eligible shares at a price.
pub fn sum_at(orders: &FoundOrders, price: u32) -> FourTotals
    ensures all { result.all ≡ (total Buy price (listed orders.now), total Sell price (listed orders.now)) }
    ensures closing { result.closing ≡ (closing_total Buy price (listed orders.now), closing_total Sell price (listed orders.now)) }
{
    shares_of(orders, |order| is_eligible(order, price))
}

// Shares to buy and shares to sell at a price.
pub fn totals(orders: &FoundOrders, price: u32) -> (u64, u64)
    ensures monotone { Monotone price (listed orders.now) }
    ensures value { result ≡ (total Buy price (listed orders.now), total Sell price (listed orders.now)) }
{
    sum_at(orders, price).all
}

// Shares to buy and shares to sell of market orders.
pub fn market_totals(orders: &FoundOrders) -> (u64, u64)
    ensures { result ≡ (market_total Buy (listed orders.now), market_total Sell (listed orders.now)) }
{
    shares_of(orders, |order| order.kind.is_market()).all
}
