// Who trades with whom at the close.
#![tactic(auto)]

ghost use Rattle.std.specs.Prelude.{◌≡◌, take, MatchResult, IfErr, IfOk, OnOk};
ghost use Rattle.auction.specs.Orders.{listed};
ghost use Rattle.allocation.specs.Allocation.{named, distinct, Refused, Cause, Allocated, NameOrders};

use auction::found::FoundOrders;
use orders::Side;
use orders::found::FoundOrder;
use priority::{PairingRule, Ranked};
use std::marker::PhantomData;

pub mod error;
mod greedy;
pub mod held;

use error::AllocationError;
use greedy::trade_all;
use held::{Fill, LivePair, hold};

// Working memory of so many pairs, and so many places for fills, serve every book. The caller lends both, as this project asks.
pub const PAIRS: usize = 4096;

pub const FILLS: usize = 127;

fn has_entry(orders: &[FoundOrder], wanted: u32) -> bool
    ensures { result ≡ named wanted orders.now }
{
    orders.iter().any(|order| order.entry == wanted)
}

fn are_distinct(orders: &[FoundOrder]) -> bool
    ensures { result ≡ distinct orders.now }
{
    let mut rest = orders;
    while let [order, later @ ..] = rest {
        if has_entry(later, order.entry) {
            return false;
        }
        rest = later;
    }
    true
}

// Fills the orders that are eligible at the price, by the rule, and answers how many fills that took.
// An error where the lent memory is too short, else where two orders have one entry number; then nothing is changed.
pub fn allocate<R: PairingRule + Copy>(
    rule: &R,
    orders: &FoundOrders,
    price: u32,
    pairs: &mut [LivePair],
    fills: &mut [Fill],
) -> Result<usize, AllocationError>
    ensures answer { MatchResult result (Allocated (R.PairingRule.ahead rule.now) price (listed orders.now) fills.old fills.new) (λ _. Refused (listed orders.now) pairs.old fills.old × (pairs.new ≡ pairs.old) × (fills.new ≡ fills.old)) }
    ensures served { OnOk result (¬ Refused (listed orders.now) pairs.old fills.old) }
    ensures cause { IfErr result (Cause (listed orders.now) pairs.old fills.old) }
    ensures found { IfOk result (λ count. NameOrders price (listed orders.now) (take count fills.new)) }
{
    if pairs.len() < PAIRS || fills.len() < FILLS {
        return Err(AllocationError::ShortMemory);
    }
    if !are_distinct(orders.as_slice()) {
        return Err(AllocationError::SharedEntry);
    }
    let mut buys = hold(orders, Side::Buy, price);
    let mut sells = hold(orders, Side::Sell, price);
    let rule = Ranked {
        rule: *rule,
        of: PhantomData,
    };
    Ok(trade_all(&rule, &mut buys, &mut sells, pairs, fills))
}
