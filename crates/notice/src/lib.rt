// The imbalance notice: what members size their offsetting orders by.
#![tactic(auto)]

ghost use Rattle.std.specs.Prelude.{◌≡◌};
ghost use Rattle.auction.specs.Orders.{listed};
ghost use Rattle.orders.specs.declared.Side.TheVariants.{Buy, Sell};
ghost use Rattle.reference.specs.References.{twice};
ghost use Rattle.notice.specs.Laws.{Leans, EvensOut};
ghost use Rattle.notice.specs.Notices.{closing_at_reference, imbalance_of, reference_imbalance, notice_of};

use auction::search::Auction;
use auction::totals::{market_totals, sum_at};
use orders::Side;
use reference::Reference;
use std::cmp::Ordering;

// The side with more shares, none where they are equal, and by how many. No `Option` of both: the volume
// is read where there is no side too.
#[derive(Clone, Copy, Debug, PartialEq, Eq)]
pub struct Imbalance {
    pub side: Option<Side>,
    pub volume: u64,
}

#[derive(Clone, Copy, Debug, PartialEq, Eq)]
pub struct Notice {
    pub reference: Reference,
    // Of closing orders at the reference.
    pub imbalance: Imbalance,
    pub paired: u64,
    // Of market orders alone.
    pub market: Imbalance,
}

impl Imbalance {
    pub fn between(buys: u64, sells: u64) -> Imbalance
        ensures value { result ≡ imbalance_of buys sells }
        ensures leans { Leans buys sells result }
    {
        let side = match buys.cmp(&sells) {
            Ordering::Greater => Some(Side::Buy),
            Ordering::Less => Some(Side::Sell),
            Ordering::Equal => None,
        };
        Imbalance {
            side,
            volume: buys.abs_diff(sells),
        }
    }
}

// Shares to buy and to sell of the closing orders that are eligible at the reference. Prices are whole, so buys count from
// the midpoint rounded up, and sells to the midpoint rounded down.
fn totals_at_reference(auction: &Auction) -> (u64, u64)
    ensures { result ≡ (closing_at_reference Buy (twice auction.now.reference) (listed auction.now.orders.now), closing_at_reference Sell (twice auction.now.reference) (listed auction.now.orders.now)) }
{
    let up = auction.reference.rounded_up();
    let down = auction.reference.rounded_down();
    let (buys, _) = sum_at(auction.orders, up).closing;
    let (_, sells) = sum_at(auction.orders, down).closing;
    (buys, sells)
}

// What the extension advertises.
pub fn imbalance_at_reference(auction: &Auction) -> Imbalance
    ensures value { result ≡ reference_imbalance (twice auction.now.reference) (listed auction.now.orders.now) }
    ensures offset { EvensOut (twice auction.now.reference) (listed auction.now.orders.now) result }
{
    let (buys, sells) = totals_at_reference(auction);
    Imbalance::between(buys, sells)
}

impl Notice {
    pub fn of(auction: &Auction) -> Notice
        ensures { result ≡ notice_of auction.now.reference (listed auction.now.orders.now) }
    {
        let (buys, sells) = totals_at_reference(auction);
        let (market_buys, market_sells) = market_totals(auction.orders);
        Notice {
            reference: auction.reference,
            imbalance: Imbalance::between(buys, sells),
            paired: buys.min(sells),
            market: Imbalance::between(market_buys, market_sells),
        }
    }
}

#[cfg(test)]
mod tests;
