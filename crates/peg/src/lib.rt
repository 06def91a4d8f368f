// The standing price of an order: its limit, or for an order entered in the freeze the less aggressive of its limit and
// the midpoint on the grid.
#![tactic(auto)]

ghost use Rattle.std.specs.Prelude.{◌≡◌};
ghost use Rattle.reference.specs.References.{twice};
ghost use Rattle.peg.specs.Standing.{is_pegged, peg_price, pegged_at, standing, Stands};

use grid::PriceSet;
use orders::table::Order;
use orders::{Kind, Phase, Side};
use reference::Reference;

fn is_pegged(order: &Order) -> bool
    ensures { result ≡ is_pegged order.now }
{
    matches!((order.kind, order.phase), (Kind::Limit, Phase::Freeze))
}

// The reference on the grid, rounded up for buys and down for sells, and 0 where there is no such price, as the grid answers it.
fn peg_price<S: PriceSet>(prices: &S, reference: Reference, side: Side) -> u32
    ensures { result ≡ peg_price (S.holds prices.now) (twice reference) side }
{
    match side {
        Side::Buy => prices.at_or_above(reference.rounded_up()),
        Side::Sell => prices.at_or_below(reference.rounded_down()),
    }
}

// The less aggressive of the limit and the peg, and the limit where there is no peg, which is the 0 of the grid.
fn pegged_at(side: Side, limit: u32, peg: u32) -> u32
    ensures { result ≡ pegged_at side limit peg }
{
    if peg == 0 || side.more_aggressive(peg, limit) {
        return limit;
    }
    peg
}

// The price at which an order stands, given the prices of the grid and the reference that pegs follow: two parameters, since
// the grid is the venue's and the reference the book's.
pub fn standing_price<S: PriceSet>(prices: &S, reference: Reference, order: &Order) -> u32
    ensures value { result ≡ standing (S.holds prices.now) (twice reference) order.now }
    ensures meaning { Stands (S.holds prices.now) (twice reference) order.now result }
{
    if !is_pegged(order) {
        return order.limit;
    }
    let peg = peg_price(prices, reference, order.side);
    pegged_at(order.side, order.limit, peg)
}
