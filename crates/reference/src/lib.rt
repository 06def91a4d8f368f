// The reference price: the midpoint of the quote, else the last sale, else the previous close.
#![tactic(auto)]

ghost use Rattle.std.specs.Prelude.{◌≡◌, ◌+◌, ◌^◌, ◌≤◌};
ghost use Rattle.reference.specs.Quote.{makes_quote, best_step, best_limit, BestOfSide};
ghost use Rattle.reference.specs.References.{twice, rounded_up, rounded_down, sale_reference, quote_reference, reference_of, Steady};

use orders::Side;
use orders::table::Order;

// A reference price, held as the two prices whose midpoint it is: twice the reference is their sum, and exact.
#[derive(Clone, Copy, Debug, PartialEq, Eq)]
pub struct Reference {
    one: u32,
    other: u32,
}

// Every standing displayed order makes the quote.
fn makes_quote(order: &Order) -> bool
    ensures { result ≡ makes_quote order.now }
{
    order.kind.is_displayed() && order.left > 0
}

// The best limit of a side once `order` is looked at too.
fn better(side: Side, best: Option<u32>, order: &Order) -> Option<u32>
    ensures { result ≡ best_step side best order.now }
{
    if order.side != side || !makes_quote(order) {
        return best;
    }
    match best {
        Some(limit) if !side.more_aggressive(order.limit, limit) => best,
        _ => Some(order.limit),
    }
}

// The best limit once every order is looked at.
fn most_aggressive(orders: &[Order], side: Side) -> Option<u32>
    ensures { result ≡ best_limit side orders.now }
{
    orders
        .iter()
        .fold(None, |best, order| better(side, best, order))
}

// The most aggressive limit among the orders that make the quote on a side.
pub fn best_limit(orders: &[Order], side: Side) -> Option<u32>
    ensures value { result ≡ best_limit side orders.now }
    ensures best { BestOfSide side orders.now result }
{
    most_aggressive(orders, side)
}

// The midpoint of bid and offer where both exist.
fn midpoint(bid: Option<u32>, offer: Option<u32>, otherwise: Reference) -> Reference
    ensures { result ≡ quote_reference bid offer otherwise }
{
    match (bid, offer) {
        (Some(bid), Some(offer)) => Reference {
            one: bid,
            other: offer,
        },
        _ => otherwise,
    }
}

impl Reference {
    // In the phases up to the freeze. No struct of sale and close: two functions take the pair, and a take sets one alone.
    pub fn of(orders: &[Order], last_sale: Option<u32>, previous_close: u32) -> Reference
        ensures value { result ≡ reference_of orders.now last_sale previous_close }
        ensures steady { Steady orders.now last_sale previous_close result }
    {
        let bid = best_limit(orders, Side::Buy);
        let offer = best_limit(orders, Side::Sell);
        midpoint(bid, offer, Reference::of_sales(last_sale, previous_close))
    }

    // In the extension: the last sale, else the previous close. Here too sale and close stay two parameters.
    pub fn of_sales(last_sale: Option<u32>, previous_close: u32) -> Reference
        ensures { result ≡ sale_reference last_sale previous_close }
    {
        let price = last_sale.unwrap_or(previous_close);
        Reference {
            one: price,
            other: price,
        }
    }

    // Twice the reference.
    pub fn doubled(self) -> u64
        ensures value { result ≡ twice self }
        ensures bound { result + 2 ≤ 2 ^ 33 }
    {
        u64::from(self.one) + u64::from(self.other)
    }

    // The reference, rounded up to a whole price and down to one.
    pub fn rounded_up(self) -> u32
        ensures { result ≡ rounded_up (twice self) }
    {
        ((self.doubled() + 1) / 2) as u32
    }

    pub fn rounded_down(self) -> u32
        ensures { result ≡ rounded_down (twice self) }
    {
        (self.doubled() / 2) as u32
    }
}
