// Orders with what each has left, the pairs that can still trade, and fills.
ghost use Rattle.std.specs.Prelude.{◌≡◌, ◌+◌, ◌≤◌, ◌++◌, length, take};
ghost use Rattle.auction.specs.Orders.{listed};
ghost use Rattle.allocation.specs.Holdings.{takes_part, held, pairs_with};

use arrayvec::ArrayVec;
use auction::found::FoundOrders;
use auction::totals::is_eligible;
use orders::Side;
use orders::found::FoundOrder;
use orders::table::MOST_ORDERS;
use priority::{HasPair, Pair};

// An order and the shares that it has left.
#[derive(Clone, Copy, Default)]
pub struct Holding {
    pub order: FoundOrder,
    pub left: u32,
}

// A pair that can trade, with the places of its buy and its sell. Places, and no borrows: a trade lowers what both have left.
#[derive(Clone, Copy, Default)]
pub struct LivePair {
    pub pair: Pair,
    pub buy: usize,
    pub sell: usize,
}

// Shares that a buy and a sell trade with each other.
#[derive(Clone, Copy, Default)]
pub struct Fill {
    pub pair: Pair,
    pub shares: u32,
}

impl HasPair for LivePair {
    ghost pair_in = { λ live. live.pair };

    fn pair(&self) -> &Pair {
        &self.pair
    }
}

fn takes_part(order: &FoundOrder, side: Side, price: u32) -> bool
    ensures { result ≡ takes_part side price order.now }
{
    order.side == side && is_eligible(order, price)
}

// The eligible orders of one side, each with all that it brings.
pub(crate) fn hold(orders: &FoundOrders, side: Side, price: u32) -> ArrayVec<Holding, MOST_ORDERS>
    ensures { result.items ≡ held side price (listed orders.now) }
{
    let mut held = ArrayVec::new();
    held.extend(
        orders
            .as_slice()
            .iter()
            .filter(|order| takes_part(order, side, price))
            .map(|order| Holding {
                order: *order,
                left: order.shares,
            }),
    )
    .unwrap();
    held
}

// Lists the pairs of one buy with the sells that have shares, behind the `count` listed before.
// A slice with a count, since the caller lends it: nothing is allocated.
pub(crate) fn add_pairs(
    pairs: &mut [LivePair],
    count: usize,
    buy: Holding,
    place: usize,
    sells: &[Holding],
) -> usize
    requires { count + length (pairs_with buy place 0 sells.now) ≤ length pairs.old }
    ensures within { result ≤ length pairs.new }
    ensures count { result ≡ count + length (pairs_with buy place 0 sells.now) }
    ensures after { take result pairs.new ≡ take count pairs.old ++ pairs_with buy place 0 sells.now }
{
    let mut listed = count;
    for (j, sell) in sells.iter().enumerate() {
        if sell.left == 0 {
            continue;
        }
        let pair = Pair {
            buy: buy.order,
            sell: sell.order,
        };
        pairs[listed] = LivePair {
            pair,
            buy: place,
            sell: j,
        };
        listed += 1;
    }
    listed
}
