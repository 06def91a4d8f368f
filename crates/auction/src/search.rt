// The search for the best open price. It tries few prices whatever the grid: the open prices next to the reference and next
// to the price of each order.
ghost use Rattle.std.specs.Prelude.{◌≡◌, ◌+◌, ◌<◌, ◌≤◌, ◌++◌};
ghost use Rattle.arrayvec.specs.ArrayVec.{array_vec_len};
ghost use Rattle.grid.specs.Prices.{least_from};
ghost use Rattle.reference.specs.References.{twice};
ghost use Rattle.auction.specs.Best.{Strikes, best_price};
ghost use Rattle.auction.specs.Candidates.{cut, point_of, around, candidates};
ghost use Rattle.auction.specs.Laws.{TradesIfAny, OrderFree};
ghost use Rattle.auction.specs.Orders.{listed};
ghost use Rattle.auction.specs.Totals.{point};

use crate::found::FoundOrders;
use crate::totals::{FourTotals, sum_at};
use arrayvec::ArrayVec;
use grid::PriceSet;
use orders::Side;
use orders::found::FoundOrder;
use orders::table::MOST_ORDERS;
use ranking::first;
use ranking::points::{ClosingPrice, PricePoint};
use reference::Reference;
use threshold::distance;

// Two for each of 128 orders, and two for the reference.
const MOST_CANDIDATES: usize = 2 * MOST_ORDERS + 2;

type Points = ArrayVec<PricePoint, MOST_CANDIDATES>;

// The reference, and the orders that a call finds.
#[derive(Clone, Copy)]
pub struct Auction<'o> {
    pub reference: Reference,
    pub orders: &'o FoundOrders,
}

// The order trades at the prices up to its cut, or at those above it.
fn cut_of(order: &FoundOrder) -> u32
    ensures { result ≡ cut order.now }
{
    match order.side {
        Side::Buy => order.standing,
        Side::Sell => order.standing.saturating_sub(1),
    }
}

// The least open price above a cut, and 0 where there is none, as the grid answers it.
fn least_above<S: PriceSet>(prices: &S, cut: u32) -> u32
    ensures { result ≡ least_from (S.holds prices.now) (cut + 1) }
{
    match cut.checked_add(1) {
        Some(from) => prices.at_or_above(from),
        None => 0,
    }
}

impl Auction<'_> {
    // A price with what would trade at it.
    pub fn price_point(&self, price: u32) -> PricePoint
        ensures { result ≡ point (twice self.now.reference) (listed self.now.orders.now) price }
    {
        let FourTotals {
            all: (buys, sells),
            closing: (closing_buys, closing_sells),
        } = sum_at(self.orders, price);
        PricePoint {
            price,
            volume: buys.min(sells),
            imbalance: closing_buys.abs_diff(closing_sells),
            distance: distance(self.reference, price),
        }
    }

    // Lists the point of a price; 0 is no price, as the grid answers it.
    fn add_point(&self, points: &mut Points, price: u32)
        requires { array_vec_len points.old < 258 }
        ensures { points.new.items ≡ points.old.items ++ point_of (twice self.now.reference) (listed self.now.orders.now) price }
    {
        if price != 0 {
            points.push(self.price_point(price));
        }
    }

    // Lists the nearest open prices on both sides of a cut.
    fn add_around<S: PriceSet>(&self, points: &mut Points, prices: &S, cut: u32)
        requires { array_vec_len points.old + 2 ≤ 258 }
        ensures { points.new.items ≡ points.old.items ++ around (S.holds prices.now) (twice self.now.reference) (listed self.now.orders.now) cut }
    {
        self.add_point(points, prices.at_or_below(cut));
        self.add_point(points, least_above(prices, cut));
    }

    fn candidates<S: PriceSet>(&self, prices: &S) -> Points
        ensures { result.items ≡ candidates (S.holds prices.now) (twice self.now.reference) (listed self.now.orders.now) }
    {
        let mut points = Points::new();
        self.add_around(&mut points, prices, self.reference.rounded_down());
        for order in self.orders.as_slice() {
            self.add_around(&mut points, prices, cut_of(order));
        }
        points
    }

    // The best open price with what would trade at it, and none only where no price is open.
    pub fn best_price<S: PriceSet>(&self, prices: &S) -> Option<PricePoint>
        ensures value { result ≡ best_price (S.holds prices.now) (twice self.now.reference) (listed self.now.orders.now) }
        ensures meaning { Strikes (S.holds prices.now) (twice self.now.reference) (listed self.now.orders.now) result }
        ensures trades { TradesIfAny (S.holds prices.now) (listed self.now.orders.now) result }
        ensures order_free { OrderFree (S.holds prices.now) (twice self.now.reference) (listed self.now.orders.now) result }
    {
        let points = self.candidates(prices);
        let tried = points.as_slice();
        first(&ClosingPrice, tried).map(|i| tried[i])
    }
}
