// Price points: a price and what would trade at it.
ghost use Rattle.std.specs.Prelude.{ℕ};
ghost use Rattle.ranking.specs.Points.{ahead};
ghost use Rattle.ranking.specs.Ahead.{ahead_ranks};

use super::Ranking;
use std::cmp::Reverse;

#[derive(Clone, Copy, Default)]
pub struct PricePoint {
    pub price: u32,
    pub volume: u64,
    // The volume of the closing imbalance.
    pub imbalance: u64,
    // Twice the distance from the reference.
    pub distance: u64,
}

// The closing price is the first price point by this order. Price points are named by their price.
#[derive(Clone, Copy)]
pub struct ClosingPrice;

impl Ranking for ClosingPrice {
    type Item = PricePoint;

    ghost Name = { ℕ };

    ghost name = { λ p. p.price };

    ghost before = { λ _. ahead };

    ghost ranks = { λ rule. ahead_ranks };

    fn precedes(&self, one: &PricePoint, other: &PricePoint) -> bool {
        let key = |point: &PricePoint| {
            (
                Reverse(point.volume),
                point.imbalance,
                point.distance,
                Reverse(point.price),
            )
        };
        key(one) < key(other)
    }
}
