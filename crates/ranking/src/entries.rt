// Pairs of a buy and a sell, by their entry numbers.
ghost use Rattle.std.specs.Prelude.{ℕ};
ghost use Rattle.ranking.specs.Points.{earlier};
ghost use Rattle.std.proofs.Common.{rules};

use super::Ranking;

// Derived, the order is that of the fields: the earlier buy, then the earlier sell.
#[derive(Clone, Copy, Debug, PartialEq, Eq, PartialOrd, Ord)]
pub struct EntryPair {
    pub buy: u32,
    pub sell: u32,
}

// The earlier buy first, then the earlier sell. Pairs are named by their two entry numbers.
#[derive(Clone, Copy)]
pub struct TimePriority;

impl Ranking for TimePriority {
    type Item = EntryPair;

    ghost Name = { ℕ × ℕ };

    ghost name = { λ p. (p.buy, p.sell) };

    ghost before = { λ _. earlier };

    ghost ranks = { Prim.search rules };

    fn precedes(&self, one: &EntryPair, other: &EntryPair) -> bool {
        one < other
    }
}
