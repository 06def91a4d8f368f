// Sets of prices: which prices there are, and the nearest of them to a number.
#![tactic(auto)]

ghost use Rattle.std.specs.Prelude.{ℕ, Bool};
ghost use Rattle.grid.specs.Prices.{WithinRange, FirstPrice, LastPrice, AtOrAbove, AtOrBelow, cents, between};
ghost use Rattle.std.proofs.Common.{rules};

pub mod listed;

// A set of prices, each from 1 to 1,000,000,000. It may be empty.
pub trait PriceSet {
    ghost holds: { Self → ℕ → Bool };

    // The least price of the set at or above `n`, and 0 where there is none. It is no `Option`, since the rules of this project
    // lay the 0 down; bands, pegs and the search hand it on as it is.
    fn at_or_above(&self, n: u32) -> u32
        ensures { AtOrAbove (holds self.now) n result };

    // The greatest price of the set at or below `n`, and 0 where there is none.
    fn at_or_below(&self, n: u32) -> u32
        ensures { AtOrBelow (holds self.now) n result };

    ghost ranged: { (s : Self) → WithinRange (holds s) };
}

// The prices at which orders may stand: a set with a first and a last price.
pub trait Grid: PriceSet {
    fn first(&self) -> u32
        ensures { FirstPrice (Self.PriceSet.holds self.now) result };

    fn last(&self) -> u32
        ensures { LastPrice (Self.PriceSet.holds self.now) result };
}

const FIRST: u32 = 50;

// No price of any set is above this.
pub(crate) const HIGHEST: u32 = 1_000_000_000;

const LAST: u32 = HIGHEST;

// Half-cent steps below 0.50 dollars and cents from there.
#[derive(Clone, Copy)]
pub struct Cents;

impl PriceSet for Cents {
    ghost holds = { λ _. cents };

    ghost ranged = { Prim.search rules };

    fn at_or_above(&self, n: u32) -> u32 {
        match n {
            0 => FIRST,
            1..=4_950 => (n + 49) / 50 * 50,
            4_951..=LAST => (n + 99) / 100 * 100,
            _ => 0,
        }
    }

    fn at_or_below(&self, n: u32) -> u32 {
        match n {
            0..=4_999 => n / 50 * 50,
            5_000..=LAST => n / 100 * 100,
            _ => LAST,
        }
    }
}

impl Grid for Cents {
    fn first(&self) -> u32 {
        FIRST
    }

    fn last(&self) -> u32 {
        LAST
    }
}

// A set that is lent is the set.
impl<S: PriceSet> PriceSet for &S {
    ghost holds = { λ s. S.PriceSet.holds s.now };

    ghost ranged = { λ s. S.PriceSet.ranged s.now };

    fn at_or_above(&self, n: u32) -> u32 {
        (**self).at_or_above(n)
    }

    fn at_or_below(&self, n: u32) -> u32 {
        (**self).at_or_below(n)
    }
}

// The prices of a set from `low` to `high`. It answers 0 as its set does. Low and high stay two fields here, and two of a
// `PriceRange`: a struct for both would be no plainer, since the two types are made and read apart.
#[derive(Clone, Copy)]
pub struct Band<S> {
    pub prices: S,
    pub low: u32,
    pub high: u32,
}

impl<S: PriceSet> PriceSet for Band<S> {
    ghost holds = { λ b. between (S.PriceSet.holds b.prices) b.low b.high };

    ghost ranged = { Prim.search rules };

    fn at_or_above(&self, n: u32) -> u32 {
        let p = self.prices.at_or_above(n.max(self.low));
        if p > self.high { 0 } else { p }
    }

    fn at_or_below(&self, n: u32) -> u32 {
        let p = self.prices.at_or_below(n.min(self.high));
        if p < self.low { 0 } else { p }
    }
}
