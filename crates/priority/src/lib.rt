// Pairing rules: which pair of a buy and a sell trades first.
#![tactic(auto)]

ghost use Rattle.std.specs.Prelude.{◌≡◌, ℕ, Bool};
ghost use Rattle.priority.specs.declared.Pair.{Pair};
ghost use Rattle.priority.specs.Pairs.{pair_name, entries, same_broker};
ghost use Rattle.priority.specs.Rules.{step, bid_key, offer_key, before_by_steps, before_by_price};
ghost use Rattle.ranking.specs.Ranks.{Ranks};
ghost use Rattle.priority.specs.Lawful.{steps_rank, price_rank, ranked};

use orders::found::FoundOrder;
use ranking::Ranking;
use ranking::entries::EntryPair;
use std::cmp::Reverse;
use std::marker::PhantomData;

// A buy and a sell, each as the call found it.
#[derive(Clone, Copy, Default)]
pub struct Pair {
    pub buy: FoundOrder,
    pub sell: FoundOrder,
}

// A pairing rule is a ranking of pairs, which are named by their two entry numbers.
pub trait PairingRule {
    ghost ahead: { Self → Pair → Pair → Bool };

    fn is_before(&self, one: &Pair, other: &Pair) -> bool
        ensures { result ≡ ahead self.now one.now other.now };

    ghost pairs: { (rule : Self) → Ranks pair_name (ahead rule) };
}

// Rule V: six steps, by whether the orders are market orders and of the same broker; then time.
#[derive(Clone, Copy)]
pub struct BySteps;

// Rule P: the better prices, then the same broker, then time.
#[derive(Clone, Copy)]
pub struct ByPrice;

// What a pairing rule can rank: it has a pair in it.
pub trait HasPair {
    ghost pair_in: { Self → Pair };

    fn pair(&self) -> &Pair
        ensures { result.now ≡ pair_in self.now };
}

// A pairing rule as a ranking of whatever has a pair in it.
#[derive(Clone, Copy)]
pub struct Ranked<R, T> {
    pub rule: R,
    pub of: PhantomData<T>,
}

impl Pair {
    // The two entry numbers, which are in order of time.
    fn entries(&self) -> EntryPair
        ensures { result ≡ entries self.now }
    {
        EntryPair {
            buy: self.buy.entry,
            sell: self.sell.entry,
        }
    }

    // Equal brokers, and not 0.
    fn has_same_broker(&self) -> bool
        ensures { result ≡ same_broker self.now }
    {
        self.buy.broker == self.sell.broker && self.buy.broker != 0
    }

    fn step(&self) -> u8
        ensures { result ≡ step self.now }
    {
        let first = match (self.buy.kind.is_market(), self.sell.kind.is_market()) {
            (true, true) => 1,
            (true, false) | (false, true) => 3,
            (false, false) => 5,
        };
        if self.has_same_broker() {
            first
        } else {
            first + 1
        }
    }

    // Market orders bid the most.
    fn bid(&self) -> u64
        ensures { result ≡ bid_key self.now.buy }
    {
        if self.buy.kind.is_market() {
            1 << 32
        } else {
            u64::from(self.buy.standing)
        }
    }

    // Market orders ask the least.
    fn offer(&self) -> u64
        ensures { result ≡ offer_key self.now.sell }
    {
        if self.sell.kind.is_market() {
            0
        } else {
            u64::from(self.sell.standing) + 1
        }
    }
}

impl HasPair for Pair {
    ghost pair_in = { λ pair. pair };

    fn pair(&self) -> &Pair {
        self
    }
}

impl PairingRule for BySteps {
    ghost ahead = { λ _. before_by_steps };

    ghost pairs = { λ rule. steps_rank };

    fn is_before(&self, one: &Pair, other: &Pair) -> bool {
        let key = |pair: &Pair| (pair.step(), pair.entries());
        key(one) < key(other)
    }
}

impl PairingRule for ByPrice {
    ghost ahead = { λ _. before_by_price };

    ghost pairs = { λ rule. price_rank };

    fn is_before(&self, one: &Pair, other: &Pair) -> bool {
        let key = |pair: &Pair| {
            (
                Reverse(pair.bid()),
                pair.offer(),
                Reverse(pair.has_same_broker()),
                pair.entries(),
            )
        };
        key(one) < key(other)
    }
}

impl<R: PairingRule, T: HasPair> Ranking for Ranked<R, T> {
    type Item = T;

    ghost Name = { ℕ × ℕ };

    ghost name = { λ item. pair_name (T.pair_in item) };

    ghost before = { λ r one other. R.PairingRule.ahead r.rule (T.pair_in one) (T.pair_in other) };

    ghost ranks = { λ r. ranked T.pair_in (R.PairingRule.pairs r.rule) };

    fn precedes(&self, one: &T, other: &T) -> bool {
        self.rule.is_before(one.pair(), other.pair())
    }
}

#[cfg(test)]
mod tests;
