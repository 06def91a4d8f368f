// How a listed grid is made, and what it answers.
ghost use Rattle.std.specs.Prelude.{◌≡◌, true, false, MatchResult};
ghost use Rattle.grid.specs.Lists.{rising, list_of_prices};
ghost use Rattle.grid.specs.Listing.{listed, grid_number};
ghost use Rattle.grid.specs.Prices.{among};
ghost use Rattle.grid.specs.Rising.{passed};
ghost use Rattle.grid.specs.Rising;

use super::{Listed, NotAGrid};
use crate::{Grid, HIGHEST, PriceSet};
use fixed_list::FixedList;

impl NotAGrid {
    // A method, as every refusal has one: `u8::from(fault)` would not say that it is the number.
    pub fn number(self) -> u8
        ensures { result ≡ grid_number self }
    {
        1
    }
}

// Each price is above the one before it, the first above 0, and none is above the highest.
fn is_rising(prices: &[u32]) -> bool
    ensures { result ≡ rising 0 prices.now }
{
    let mut below = 0;
    for p in prices {
        if *p <= below || *p > HIGHEST {
            return false;
        }
        below = *p;
    }
    true
}

impl Listed {
    pub fn new(given: &[u32]) -> Result<Listed, NotAGrid>
        ensures { MatchResult result (λ g. (list_of_prices given.now ≡ true) × (listed g ≡ given.now)) (λ _. list_of_prices given.now ≡ false) }
    {
        if given.is_empty() || !is_rising(given) {
            return Err(NotAGrid);
        }
        let prices = FixedList::of(given, 0).ok_or(NotAGrid)?;
        Ok(Listed { prices })
    }

    pub fn prices(&self) -> &[u32]
        ensures { result.now ≡ listed self.now }
    {
        self.prices.as_slice()
    }
}

impl PriceSet for Listed {
    ghost holds = { λ g. among (listed g) };

    ghost ranged = { λ g p h. Rising.ranged 0 (listed g) (passed (listed g) g.sound).up p h };

    fn at_or_above(&self, n: u32) -> u32 {
        let prices = self.prices();
        if n <= prices[0] {
            return prices[0];
        }
        let below = prices.partition_point(|p| *p < n);
        prices.get(below).copied().unwrap_or(0)
    }

    fn at_or_below(&self, n: u32) -> u32 {
        let prices = self.prices();
        if n < prices[0] {
            return 0;
        }
        match prices.partition_point(|p| *p <= n).checked_sub(1) {
            Some(last) => prices[last],
            None => 0,
        }
    }
}

impl Grid for Listed {
    fn first(&self) -> u32 {
        self.prices()[0]
    }

    fn last(&self) -> u32 {
        let prices = self.prices();
        prices[prices.len() - 1]
    }
}
