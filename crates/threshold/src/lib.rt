// Thresholds: which prices are close enough to the reference to be accepted, and which are in the fail band.
#![tactic(auto)]

ghost use Rattle.std.specs.Prelude.{◌≡◌, true, ◌-◌, ◌^◌, ◌<◌, min};
ghost use Rattle.reference.specs.References.{twice};
ghost use Rattle.threshold.specs.Percents.{percent, fail_percent, distance, within, is_accepted, in_fail_band, lowest, highest, SpansFailBand};

use reference::Reference;

// Twice a reference of 1.00 dollar.
const DOLLAR: u64 = 20_000;

// The prices from `low` to `high`. A band of a grid has these two fields too; one struct for both would be no plainer, since
// thresholds and grids rest on nothing of one another.
#[derive(Clone, Copy, Debug, PartialEq, Eq)]
pub struct PriceRange {
    pub low: u32,
    pub high: u32,
}

// How many percent of the reference a price may lie from it.
#[derive(Clone, Copy)]
struct Percentages {
    below_a_dollar: u8,
    from_a_dollar: u8,
}

const ACCEPTED: Percentages = Percentages {
    below_a_dollar: 5,
    from_a_dollar: 3,
};

const FAIL_BAND: Percentages = Percentages {
    below_a_dollar: 15,
    from_a_dollar: 10,
};

impl Percentages {
    fn percent(self, reference: Reference) -> u8
        ensures { result ≡ percent self.below_a_dollar self.from_a_dollar (twice reference) }
    {
        if reference.doubled() < DOLLAR {
            self.below_a_dollar
        } else {
            self.from_a_dollar
        }
    }
}

// Twice the distance between a price and the reference. These two stay two parameters here and below: a price is asked of a
// reference, and a struct of both would hold no fact.
pub fn distance(reference: Reference, price: u32) -> u64
    ensures value { result ≡ distance (twice reference) price }
    ensures bound { result < 2 ^ 34 }
{
    (2 * u64::from(price)).abs_diff(reference.doubled())
}

fn within(percent: u8, reference: Reference, price: u32) -> bool
    ensures { result ≡ within percent (twice reference) price }
{
    distance(reference, price) * 100 <= u64::from(percent) * reference.doubled()
}

// Whether the book may close at this price.
pub fn accepted(reference: Reference, price: u32) -> bool
    ensures value { result ≡ is_accepted (twice reference) price }
    ensures inside { result ≡ true → in_fail_band (twice reference) price ≡ true }
{
    within(ACCEPTED.percent(reference), reference, price)
}

// Whether a limit at this price is close enough to be entered in the extension.
pub fn in_fail_band(reference: Reference, price: u32) -> bool
    ensures { result ≡ in_fail_band (twice reference) price }
{
    within(FAIL_BAND.percent(reference), reference, price)
}

// The whole prices in the fail band.
pub fn fail_band(reference: Reference) -> PriceRange
    ensures value { result ≡ record { low = lowest (fail_percent (twice reference)) (twice reference); high = min (highest (fail_percent (twice reference)) (twice reference)) (2 ^ 32 - 1) } }
    ensures spans { SpansFailBand (twice reference) result.low result.high }
{
    let doubled = reference.doubled();
    let percent = u64::from(FAIL_BAND.percent(reference));
    let low = ((100 - percent) * doubled + 199) / 200;
    let high = ((100 + percent) * doubled / 200).min(u64::from(u32::MAX));
    PriceRange {
        low: low as u32,
        high: high as u32,
    }
}
