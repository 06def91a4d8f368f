// The prices that are open to a call: all prices of the grid, or those of the fail band.
ghost use Rattle.reference.specs.References.{twice};
ghost use Rattle.grid.specs.Prices.{between};
ghost use Rattle.auction.specs.Opening.{OpenInFailBand};

use grid::{Band, PriceSet};
use reference::Reference;
use threshold::fail_band;

// The prices of a set that lie in the fail band. Set and reference come as two: one is the venue's, the other the book's.
pub fn in_fail_band<S: PriceSet + Copy>(prices: &S, reference: Reference) -> Band<S>
    ensures { OpenInFailBand (S.holds prices.now) (twice reference) (between (S.holds result.prices) result.low result.high) }
{
    let range = fail_band(reference);
    Band {
        prices: *prices,
        low: range.low,
        high: range.high,
    }
}
