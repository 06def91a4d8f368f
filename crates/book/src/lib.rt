// The book of a closing auction, and the calls that members and the exchange make on it.
#![tactic(auto)]

ghost use Rattle.std.specs.Prelude.{◌≡◌};
ghost use Rattle.book.specs.Calls.{opening};
ghost use Rattle.book.specs.Phases.{phase_of, is_closed};

use grid::Grid;
use orders::refusal::Refusal;
use orders::table::OrderTable;
use orders::{Phase, Side};
use priority::PairingRule;
use reference::Reference;

mod changing;
mod entering;
pub mod requests;
pub mod views;

// What every call is given beside the book: the prices that there are, and which pairs trade first.
#[derive(Clone, Copy)]
pub struct Venue<G, R> {
    pub grid: G,
    pub rule: R,
}

// The phase of the day, with what each phase knows. Its fields are plain: what remains is counted down and is no imbalance's
// volume, so neither `Imbalance` nor `References` would be all of an extension, nor `Outcome` all of a close.
#[derive(Clone, Copy, Debug, PartialEq, Eq)]
pub enum State {
    Entry,
    Imbalance,
    Freeze,
    Extension {
        reference: Reference,
        // The former reference, which the pegs follow.
        pegs: Reference,
        // The advertised imbalance, and what remains of it.
        side: Option<Side>,
        remains: u64,
    },
    Closed {
        price: u32,
        shares: u64,
        fills: usize,
        imbalance: u64,
    },
}

#[derive(Clone, Copy, Debug, PartialEq, Eq)]
pub struct Book {
    pub table: OrderTable,
    // Entry numbers used: each accepted entry or amendment takes the next.
    pub entries: u32,
    pub previous_close: u32,
    pub last_sale: Option<u32>,
    pub state: State,
}

// Whether a price is on the grid.
fn is_on_grid<G: Grid>(grid: &G, price: u32) -> bool
    ensures { result ≡ G.PriceSet.holds grid.now price }
{
    price != 0 && grid.at_or_above(price) == price
}

impl Book {
    // A book without orders, in the entry phase. Refused where the previous close is not on the grid.
    pub fn open<G: Grid, R: PairingRule>(
        venue: &Venue<G, R>,
        previous_close: u32,
    ) -> Result<Book, Refusal>
        ensures { result ≡ opening (G.PriceSet.holds venue.now.grid) previous_close }
    {
        if !is_on_grid(&venue.grid, previous_close) {
            return Err(Refusal::BadOpening);
        }
        Ok(Book {
            table: OrderTable::new(),
            entries: 0,
            previous_close,
            last_sale: None,
            state: State::Entry,
        })
    }

    pub fn phase(&self) -> Phase
        ensures { result ≡ phase_of self.now.state }
    {
        match self.state {
            State::Entry => Phase::Entry,
            State::Imbalance => Phase::Imbalance,
            State::Freeze => Phase::Freeze,
            State::Extension { .. } => Phase::Extension,
            State::Closed { .. } => Phase::Closed,
        }
    }

    fn is_closed(&self) -> bool
        ensures { result ≡ is_closed (phase_of self.now.state) }
    {
        matches!(self.state, State::Closed { .. })
    }
}
