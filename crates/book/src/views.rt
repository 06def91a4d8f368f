// What the book says of itself.
ghost use Rattle.std.specs.Prelude.{◌≡◌};
ghost use Rattle.auction.specs.Orders.{listed as all_found};
ghost use Rattle.orders.specs.Tables.{listed};
ghost use Rattle.reference.specs.References.{twice};
ghost use Rattle.book.specs.Views.{book_references, found_orders, book_totals, book_notice, outcome};

use crate::{Book, State, Venue};
use auction::found::FoundOrders;
use auction::search::Auction;
use auction::totals::totals;
use grid::Grid;
use notice::Notice;
use orders::Phase;
use orders::found::FoundOrder;
use orders::refusal::Refusal;
use peg::standing_price;
use priority::PairingRule;
use reference::Reference;

// The reference in force, and the one that the pegs follow.
#[derive(Clone, Copy)]
pub struct References {
    pub current: Reference,
    pub pegs: Reference,
}

// The phase, and once the book is closed its price, the shares traded, the number of fills and the closing imbalance
// that the call found at that price. No `Option` of these four: the project asks that they are 0 until then.
#[derive(Clone, Copy, Debug, PartialEq, Eq)]
pub struct Outcome {
    pub phase: Phase,
    pub price: u32,
    pub shares: u64,
    pub fills: usize,
    pub imbalance: u64,
}

impl Book {
    // None once the book is closed.
    pub fn references(&self) -> Option<References>
        ensures { result ≡ book_references self.now }
    {
        match self.state {
            State::Entry | State::Imbalance | State::Freeze => {
                let current = Reference::of(
                    self.table.as_slice(),
                    self.last_sale,
                    self.previous_close,
                );
                Some(References {
                    current,
                    pegs: current,
                })
            }
            State::Extension {
                reference,
                pegs,
                ..
            } => Some(References {
                current: reference,
                pegs,
            }),
            State::Closed { .. } => None,
        }
    }

    // The orders as a call would find them.
    pub fn found<G: Grid, R: PairingRule>(
        &self,
        venue: &Venue<G, R>,
        pegs: Reference,
    ) -> FoundOrders
        ensures { all_found result ≡ found_orders (G.PriceSet.holds venue.now.grid) (twice pegs) (listed self.now.table) }
    {
        let mut found = FoundOrders::new();
        for order in self.table.as_slice() {
            let standing = standing_price(&venue.grid, pegs, order);
            let _ = found.push(FoundOrder::new(order, standing));
        }
        found
    }

    // Shares to buy and shares to sell at a price.
    pub fn totals<G: Grid, R: PairingRule>(
        &self,
        venue: &Venue<G, R>,
        price: u32,
    ) -> Result<(u64, u64), Refusal>
        ensures { result ≡ book_totals (G.PriceSet.holds venue.now.grid) self.now price }
    {
        let references = self.references().ok_or(Refusal::BookClosed)?;
        Ok(totals(&self.found(venue, references.pegs), price))
    }

    // The imbalance notice: what members size their offsetting orders by.
    pub fn notice<G: Grid, R: PairingRule>(&self, venue: &Venue<G, R>) -> Result<Notice, Refusal>
        ensures { result ≡ book_notice (G.PriceSet.holds venue.now.grid) self.now }
    {
        let references = self.references().ok_or(Refusal::BookClosed)?;
        let auction = Auction {
            reference: references.current,
            orders: &self.found(venue, references.pegs),
        };
        Ok(Notice::of(&auction))
    }

    pub fn result(&self) -> Outcome
        ensures { result ≡ outcome self.now.state }
    {
        match self.state {
            State::Closed {
                price,
                shares,
                fills,
                imbalance,
            } => Outcome {
                phase: Phase::Closed,
                price,
                shares,
                fills,
                imbalance,
            },
            _ => Outcome {
                phase: self.phase(),
                price: 0,
                shares: 0,
                fills: 0,
                imbalance: 0,
            },
        }
    }
}
