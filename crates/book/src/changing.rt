// Amending, cancelling and taking an order, and advancing the phase.
ghost use Rattle.std.specs.Prelude.{◌≡◌};
ghost use Rattle.book.specs.Calls.{amend_answer, amend_book, cancel_answer, cancel_book, take_answer, take_book, advance_answer, advance_book};
ghost use Rattle.book.specs.Phases.{phase_of, amends, cancels, takes, tightens};

use crate::entering::MOST_ENTRIES;
use crate::{Book, State, Venue, is_on_grid};
use grid::Grid;
use orders::refusal::Refusal;
use orders::table::Order;
use orders::{Kind, Phase};
use priority::PairingRule;

// Each of the three calls on one order looks it up by `let .. else` and refuses by itself, as this project asks.
impl Book {
    fn amends(&self, kind: Kind) -> bool
        ensures { result ≡ amends (phase_of self.now.state) kind }
    {
        matches!(
            (self.state, kind),
            (State::Entry | State::Imbalance, Kind::Limit)
        )
    }

    fn cancels(&self, kind: Kind) -> bool
        ensures { result ≡ cancels (phase_of self.now.state) kind }
    {
        matches!(
            (self.state, kind),
            (State::Entry, _) | (State::Imbalance | State::Freeze, Kind::Displayed)
        )
    }

    fn takes(&self, kind: Kind) -> bool
        ensures { result ≡ takes (phase_of self.now.state) kind }
    {
        matches!(
            (self.state, kind),
            (
                State::Entry | State::Imbalance | State::Freeze,
                Kind::Displayed
            )
        )
    }

    // Whether an amendment must be more aggressive.
    fn tightens(&self) -> bool
        ensures { result ≡ tightens (phase_of self.now.state) }
    {
        matches!(self.state, State::Imbalance)
    }

    // Gives a limit order another limit and the next entry number, which is the answer.
    pub fn amend<G: Grid, R: PairingRule>(
        &mut self,
        venue: &Venue<G, R>,
        number: u16,
        limit: u32,
    ) -> Result<u32, Refusal>
        ensures answer { result ≡ amend_answer (G.PriceSet.holds venue.now.grid) self.old number limit }
        ensures after { self.new ≡ amend_book (G.PriceSet.holds venue.now.grid) self.old number limit }
    {
        if self.is_closed() {
            return Err(Refusal::BookClosed);
        }
        if self.entries >= MOST_ENTRIES {
            return Err(Refusal::NoRoom);
        }
        if !is_on_grid(&venue.grid, limit) {
            return Err(Refusal::OffGrid);
        }
        let Some(order) = self.table.get(number) else {
            return Err(Refusal::NoSuchOrder);
        };
        let 1.. = order.left else {
            return Err(Refusal::NothingLeft);
        };
        if !self.amends(order.kind) {
            return Err(Refusal::NotAllowed);
        }
        if self.tightens() && !order.side.more_aggressive(limit, order.limit) {
            return Err(Refusal::LessAggressive);
        }
        let entry = self.entries + 1;
        let _ = self.table.replace(
            number,
            Order {
                entry,
                limit,
                ..order
            },
        );
        self.entries = entry;
        Ok(entry)
    }

    // Cancels what is left of an order, and answers how many shares that was.
    pub fn cancel<G: Grid, R: PairingRule>(
        &mut self,
        _venue: &Venue<G, R>,
        number: u16,
    ) -> Result<u32, Refusal>
        ensures answer { result ≡ cancel_answer self.old number }
        ensures after { self.new ≡ cancel_book self.old number }
    {
        if self.is_closed() {
            return Err(Refusal::BookClosed);
        }
        let Some(order) = self.table.get(number) else {
            return Err(Refusal::NoSuchOrder);
        };
        let 1.. = order.left else {
            return Err(Refusal::NothingLeft);
        };
        if !self.cancels(order.kind) {
            return Err(Refusal::NotAllowed);
        }
        let _ = self.table.replace(number, Order { left: 0, ..order });
        Ok(order.left)
    }

    // Says that shares of a displayed order traded, at its limit. Answers what is left of it.
    pub fn take<G: Grid, R: PairingRule>(
        &mut self,
        _venue: &Venue<G, R>,
        number: u16,
        volume: u32,
    ) -> Result<u32, Refusal>
        ensures answer { result ≡ take_answer self.old number volume }
        ensures after { self.new ≡ take_book self.old number volume }
    {
        if self.is_closed() {
            return Err(Refusal::BookClosed);
        }
        let Some(order) = self.table.get(number) else {
            return Err(Refusal::NoSuchOrder);
        };
        let 1.. = order.left else {
            return Err(Refusal::NothingLeft);
        };
        if !self.takes(order.kind) {
            return Err(Refusal::NotAllowed);
        }
        if volume == 0 || volume > order.left {
            return Err(Refusal::BadTake);
        }
        let left = order.left - volume;
        let _ = self.table.replace(number, Order { left, ..order });
        self.last_sale = Some(order.limit);
        Ok(left)
    }

    // Moves on to the imbalance phase and then to the freeze. Answers the new phase.
    pub fn advance<G: Grid, R: PairingRule>(
        &mut self,
        _venue: &Venue<G, R>,
    ) -> Result<Phase, Refusal>
        ensures answer { result ≡ advance_answer self.old }
        ensures after { self.new ≡ advance_book self.old }
    {
        match &mut self.state {
            state @ State::Entry => {
                *state = State::Imbalance;
                Ok(Phase::Imbalance)
            }
            state @ State::Imbalance => {
                *state = State::Freeze;
                Ok(Phase::Freeze)
            }
            State::Freeze | State::Extension { .. } => Err(Refusal::WrongPhase),
            State::Closed { .. } => Err(Refusal::BookClosed),
        }
    }
}
