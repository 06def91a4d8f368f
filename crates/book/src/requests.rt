// Requests as values, for lists of them.
ghost use Rattle.std.specs.Prelude.{◌≡◌};
ghost use Rattle.book.specs.Requests.{answer_number, request_answer, request_book};

use crate::{Book, Venue};
use grid::Grid;
use orders::refusal::Refusal;
use orders::{Entry, Phase};
use priority::PairingRule;

#[derive(Clone, Copy)]
pub enum Request {
    Enter(Entry),
    Amend { number: u16, limit: u32 },
    Cancel { number: u16 },
    Take { number: u16, volume: u32 },
    Advance,
}

// What the book answers to a request that it accepts.
#[derive(Clone, Copy, Debug, PartialEq, Eq)]
pub enum Answer {
    // The order's number.
    Entered(u16),
    // The new entry number.
    Amended(u32),
    // The shares cancelled.
    Cancelled(u32),
    // The shares left after a take.
    Left(u32),
    // The new phase.
    Moved(Phase),
}

impl Answer {
    // The number that stands for the answer. No `From`: `u32::from(answer)` would not say which number it gives.
    pub fn number(self) -> u32
        ensures { result ≡ answer_number self }
    {
        match self {
            Answer::Entered(number) => u32::from(number),
            Answer::Amended(entry) => entry,
            Answer::Cancelled(shares) => shares,
            Answer::Left(shares) => shares,
            Answer::Moved(phase) => u32::from(phase.number()),
        }
    }
}

impl Book {
    pub fn request<G: Grid, R: PairingRule>(
        &mut self,
        venue: &Venue<G, R>,
        request: Request,
    ) -> Result<Answer, Refusal>
        ensures answer { result ≡ request_answer (G.PriceSet.holds venue.now.grid) self.old request }
        ensures after { self.new ≡ request_book (G.PriceSet.holds venue.now.grid) self.old request }
    {
        match request {
            Request::Enter(entry) => self.enter(venue, entry).map(Answer::Entered),
            Request::Amend { number, limit } => {
                self.amend(venue, number, limit).map(Answer::Amended)
            }
            Request::Cancel { number } => self.cancel(venue, number).map(Answer::Cancelled),
            Request::Take { number, volume } => self.take(venue, number, volume).map(Answer::Left),
            Request::Advance => self.advance(venue).map(Answer::Moved),
        }
    }
}
