// A day of requests on one book.
#![tactic(auto)]

ghost use Rattle.std.specs.Result.{MatchResult};
ghost use Rattle.day.specs.Law.{Ran, Unopened};

use book::requests::{Answer, Request};
use book::{Book, Venue};
use grid::Grid;
use orders::refusal::Refusal;
use priority::PairingRule;

// A request, and the book's answer to it.
#[derive(Clone, Copy)]
pub struct Turn {
    pub request: Request,
    pub answer: Result<Answer, Refusal>,
}

// Opens a book and makes the requests in turn, each of which gets its answer. Answers the book after the last.
pub fn run<G: Grid, R: PairingRule>(
    venue: &Venue<G, R>,
    previous_close: u32,
    turns: &mut [Turn],
) -> Result<Book, Refusal>
    ensures { MatchResult result (Ran (G.PriceSet.holds venue.now.grid) previous_close turns.old turns.new) (Unopened (G.PriceSet.holds venue.now.grid) previous_close turns.old turns.new) }
{
    let mut book = Book::open(venue, previous_close)?;
    for turn in turns {
        turn.answer = book.request(venue, turn.request);
    }
    Ok(book)
}
