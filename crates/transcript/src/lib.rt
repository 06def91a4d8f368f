// What happened to each message of an order file, and the imbalance notice then.
#![tactic(auto)]

ghost use Rattle.std.specs.Prelude.{◌≡◌, map, IfOk, string_bytes};
ghost use Rattle.grid.specs.Prices.{cents};
ghost use Rattle.day.specs.Law.{given_answers};
ghost use Rattle.orderfile.specs.Bodies.{told};
ghost use Rattle.transcript.specs.Lines.{paired};
ghost use Rattle.transcript.specs.Texts.{refused_text, ran_text, day_text, file_text};

use crate::lines::Lines;
use crate::summary::Summary;
use crate::turns::turns;
use book::{Book, Venue};
use day::Turn;
use grid::{Cents, Grid};
use orderfile::faults::FileFault;
use orderfile::file::{OrderFile, Rule};
use orderfile::message::Message;
use priority::{ByPrice, BySteps, PairingRule};
use report::refused;
use std::alloc::{AllocError, Global};

pub mod lines;
pub mod summary;
pub mod turns;

// The answers to the messages, and the book after the last.
fn ran<G: Grid, R: PairingRule>(
    heap: Global,
    venue: &Venue<G, R>,
    messages: &[Result<Message<'_>, FileFault>],
    turns: &[Turn],
    book: &Book,
) -> Result<String, AllocError>
    ensures { IfOk result (λ s. string_bytes s ≡ ran_text (G.PriceSet.holds venue.now.grid) (paired (map told messages.now) (given_answers turns.now)) book.now) }
{
    let lines = Lines { messages, turns };
    let summary = Summary { venue, book };
    format!(in heap; "{lines}\n{summary}")
}

// Opens a book and makes the requests of the messages up to the first closing call.
pub fn describe_day<G: Grid, R: PairingRule>(
    heap: Global,
    venue: &Venue<G, R>,
    previous_close: u32,
    messages: &[Result<Message<'_>, FileFault>],
) -> Result<String, AllocError>
    ensures { IfOk result (λ s. string_bytes s ≡ day_text (G.PriceSet.holds venue.now.grid) previous_close (map told messages.now)) }
{
    let mut turns = turns(heap, messages)?;
    match day::run(venue, previous_close, turns.as_mut_slice()) {
        Ok(book) => ran(heap, venue, messages, turns.as_slice(), &book),
        Err(refusal) => refused(heap, refusal.number()),
    }
}

// On the grid of cents, under the rule of the head. Two arms, and no `dyn` rule: each calls one generic function at its type.
fn accepted(heap: Global, file: &OrderFile<'_>) -> Result<String, AllocError>
    ensures { IfOk result (λ s. string_bytes s ≡ day_text cents file.now.head.previous_close (map told file.now.messages.items)) }
{
    let grid = Cents;
    let close = file.head.previous_close;
    let messages = file.messages.as_slice();
    match file.head.rule {
        Rule::V => {
            let rule = BySteps;
            describe_day(heap, &Venue { grid, rule }, close, messages)
        }
        Rule::P => {
            let rule = ByPrice;
            describe_day(heap, &Venue { grid, rule }, close, messages)
        }
    }
}

// The text of the file with these bytes: what happened to each message up to the first closing call, and the imbalance
// notice then, or the number with which the file or the opening of the book is refused.
pub fn describe(heap: Global, file: &[u8]) -> Result<String, AllocError>
    ensures { IfOk result (λ s. string_bytes s ≡ file_text file.now) }
{
    match OrderFile::read(heap, file) {
        Ok(file) => accepted(heap, &file),
        Err(fault) => match fault.number() {
            Some(number) => refused(heap, number),
            None => Err(AllocError),
        },
    }
}
