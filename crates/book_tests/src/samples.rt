// The entries, requests and books that the examples begin with. They stand in each crate of tests: a crate of helpers would
// have public functions that promise nothing.
use book::requests::Request;
use book::{Book, State, Venue};
use grid::Cents;
use orders::{Entry, Kind, PegFlag, Phase, Side};
use priority::BySteps;
use reference::Reference;
use std::test::Fail;

pub const VENUE: Venue<Cents, BySteps> = Venue {
    grid: Cents,
    rule: BySteps,
};

pub const OPEN_PHASES: [Phase; 4] = [
    Phase::Entry,
    Phase::Imbalance,
    Phase::Freeze,
    Phase::Extension,
];

fn entry(kind: Kind, side: Side, limit: u32, volume: u32) -> Entry {
    Entry {
        kind,
        side,
        flag: PegFlag::Pegged,
        broker: 0,
        limit,
        volume,
    }
}

pub fn market(side: Side, volume: u32) -> Entry {
    entry(Kind::Market, side, 0, volume)
}

pub fn limit(side: Side, limit: u32, volume: u32) -> Entry {
    entry(Kind::Limit, side, limit, volume)
}

pub fn displayed(side: Side, limit: u32, volume: u32) -> Entry {
    entry(Kind::Displayed, side, limit, volume)
}

pub fn enter(entry: Entry) -> Request {
    Request::Enter(entry)
}

pub fn amend(number: u16, limit: u32) -> Request {
    Request::Amend { number, limit }
}

pub fn cancel(number: u16) -> Request {
    Request::Cancel { number }
}

pub fn take(number: u16, volume: u32) -> Request {
    Request::Take { number, volume }
}

// An extension with a reference of 10.00 dollars.
pub fn extension(side: Option<Side>, remains: u64) -> State {
    let reference = Reference::of_sales(None, 100_000);
    State::Extension {
        reference,
        pegs: reference,
        side,
        remains,
    }
}

fn state_in(phase: Phase) -> State {
    match phase {
        Phase::Entry => State::Entry,
        Phase::Imbalance => State::Imbalance,
        Phase::Freeze => State::Freeze,
        Phase::Extension => extension(Some(Side::Sell), 300),
        Phase::Closed => State::Closed {
            price: 100_100,
            shares: 700,
            fills: 3,
            imbalance: 50,
        },
    }
}

// The book in a phase. An extension advertises 300 shares to sell.
pub fn in_phase(book: &Book, phase: Phase) -> Book {
    Book {
        state: state_in(phase),
        ..*book
    }
}

// A previous close of 10.00 dollars, and no orders.
pub fn empty_book() -> Result<Book, Fail> {
    Ok(Book::open(&VENUE, 100_000)?)
}

// A previous close of 10.00 dollars, and these orders.
pub fn book_with(entries: &[Entry]) -> Result<Book, Fail> {
    let mut book = empty_book()?;
    for entry in entries {
        book.enter(&VENUE, *entry)?;
    }
    Ok(book)
}

// Seven orders and eight entry numbers: a market order, two limit orders, a displayed buy at 9.99 and a sell at 10.02, a
// cancelled displayed sell, and a displayed buy that was taken whole.
pub fn busy_book() -> Result<Book, Fail> {
    let mut book = book_with(&[
        market(Side::Buy, 100),
        limit(Side::Buy, 99_000, 200),
        limit(Side::Sell, 101_100, 300),
        displayed(Side::Buy, 99_900, 400),
        displayed(Side::Sell, 100_200, 500),
        displayed(Side::Sell, 100_100, 600),
        displayed(Side::Buy, 100_000, 700),
    ])?;
    book.amend(&VENUE, 3, 101_000)?;
    book.cancel(&VENUE, 6)?;
    book.take(&VENUE, 7, 700)?;
    Ok(book)
}
