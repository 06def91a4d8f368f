// What the book says to a request, and that it changes nothing where it refuses.
use crate::samples::{OPEN_PHASES, VENUE, in_phase};
use book::requests::Request;
use book::{Book, Venue};
use grid::Grid;
use orders::Phase;
use priority::PairingRule;
use std::process::Abort;
use std::test::Fail;

// The number of an answer, or of a refusal.
pub type Said = Result<u32, u8>;

fn ask<G: Grid, R: PairingRule>(venue: &Venue<G, R>, book: &mut Book, request: Request) -> Said {
    match book.request(venue, request) {
        Ok(answer) => Ok(answer.number()),
        Err(refusal) => Err(refusal.number()),
    }
}

// How many orders and entry numbers there are, the previous close and the last sale, 0 where there was none.
pub fn book_fields(book: &Book) -> [u64; 4] {
    [
        book.table.orders.count as u64,
        u64::from(book.entries),
        u64::from(book.previous_close),
        u64::from(book.last_sale.unwrap_or(0)),
    ]
}

// The order's entry number, limit, volume and what is left of it.
pub fn order_is(rt: &impl Abort, book: &Book, number: u16, expected: [u32; 4]) -> Result<(), Fail> {
    let order = book.table.get(number).ok_or("no such order")?;
    assert_eq!(rt;
        [order.entry, order.limit, order.volume, order.left],
        expected
    );
    Ok(())
}

// The rows are a price with the shares to buy and to sell at it.
pub fn totals_are<G: Grid, R: PairingRule>(
    rt: &impl Abort,
    venue: &Venue<G, R>,
    book: &Book,
    rows: &[(u32, u64, u64)],
) -> Result<(), Fail> {
    for row in rows {
        let (price, buys, sells) = *row;
        assert_eq!(rt; book.totals(venue, price)?, (buys, sells), "{}", price);
    }
    Ok(())
}

// Asks, and sees to it that a refusal changes nothing. The place, of a row or a phase, is told where it fails.
pub fn says<G: Grid, R: PairingRule>(
    rt: &impl Abort,
    venue: &Venue<G, R>,
    book: &mut Book,
    request: Request,
    expected: Said,
    place: usize,
) -> Result<(), Fail> {
    let before = *book;
    let said = ask(venue, book, request);
    assert_eq!(rt; said, expected, "at {place}");
    match said {
        Ok(_) => Ok(()),
        Err(_) => {
            assert_eq!(rt; *book, before);
            Ok(())
        }
    }
}

// The requests are made one after the other.
pub fn in_turn<G: Grid, R: PairingRule>(
    rt: &impl Abort,
    venue: &Venue<G, R>,
    book: &mut Book,
    rows: &[(Request, Said)],
) -> Result<(), Fail> {
    for (place, row) in rows.iter().enumerate() {
        let (request, expected) = *row;
        says(rt, venue, book, request, expected, place)?;
    }
    Ok(())
}

// The request is made of the book in the entry phase, in the imbalance phase, in the freeze and in the extension. The closed
// book refuses every request with 2.
pub fn by_phase(
    rt: &impl Abort,
    book: &Book,
    request: Request,
    expected: [Said; 4],
) -> Result<(), Fail> {
    for (place, (phase, expected)) in OPEN_PHASES.iter().zip(&expected).enumerate() {
        let mut book = in_phase(book, *phase);
        says(rt, &VENUE, &mut book, request, *expected, place)?;
    }
    let mut book = in_phase(book, Phase::Closed);
    says(rt, &VENUE, &mut book, request, Err(2), 4)
}
