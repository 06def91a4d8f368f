// Opening a book.
use crate::asking::{Said, book_fields};
use crate::samples::VENUE;
use book::Book;
use std::test::Fail;

fn open(close: u32) -> Said {
    match Book::open(&VENUE, close) {
        Ok(_) => Ok(0),
        Err(refusal) => Err(refusal.number()),
    }
}

#[test]
fn the_previous_close_is_on_the_grid(rt: HostRuntime) {
    const CASES: [(u32, Said); 10] = [
        (0, Err(1)),
        (49, Err(1)),
        (50, Ok(0)),
        (4_950, Ok(0)),
        (4_951, Err(1)),
        (5_000, Ok(0)),
        (5_050, Err(1)),
        (1_000_000_000, Ok(0)),
        (1_000_000_100, Err(1)),
        (u32::MAX, Err(1)),
    ];
    for (close, said) in CASES {
        assert_eq!(rt; open(close), said);
    }
}

#[test]
fn an_opened_book_is_empty_and_in_the_entry_phase(rt: HostRuntime) -> Result<(), Fail> {
    let book = Book::open(&VENUE, 100_000)?;
    assert_eq!(rt; book_fields(&book), [0, 0, 100_000, 0]);
    assert_eq!(rt; book.phase().number(), 0);
    Ok(())
}
