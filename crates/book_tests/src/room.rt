// Places for orders, and entry numbers: both can be used up.
use crate::asking::{by_phase, in_turn};
use crate::samples::{VENUE, amend, busy_book, cancel, empty_book, enter, limit, take};
use book::Book;
use orders::Side;
use std::test::Fail;

fn book_of(orders: u16) -> Result<Book, Fail> {
    let mut book = empty_book()?;
    for _ in 0..orders {
        book.enter(&VENUE, limit(Side::Buy, 100_000, 100))?;
    }
    Ok(book)
}

#[test]
fn the_book_has_places_for_128_orders(rt: HostRuntime) -> Result<(), Fail> {
    let order = enter(limit(Side::Buy, 100_000, 1));
    by_phase(&rt, &book_of(127)?, order, [Ok(128); 4])?;
    by_phase(&rt, &book_of(128)?, order, [Err(3); 4])
}

#[test]
fn a_cancelled_order_keeps_its_place(rt: HostRuntime) -> Result<(), Fail> {
    let mut book = book_of(128)?;
    in_turn(
        &rt,
        &VENUE,
        &mut book,
        &[
            (cancel(128), Ok(100)),
            (enter(limit(Side::Buy, 100_000, 1)), Err(3)),
            (cancel(128), Err(12)),
            (amend(127, 100_100), Ok(129)),
        ],
    )
}

#[test]
fn there_are_1_000_000_entry_numbers(rt: HostRuntime) -> Result<(), Fail> {
    let mut book = busy_book()?;
    let order = enter(limit(Side::Buy, 100_000, 1));
    book.entries = 999_999;
    by_phase(&rt, &book, order, [Ok(8); 4])?;
    let said = [Ok(1_000_000), Ok(1_000_000), Err(13), Err(13)];
    by_phase(&rt, &book, amend(3, 100_900), said)?;
    book.entries = 1_000_000;
    by_phase(&rt, &book, order, [Err(3); 4])?;
    by_phase(&rt, &book, amend(3, 100_900), [Err(3); 4])?;
    // cancels and takes need none
    by_phase(&rt, &book, cancel(4), [Ok(400), Ok(400), Ok(400), Err(13)])?;
    by_phase(&rt, &book, take(4, 1), [Ok(399), Ok(399), Ok(399), Err(13)])
}

#[test]
fn the_last_entry_number_is_given_once(rt: HostRuntime) -> Result<(), Fail> {
    let mut book = busy_book()?;
    book.entries = 999_998;
    in_turn(
        &rt,
        &VENUE,
        &mut book,
        &[
            (enter(limit(Side::Buy, 100_000, 1)), Ok(8)),
            (amend(8, 100_100), Ok(1_000_000)),
            (amend(8, 100_200), Err(3)),
            (enter(limit(Side::Buy, 100_000, 1)), Err(3)),
        ],
    )
}
