// Limit orders entered in the freeze stand at the peg, which the totals show.
use crate::asking::totals_are;
use crate::samples::{VENUE, book_with, displayed, limit};
use book::{Book, State};
use orders::Side;
use reference::Reference;
use std::test::Fail;

// A quote of 9.99 for 100 and 10.02 for 200.
fn quoted_book() -> Result<Book, Fail> {
    book_with(&[
        displayed(Side::Buy, 99_900, 100),
        displayed(Side::Sell, 100_200, 200),
    ])
}

// The midpoint is 10.005.
#[test]
fn a_limit_order_entered_in_the_freeze_stands_no_better_than_the_midpoint(
    rt: HostRuntime,
) -> Result<(), Fail> {
    let mut book = quoted_book()?;
    book.state = State::Freeze;
    book.enter(&VENUE, limit(Side::Buy, 101_000, 10))?;
    book.enter(&VENUE, limit(Side::Sell, 99_000, 20))?;
    totals_are(
        &rt,
        &VENUE,
        &book,
        &[
            (99_900, 110, 0),
            (100_000, 10, 20),
            (100_100, 10, 20),
            (100_200, 0, 220),
        ],
    )
}

#[test]
fn a_limit_order_entered_before_the_freeze_stands_at_its_limit(
    rt: HostRuntime,
) -> Result<(), Fail> {
    for state in [State::Entry, State::Imbalance] {
        let mut book = quoted_book()?;
        book.state = state;
        book.enter(&VENUE, limit(Side::Buy, 101_000, 10))?;
        book.state = State::Freeze;
        totals_are(
            &rt,
            &VENUE,
            &book,
            &[(100_100, 10, 0), (101_000, 10, 200), (101_100, 0, 200)],
        )?;
    }
    Ok(())
}

// Without the offer the reference is the previous close, 10.00.
#[test]
fn the_peg_follows_the_quote(rt: HostRuntime) -> Result<(), Fail> {
    let mut book = quoted_book()?;
    book.state = State::Freeze;
    book.enter(&VENUE, limit(Side::Buy, 101_000, 10))?;
    book.cancel(&VENUE, 2)?;
    totals_are(&rt, &VENUE, &book, &[(100_000, 10, 0), (100_100, 0, 0)])
}

#[test]
fn in_the_extension_the_pegs_keep_their_own_reference(rt: HostRuntime) -> Result<(), Fail> {
    let mut book = quoted_book()?;
    book.state = State::Freeze;
    book.enter(&VENUE, limit(Side::Buy, 101_000, 10))?;
    book.state = State::Extension {
        reference: Reference::of_sales(None, 98_000),
        pegs: Reference::of_sales(None, 100_500),
        side: Some(Side::Sell),
        remains: 300,
    };
    book.enter(&VENUE, limit(Side::Buy, 101_000, 7))?;
    totals_are(
        &rt,
        &VENUE,
        &book,
        &[
            (100_500, 17, 200),
            (100_600, 7, 200),
            (101_000, 7, 200),
            (101_100, 0, 200),
        ],
    )
}
