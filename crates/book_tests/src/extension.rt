// Entering an order in the extension: it offsets the advertised imbalance.
use crate::asking::{Said, in_turn, says};
use crate::samples::{VENUE, empty_book, enter, extension, limit};
use book::{Book, State};
use orders::Side;
use reference::Reference;
use std::test::Fail;

fn extended_book(state: State) -> Result<Book, Fail> {
    let mut book = empty_book()?;
    book.state = state;
    Ok(book)
}

#[test]
fn an_order_faces_the_advertised_side(rt: HostRuntime) -> Result<(), Fail> {
    // the advertised side, the side of the order
    const CASES: [(Option<Side>, Side, Said); 6] = [
        (Some(Side::Sell), Side::Buy, Ok(1)),
        (Some(Side::Sell), Side::Sell, Err(8)),
        (Some(Side::Buy), Side::Sell, Ok(1)),
        (Some(Side::Buy), Side::Buy, Err(8)),
        (None, Side::Buy, Err(8)),
        (None, Side::Sell, Err(8)),
    ];
    for (place, case) in CASES.iter().enumerate() {
        let (advertised, side, said) = *case;
        let mut book = extended_book(extension(advertised, 300))?;
        let request = enter(limit(side, 100_000, 1));
        says(&rt, &VENUE, &mut book, request, said, place)?;
    }
    Ok(())
}

#[test]
fn an_order_is_no_larger_than_what_remains(rt: HostRuntime) -> Result<(), Fail> {
    // what remains, the volume of the order
    const CASES: [(u64, u32, Said); 6] = [
        (0, 1, Err(9)),
        (1, 1, Ok(1)),
        (300, 299, Ok(1)),
        (300, 300, Ok(1)),
        (300, 301, Err(9)),
        (5_000_000_000, 9_999_999, Ok(1)),
    ];
    for (place, case) in CASES.iter().enumerate() {
        let (remains, volume, said) = *case;
        let mut book = extended_book(extension(Some(Side::Buy), remains))?;
        let request = enter(limit(Side::Sell, 100_000, volume));
        says(&rt, &VENUE, &mut book, request, said, place)?;
    }
    Ok(())
}

#[test]
fn each_order_accepted_lowers_what_remains(rt: HostRuntime) -> Result<(), Fail> {
    let mut book = extended_book(extension(Some(Side::Sell), 300))?;
    in_turn(
        &rt,
        &VENUE,
        &mut book,
        &[
            (enter(limit(Side::Buy, 100_000, 100)), Ok(1)),
            (enter(limit(Side::Buy, 100_000, 201)), Err(9)),
            (enter(limit(Side::Buy, 100_000, 199)), Ok(2)),
            (enter(limit(Side::Buy, 100_000, 2)), Err(9)),
            (enter(limit(Side::Buy, 100_000, 1)), Ok(3)),
            (enter(limit(Side::Buy, 100_000, 1)), Err(9)),
        ],
    )
}

// 10 percent of a reference of 10.00 dollars, and 15 percent of one of 0.80.
#[test]
fn a_limit_is_in_the_fail_band(rt: HostRuntime) -> Result<(), Fail> {
    // the reference, the limit of the order
    const CASES: [(u32, u32, Said); 8] = [
        (100_000, 89_900, Err(10)),
        (100_000, 90_000, Ok(1)),
        (100_000, 110_000, Ok(1)),
        (100_000, 110_100, Err(10)),
        (8_000, 6_700, Err(10)),
        (8_000, 6_800, Ok(1)),
        (8_000, 9_200, Ok(1)),
        (8_000, 9_300, Err(10)),
    ];
    for (place, case) in CASES.iter().enumerate() {
        let (price, bid, said) = *case;
        let state = State::Extension {
            reference: Reference::of_sales(None, price),
            pegs: Reference::of_sales(None, 50_000),
            side: Some(Side::Sell),
            remains: 300,
        };
        let mut book = extended_book(state)?;
        let request = enter(limit(Side::Buy, bid, 100));
        says(&rt, &VENUE, &mut book, request, said, place)?;
    }
    Ok(())
}
