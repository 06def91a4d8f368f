// A day on a grid of five prices, under rule P.
use crate::asking::{in_turn, totals_are};
use crate::samples::{amend, displayed, enter, limit};
use book::requests::Request;
use book::{Book, Venue};
use grid::listed::Listed;
use orders::Side;
use priority::ByPrice;
use std::test::Fail;

fn venue() -> Result<Venue<Listed, ByPrice>, Fail> {
    Ok(Venue {
        grid: Listed::new(&[7, 90_000, 99_001, 100_001, 101_001])?,
        rule: ByPrice,
    })
}

#[test]
fn the_close_is_a_listed_price(rt: HostRuntime) -> Result<(), Fail> {
    let venue = venue()?;
    for (close, opens) in [
        (6, false),
        (7, true),
        (100_000, false),
        (101_001, true),
        (101_002, false),
    ] {
        assert_eq!(rt; Book::open(&venue, close).is_ok(), opens);
    }
    Ok(())
}

#[test]
fn every_limit_is_a_listed_price(rt: HostRuntime) -> Result<(), Fail> {
    let venue = venue()?;
    let mut book = Book::open(&venue, 100_001)?;
    in_turn(
        &rt,
        &venue,
        &mut book,
        &[
            (enter(limit(Side::Buy, 99_001, 100)), Ok(1)),
            (enter(limit(Side::Buy, 99_000, 100)), Err(5)),
            (enter(displayed(Side::Buy, 90_000, 100)), Ok(2)),
            (enter(displayed(Side::Sell, 100_000, 100)), Err(5)),
            (enter(displayed(Side::Sell, 101_001, 100)), Ok(3)),
            (amend(1, 100_000), Err(5)),
            (Request::Advance, Ok(1)),
            (amend(1, 90_000), Err(14)),
            (amend(1, 100_001), Ok(4)),
        ],
    )
}

// The midpoint of 9.00 and 10.1001 is 9.55005; the least price above it is 9.9001.
#[test]
fn a_peg_is_a_listed_price(rt: HostRuntime) -> Result<(), Fail> {
    let venue = venue()?;
    let mut book = Book::open(&venue, 100_001)?;
    in_turn(
        &rt,
        &venue,
        &mut book,
        &[
            (enter(displayed(Side::Buy, 90_000, 100)), Ok(1)),
            (enter(displayed(Side::Sell, 101_001, 100)), Ok(2)),
            (Request::Advance, Ok(1)),
            (Request::Advance, Ok(2)),
            (enter(limit(Side::Buy, 101_001, 10)), Ok(3)),
        ],
    )?;
    totals_are(&rt, &venue, &book, &[(99_001, 10, 0), (100_001, 0, 0)])
}
