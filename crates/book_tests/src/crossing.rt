// A displayed order may not meet or cross a standing displayed order of the other side.
use crate::asking::{Said, by_phase, in_turn};
use crate::samples::{VENUE, busy_book, cancel, displayed, empty_book, enter, limit, market, take};
use orders::Side;
use std::test::Fail;

// A displayed buy stands at 9.99, a displayed sell at 10.02.
#[test]
fn a_displayed_order_stays_on_its_side_of_the_quote(rt: HostRuntime) -> Result<(), Fail> {
    const CASES: [(Side, u32, [Said; 4]); 6] = [
        (Side::Buy, 100_100, [Ok(8), Ok(8), Ok(8), Err(6)]),
        (Side::Buy, 100_200, [Err(7), Err(7), Err(7), Err(6)]),
        (Side::Buy, 100_300, [Err(7), Err(7), Err(7), Err(6)]),
        (Side::Sell, 100_000, [Ok(8), Ok(8), Ok(8), Err(6)]),
        (Side::Sell, 99_900, [Err(7), Err(7), Err(7), Err(6)]),
        (Side::Sell, 99_800, [Err(7), Err(7), Err(7), Err(6)]),
    ];
    let book = busy_book()?;
    for (side, price, said) in CASES {
        by_phase(&rt, &book, enter(displayed(side, price, 1)), said)?;
    }
    Ok(())
}

#[test]
fn every_standing_displayed_order_is_looked_at(rt: HostRuntime) -> Result<(), Fail> {
    let mut book = empty_book()?;
    in_turn(
        &rt,
        &VENUE,
        &mut book,
        &[
            (enter(displayed(Side::Sell, 100_500, 1)), Ok(1)),
            (enter(displayed(Side::Sell, 100_100, 1)), Ok(2)),
            (enter(displayed(Side::Sell, 100_300, 1)), Ok(3)),
            (enter(displayed(Side::Buy, 100_100, 1)), Err(7)),
            (enter(displayed(Side::Buy, 100_000, 1)), Ok(4)),
        ],
    )
}

#[test]
fn closing_orders_of_the_other_side_are_not_looked_at(rt: HostRuntime) -> Result<(), Fail> {
    let mut book = empty_book()?;
    in_turn(
        &rt,
        &VENUE,
        &mut book,
        &[
            (enter(market(Side::Buy, 1)), Ok(1)),
            (enter(market(Side::Sell, 1)), Ok(2)),
            (enter(limit(Side::Buy, 101_000, 1)), Ok(3)),
            (enter(limit(Side::Sell, 99_000, 1)), Ok(4)),
            (enter(displayed(Side::Buy, 99_900, 1)), Ok(5)),
            (enter(displayed(Side::Sell, 100_200, 1)), Ok(6)),
        ],
    )
}

// A displayed buy stands at 9.99, a displayed sell at 10.02.
#[test]
fn a_closing_order_may_cross_the_quote(rt: HostRuntime) -> Result<(), Fail> {
    let book = busy_book()?;
    let buy = enter(limit(Side::Buy, 100_300, 1));
    by_phase(&rt, &book, buy, [Ok(8); 4])?;
    let sell = enter(limit(Side::Sell, 99_800, 1));
    by_phase(&rt, &book, sell, [Ok(8), Ok(8), Ok(8), Err(8)])
}

#[test]
fn an_order_with_nothing_left_is_not_looked_at(rt: HostRuntime) -> Result<(), Fail> {
    let mut book = empty_book()?;
    in_turn(
        &rt,
        &VENUE,
        &mut book,
        &[
            (enter(displayed(Side::Sell, 100_200, 100)), Ok(1)),
            (take(1, 99), Ok(1)),
            (enter(displayed(Side::Buy, 100_200, 1)), Err(7)),
            (take(1, 1), Ok(0)),
            (enter(displayed(Side::Buy, 100_200, 1)), Ok(2)),
            (enter(displayed(Side::Sell, 100_200, 1)), Err(7)),
            (cancel(2), Ok(1)),
            (enter(displayed(Side::Sell, 100_200, 1)), Ok(3)),
        ],
    )
}
