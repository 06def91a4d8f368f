// Amending an order.
use crate::asking::{Said, book_fields, by_phase, in_turn, order_is};
use crate::samples::{
    VENUE, amend, busy_book, cancel, displayed, empty_book, enter, limit, market,
};
use orders::Side;
use std::test::Fail;

#[test]
fn a_limit_order_that_stands_is_amended_up_to_the_imbalance_phase(
    rt: HostRuntime,
) -> Result<(), Fail> {
    const CASES: [(u16, [Said; 4]); 9] = [
        (0, [Err(11); 4]),
        (8, [Err(11); 4]),
        (u16::MAX, [Err(11); 4]),
        // a market order, and displayed ones: standing, cancelled and taken whole
        (1, [Err(13); 4]),
        (4, [Err(13); 4]),
        (6, [Err(12); 4]),
        (7, [Err(12); 4]),
        // limit orders: a buy at 9.90 and a sell at 10.10
        (2, [Ok(9), Ok(9), Err(13), Err(13)]),
        (3, [Ok(9), Ok(9), Err(13), Err(13)]),
    ];
    let book = busy_book()?;
    for (number, said) in CASES {
        by_phase(&rt, &book, amend(number, 100_000), said)?;
    }
    Ok(())
}

// Order 2 buys at 9.90, order 3 sells at 10.10. In the entry phase every price of the grid will do, the present one too.
#[test]
fn in_the_imbalance_phase_an_amendment_is_more_aggressive(rt: HostRuntime) -> Result<(), Fail> {
    const CASES: [(u16, u32, [Said; 4]); 10] = [
        (2, 50, [Ok(9), Err(14), Err(13), Err(13)]),
        (2, 98_900, [Ok(9), Err(14), Err(13), Err(13)]),
        (2, 99_000, [Ok(9), Err(14), Err(13), Err(13)]),
        (2, 99_100, [Ok(9), Ok(9), Err(13), Err(13)]),
        (2, 1_000_000_000, [Ok(9), Ok(9), Err(13), Err(13)]),
        (3, 50, [Ok(9), Ok(9), Err(13), Err(13)]),
        (3, 100_900, [Ok(9), Ok(9), Err(13), Err(13)]),
        (3, 101_000, [Ok(9), Err(14), Err(13), Err(13)]),
        (3, 101_100, [Ok(9), Err(14), Err(13), Err(13)]),
        (3, 1_000_000_000, [Ok(9), Err(14), Err(13), Err(13)]),
    ];
    let book = busy_book()?;
    for (number, price, said) in CASES {
        by_phase(&rt, &book, amend(number, price), said)?;
    }
    Ok(())
}

#[test]
fn the_new_limit_is_on_the_grid(rt: HostRuntime) -> Result<(), Fail> {
    let book = busy_book()?;
    for price in [0, 49, 4_951, 5_050, 99_101, 1_000_000_100] {
        let said = [Err(5); 4];
        by_phase(&rt, &book, amend(2, price), said)?;
    }
    Ok(())
}

#[test]
fn each_amendment_takes_the_next_entry_number(rt: HostRuntime) -> Result<(), Fail> {
    let mut book = empty_book()?;
    in_turn(
        &rt,
        &VENUE,
        &mut book,
        &[
            (enter(limit(Side::Buy, 100_000, 1)), Ok(1)),
            (enter(limit(Side::Sell, 100_000, 1)), Ok(2)),
            (amend(1, 100_100), Ok(3)),
            (amend(1, 100_100), Ok(4)),
            (amend(3, 100_100), Err(11)),
            (enter(limit(Side::Sell, 100_000, 1)), Ok(3)),
            (amend(3, 100_100), Ok(6)),
            (cancel(3), Ok(1)),
            (amend(3, 100_100), Err(12)),
        ],
    )
}

#[test]
fn an_amendment_changes_the_limit_and_the_entry_number_of_one_order(
    rt: HostRuntime,
) -> Result<(), Fail> {
    let mut book = busy_book()?;
    assert_eq!(rt; book.amend(&VENUE, 2, 99_500)?, 9);
    assert_eq!(rt; book_fields(&book), [7, 9, 100_000, 100_000]);
    order_is(&rt, &book, 2, [9, 99_500, 200, 200])?;
    order_is(&rt, &book, 3, [8, 101_000, 300, 300])
}
