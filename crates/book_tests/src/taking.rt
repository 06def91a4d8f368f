// Taking shares of a displayed order.
use crate::asking::{Said, book_fields, by_phase, in_turn, order_is};
use crate::samples::{VENUE, amend, busy_book, take};
use std::test::Fail;

#[test]
fn a_displayed_order_that_stands_is_taken_up_to_the_freeze(rt: HostRuntime) -> Result<(), Fail> {
    const CASES: [(u16, [Said; 4]); 10] = [
        (0, [Err(11); 4]),
        (8, [Err(11); 4]),
        (u16::MAX, [Err(11); 4]),
        // cancelled, and taken whole
        (6, [Err(12); 4]),
        (7, [Err(12); 4]),
        // a market order, two limit orders and two displayed ones
        (1, [Err(13); 4]),
        (2, [Err(13); 4]),
        (3, [Err(13); 4]),
        (4, [Ok(399), Ok(399), Ok(399), Err(13)]),
        (5, [Ok(499), Ok(499), Ok(499), Err(13)]),
    ];
    let book = busy_book()?;
    for (number, said) in CASES {
        by_phase(&rt, &book, take(number, 1), said)?;
    }
    Ok(())
}

// Order 4 has 400 shares. The answer is what is left of them.
#[test]
fn from_one_share_to_all_that_is_left_are_taken(rt: HostRuntime) -> Result<(), Fail> {
    const CASES: [(u32, [Said; 4]); 6] = [
        (0, [Err(15), Err(15), Err(15), Err(13)]),
        (1, [Ok(399), Ok(399), Ok(399), Err(13)]),
        (399, [Ok(1), Ok(1), Ok(1), Err(13)]),
        (400, [Ok(0), Ok(0), Ok(0), Err(13)]),
        (401, [Err(15), Err(15), Err(15), Err(13)]),
        (u32::MAX, [Err(15), Err(15), Err(15), Err(13)]),
    ];
    let book = busy_book()?;
    for (volume, said) in CASES {
        by_phase(&rt, &book, take(4, volume), said)?;
    }
    Ok(())
}

#[test]
fn takes_add_up(rt: HostRuntime) -> Result<(), Fail> {
    let mut book = busy_book()?;
    in_turn(
        &rt,
        &VENUE,
        &mut book,
        &[
            (take(4, 150), Ok(250)),
            (take(4, 251), Err(15)),
            (take(4, 249), Ok(1)),
            (take(4, 2), Err(15)),
            (take(4, 1), Ok(0)),
            (take(4, 1), Err(12)),
            (amend(4, 100_000), Err(12)),
        ],
    )
}

#[test]
fn a_take_is_a_sale_at_the_limit_of_the_order(rt: HostRuntime) -> Result<(), Fail> {
    let mut book = busy_book()?;
    assert_eq!(rt; book.take(&VENUE, 4, 150)?, 250);
    assert_eq!(rt; book_fields(&book), [7, 8, 100_000, 99_900]);
    order_is(&rt, &book, 4, [4, 99_900, 400, 250])
}
