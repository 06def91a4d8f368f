// Cancelling an order.
use crate::asking::{Said, book_fields, by_phase, in_turn, order_is};
use crate::samples::{VENUE, busy_book, cancel, displayed, enter, in_phase, limit, take};
use orders::{Phase, Side};
use std::test::Fail;

// The answer is the shares cancelled.
#[test]
fn closing_orders_are_cancelled_in_the_entry_phase_and_displayed_ones_up_to_the_freeze(
    rt: HostRuntime,
) -> Result<(), Fail> {
    const CASES: [(u16, [Said; 4]); 10] = [
        (0, [Err(11); 4]),
        (8, [Err(11); 4]),
        (u16::MAX, [Err(11); 4]),
        // cancelled, and taken whole
        (6, [Err(12); 4]),
        (7, [Err(12); 4]),
        // a market order, two limit orders and two displayed ones
        (1, [Ok(100), Err(13), Err(13), Err(13)]),
        (2, [Ok(200), Err(13), Err(13), Err(13)]),
        (3, [Ok(300), Err(13), Err(13), Err(13)]),
        (4, [Ok(400), Ok(400), Ok(400), Err(13)]),
        (5, [Ok(500), Ok(500), Ok(500), Err(13)]),
    ];
    let book = busy_book()?;
    for (number, said) in CASES {
        by_phase(&rt, &book, cancel(number), said)?;
    }
    Ok(())
}

#[test]
fn what_is_entered_in_the_freeze_follows_its_kind(rt: HostRuntime) -> Result<(), Fail> {
    let mut book = in_phase(&busy_book()?, Phase::Freeze);
    in_turn(
        &rt,
        &VENUE,
        &mut book,
        &[
            (enter(limit(Side::Buy, 100_000, 10)), Ok(8)),
            (enter(displayed(Side::Buy, 100_000, 20)), Ok(9)),
            (cancel(8), Err(13)),
            (cancel(9), Ok(20)),
            (cancel(9), Err(12)),
        ],
    )
}

#[test]
fn only_what_is_left_is_cancelled(rt: HostRuntime) -> Result<(), Fail> {
    let mut book = busy_book()?;
    in_turn(
        &rt,
        &VENUE,
        &mut book,
        &[
            (take(4, 150), Ok(250)),
            (cancel(4), Ok(250)),
            (cancel(4), Err(12)),
            (take(4, 1), Err(12)),
            (take(5, 500), Ok(0)),
            (cancel(5), Err(12)),
        ],
    )
}

#[test]
fn a_cancel_changes_what_is_left_of_one_order(rt: HostRuntime) -> Result<(), Fail> {
    let mut book = busy_book()?;
    assert_eq!(rt; book.cancel(&VENUE, 4)?, 400);
    assert_eq!(rt; book_fields(&book), [7, 8, 100_000, 100_000]);
    order_is(&rt, &book, 4, [4, 99_900, 400, 0])?;
    order_is(&rt, &book, 5, [5, 100_200, 500, 500])
}
