// Where several refusals apply, the one with the lowest number is given.
use crate::asking::{by_phase, says};
use crate::samples::{
    VENUE, amend, busy_book, cancel, displayed, enter, in_phase, limit, market, take,
};
use orders::{Entry, Phase, Side};
use std::test::Fail;

#[test]
fn a_book_without_entry_numbers_looks_no_further(rt: HostRuntime) -> Result<(), Fail> {
    let mut book = busy_book()?;
    book.entries = 1_000_000;
    let requests = [
        enter(limit(Side::Buy, 4_951, 0)),
        enter(displayed(Side::Buy, 100_200, 1)),
        amend(2, 4_951),
        amend(8, 99_100),
        amend(6, 99_100),
        amend(4, 99_100),
        amend(2, 98_900),
    ];
    for request in requests {
        by_phase(&rt, &book, request, [Err(3); 4])?;
    }
    Ok(())
}

#[test]
fn an_entry_is_tested_for_volume_then_price_then_kind(rt: HostRuntime) -> Result<(), Fail> {
    let book = busy_book()?;
    let priced = Entry {
        limit: 1,
        ..market(Side::Sell, 0)
    };
    let cases = [
        // also off the grid
        (limit(Side::Buy, 4_951, 0), [Err(4); 4]),
        (priced, [Err(4); 4]),
        // also not admitted from the freeze on
        (market(Side::Sell, 0), [Err(4); 4]),
        (
            Entry {
                volume: 1,
                ..priced
            },
            [Err(5); 4],
        ),
        // also crossing the quote
        (displayed(Side::Buy, 100_201, 1), [Err(5); 4]),
        (
            displayed(Side::Buy, 100_200, 1),
            [Err(7), Err(7), Err(7), Err(6)],
        ),
    ];
    for (entry, said) in cases {
        by_phase(&rt, &book, enter(entry), said)?;
    }
    Ok(())
}

// 300 shares to sell are advertised, and the fail band is from 9.00 to 11.00 dollars.
#[test]
fn in_the_extension_the_side_is_tested_then_the_volume_then_the_band(
    rt: HostRuntime,
) -> Result<(), Fail> {
    let mut book = in_phase(&busy_book()?, Phase::Extension);
    let cases = [
        (market(Side::Sell, 301), Err(6)),
        (displayed(Side::Sell, 99_900, 301), Err(6)),
        (limit(Side::Sell, 110_100, 301), Err(8)),
        (limit(Side::Sell, 100_000, 301), Err(8)),
        (limit(Side::Sell, 110_100, 300), Err(8)),
        (limit(Side::Buy, 110_100, 301), Err(9)),
        (limit(Side::Buy, 110_100, 300), Err(10)),
    ];
    for (place, case) in cases.iter().enumerate() {
        let (entry, said) = *case;
        says(&rt, &VENUE, &mut book, enter(entry), said, place)?;
    }
    Ok(())
}

#[test]
fn a_change_is_tested_for_price_then_order_then_kind_then_size(
    rt: HostRuntime,
) -> Result<(), Fail> {
    let book = busy_book()?;
    let cases = [
        // unknown, with nothing left, displayed: each off the grid as well
        (amend(8, 4_951), [Err(5); 4]),
        (amend(6, 4_951), [Err(5); 4]),
        (amend(4, 4_951), [Err(5); 4]),
        // displayed orders with nothing left
        (amend(6, 99_100), [Err(12); 4]),
        (cancel(6), [Err(12); 4]),
        (take(6, 0), [Err(12); 4]),
        // a displayed buy, to a less aggressive limit
        (amend(4, 99_000), [Err(13); 4]),
        // too few shares or too many: of no order, and of a limit order
        (take(8, 0), [Err(11); 4]),
        (take(2, 0), [Err(13); 4]),
        (take(2, 201), [Err(13); 4]),
    ];
    for (request, said) in cases {
        by_phase(&rt, &book, request, said)?;
    }
    Ok(())
}
