// Entering an order: its volume, its price, its kind and its flag.
use crate::asking::{Said, by_phase, order_is};
use crate::samples::{VENUE, busy_book, displayed, empty_book, enter, in_phase, limit, market};
use orders::table::Order;
use orders::{Entry, Kind, PegFlag, Phase, Side};
use std::test::Fail;

#[test]
fn volumes_are_from_1_to_9_999_999(rt: HostRuntime) -> Result<(), Fail> {
    const CASES: [(u32, [Said; 4]); 5] = [
        (0, [Err(4); 4]),
        (1, [Ok(8); 4]),
        (9_999_999, [Ok(8), Ok(8), Ok(8), Err(9)]),
        (10_000_000, [Err(4); 4]),
        (u32::MAX, [Err(4); 4]),
    ];
    let book = busy_book()?;
    for (volume, said) in CASES {
        by_phase(&rt, &book, enter(limit(Side::Buy, 100_000, volume)), said)?;
    }
    Ok(())
}

// The fail band of the extension is from 9.00 to 11.00 dollars.
#[test]
fn a_limit_is_on_the_grid(rt: HostRuntime) -> Result<(), Fail> {
    const CASES: [(u32, [Said; 4]); 11] = [
        (0, [Err(5); 4]),
        (1, [Err(5); 4]),
        (50, [Ok(8), Ok(8), Ok(8), Err(10)]),
        (4_950, [Ok(8), Ok(8), Ok(8), Err(10)]),
        (4_951, [Err(5); 4]),
        (5_000, [Ok(8), Ok(8), Ok(8), Err(10)]),
        (5_050, [Err(5); 4]),
        (100_000, [Ok(8); 4]),
        (100_001, [Err(5); 4]),
        (1_000_000_000, [Ok(8), Ok(8), Ok(8), Err(10)]),
        (1_000_000_100, [Err(5); 4]),
    ];
    let book = busy_book()?;
    for (price, said) in CASES {
        by_phase(&rt, &book, enter(limit(Side::Buy, price, 1)), said)?;
    }
    Ok(())
}

#[test]
fn the_price_of_a_displayed_order_is_on_the_grid(rt: HostRuntime) -> Result<(), Fail> {
    const CASES: [(u32, [Said; 4]); 5] = [
        (0, [Err(5); 4]),
        (4_950, [Ok(8), Ok(8), Ok(8), Err(6)]),
        (4_951, [Err(5); 4]),
        (5_000, [Ok(8), Ok(8), Ok(8), Err(6)]),
        (5_050, [Err(5); 4]),
    ];
    let book = busy_book()?;
    for (price, said) in CASES {
        by_phase(&rt, &book, enter(displayed(Side::Buy, price, 1)), said)?;
    }
    Ok(())
}

#[test]
fn the_price_of_a_market_order_is_0(rt: HostRuntime) -> Result<(), Fail> {
    const CASES: [(u32, [Said; 4]); 3] = [
        (0, [Ok(8), Ok(8), Err(6), Err(6)]),
        (1, [Err(5); 4]),
        (100_000, [Err(5); 4]),
    ];
    let book = busy_book()?;
    for (price, said) in CASES {
        let entry = Entry {
            limit: price,
            ..market(Side::Sell, 1)
        };
        by_phase(&rt, &book, enter(entry), said)?;
    }
    Ok(())
}

// Market orders come up to the imbalance phase, displayed ones up to the freeze, limit orders up to the extension. The
// flag is looked at in the freeze alone, and of limit orders alone.
#[test]
fn each_phase_admits_its_kinds(rt: HostRuntime) -> Result<(), Fail> {
    // kind, price, what is said to an order that may be pegged, and to one that may not
    const CASES: [(Kind, u32, [Said; 4], [Said; 4]); 3] = [
        (
            Kind::Market,
            0,
            [Ok(8), Ok(8), Err(6), Err(6)],
            [Ok(8), Ok(8), Err(6), Err(6)],
        ),
        (
            Kind::Displayed,
            99_900,
            [Ok(8), Ok(8), Ok(8), Err(6)],
            [Ok(8), Ok(8), Ok(8), Err(6)],
        ),
        (
            Kind::Limit,
            99_900,
            [Ok(8), Ok(8), Ok(8), Ok(8)],
            [Ok(8), Ok(8), Err(6), Ok(8)],
        ),
    ];
    let book = busy_book()?;
    for (kind, limit, with_peg, without) in CASES {
        let entry = Entry {
            kind,
            limit,
            ..market(Side::Buy, 1)
        };
        by_phase(&rt, &book, enter(entry), with_peg)?;
        let unpegged = Entry {
            flag: PegFlag::NotPegged,
            ..entry
        };
        by_phase(&rt, &book, enter(unpegged), without)?;
    }
    Ok(())
}

#[test]
fn orders_are_numbered_in_turn(rt: HostRuntime) -> Result<(), Fail> {
    let mut book = empty_book()?;
    assert_eq!(rt; book.enter(&VENUE, market(Side::Buy, 100))?, 1);
    assert_eq!(rt; book.enter(&VENUE, displayed(Side::Sell, 100_000, 100))?, 2);
    assert_eq!(rt; book.enter(&VENUE, limit(Side::Sell, 100_000, 100))?, 3);
    order_is(&rt, &book, 3, [3, 100_000, 100, 100])
}

#[test]
fn an_order_is_recorded_as_it_was_entered(rt: HostRuntime) -> Result<(), Fail> {
    let mut book = in_phase(&busy_book()?, Phase::Imbalance);
    let entry = Entry {
        kind: Kind::Limit,
        side: Side::Sell,
        flag: PegFlag::NotPegged,
        broker: 7,
        limit: 100_500,
        volume: 250,
    };
    let number = book.enter(&VENUE, entry)?;
    let recorded = book.table.get(number).ok_or("no such order")?;
    let expected = Order {
        number: 8,
        entry: 9,
        kind: Kind::Limit,
        side: Side::Sell,
        flag: PegFlag::NotPegged,
        broker: 7,
        limit: 100_500,
        volume: 250,
        left: 250,
        phase: Phase::Imbalance,
    };
    assert_eq!(rt; recorded, expected);
    Ok(())
}
