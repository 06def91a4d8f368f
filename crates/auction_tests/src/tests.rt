use auction::band::in_fail_band;
use auction::found::FoundOrders;
use auction::search::Auction;
use auction::totals::totals;
use grid::listed::Listed;
use grid::{Cents, PriceSet};
use orders::found::FoundOrder;
use orders::{Kind, Side};
use ranking::points::PricePoint;
use reference::Reference;
use std::process::Abort;
use std::test::Fail;

fn found(kind: Kind, side: Side, standing: u32, shares: u32) -> FoundOrder {
    FoundOrder {
        number: 1,
        entry: 1,
        kind,
        side,
        broker: 0,
        standing,
        shares,
    }
}

fn displayed(side: Side, standing: u32, shares: u32) -> FoundOrder {
    found(Kind::Displayed, side, standing, shares)
}

fn limit(side: Side, standing: u32, shares: u32) -> FoundOrder {
    found(Kind::Limit, side, standing, shares)
}

fn market(side: Side, shares: u32) -> FoundOrder {
    found(Kind::Market, side, 0, shares)
}

fn book(orders: &[FoundOrder]) -> FoundOrders {
    let mut book = FoundOrders::new();
    for order in orders {
        book.push(*order);
    }
    book
}

// The reference is a last sale at this price.
fn strikes(
    rt: &impl Abort,
    last_sale: u32,
    orders: &[FoundOrder],
    price: u32,
    volume: u64,
) -> Result<(), Fail> {
    struck(
        rt,
        Reference::of_sales(Some(last_sale), 1),
        orders,
        price,
        volume,
    )
}

fn struck(
    rt: &impl Abort,
    reference: Reference,
    orders: &[FoundOrder],
    price: u32,
    volume: u64,
) -> Result<(), Fail> {
    let auction = Auction {
        reference,
        orders: &book(orders),
    };
    let best = auction.best_price(&Cents).ok_or("no price")?;
    assert_eq!(rt; best.price, price);
    assert_eq!(rt; best.volume, volume);
    Ok(())
}

fn quoted(bid: u32, offer: u32) -> Reference {
    Reference::of(
        &[
            orders::table::Order {
                number: 1,
                entry: 1,
                kind: Kind::Displayed,
                side: Side::Buy,
                flag: orders::PegFlag::Pegged,
                broker: 0,
                limit: bid,
                volume: 100,
                left: 100,
                phase: orders::Phase::Entry,
            },
            orders::table::Order {
                number: 2,
                entry: 2,
                kind: Kind::Displayed,
                side: Side::Sell,
                flag: orders::PegFlag::Pegged,
                broker: 0,
                limit: offer,
                volume: 100,
                left: 100,
                phase: orders::Phase::Entry,
            },
        ],
        None,
        1,
    )
}

#[test]
fn totals_come_as_a_pair(rt: HostRuntime) {
    let orders = book(&[
        market(Side::Buy, 5),
        limit(Side::Buy, 10_000, 7),
        displayed(Side::Sell, 10_000, 11),
        limit(Side::Sell, 10_100, 13),
    ]);
    assert_eq!(rt; totals(&orders, 9_900), (12, 0));
    assert_eq!(rt; totals(&orders, 10_000), (12, 11));
    assert_eq!(rt; totals(&orders, 10_100), (5, 24));
}

#[test]
fn ties_are_broken_level_by_level(rt: HostRuntime) -> Result<(), Fail> {
    // volume: 200 shares trade from 10.00 up, 100 below
    strikes(
        &rt,
        99_000,
        &[
            market(Side::Buy, 200),
            limit(Side::Sell, 99_000, 100),
            limit(Side::Sell, 100_000, 100),
        ],
        100_000,
        200,
    )?;
    // imbalance: the volume is 100 from 9.90 to 10.00, and the closing imbalance smaller at 10.00
    strikes(
        &rt,
        99_000,
        &[
            limit(Side::Buy, 99_000, 100),
            market(Side::Buy, 100),
            limit(Side::Sell, 99_000, 100),
        ],
        99_100,
        100,
    )?;
    // nearness: level from 9.90 to 10.00 in volume and imbalance
    strikes(
        &rt,
        99_700,
        &[
            limit(Side::Buy, 100_000, 100),
            limit(Side::Sell, 99_000, 100),
        ],
        99_700,
        100,
    )?;
    // height: 9.99 and 10.00 are as near to 9.995
    struck(
        &rt,
        quoted(99_900, 100_000),
        &[
            limit(Side::Buy, 100_000, 100),
            limit(Side::Sell, 99_900, 100),
        ],
        100_000,
        100,
    )
}

#[test]
fn the_higher_of_two_prices_around_a_dear_midpoint_wins(rt: HostRuntime) -> Result<(), Fail> {
    struck(
        &rt,
        quoted(33_600_000, 33_600_100),
        &[
            displayed(Side::Buy, 33_600_000, 100),
            displayed(Side::Sell, 33_600_100, 100),
            market(Side::Buy, 300),
            market(Side::Sell, 300),
        ],
        33_600_100,
        300,
    )
}

#[test]
fn a_price_that_is_no_limit_is_struck(rt: HostRuntime) -> Result<(), Fail> {
    struck(
        &rt,
        quoted(99_900, 100_200),
        &[
            displayed(Side::Buy, 99_900, 100),
            displayed(Side::Sell, 100_200, 100),
            market(Side::Buy, 300),
            market(Side::Sell, 300),
        ],
        100_100,
        300,
    )
}

#[test]
fn market_orders_alone_close_at_the_price_nearest_the_reference(
    rt: HostRuntime,
) -> Result<(), Fail> {
    let both = [market(Side::Buy, 10), market(Side::Sell, 10)];
    strikes(&rt, 1, &both, 50, 10)?;
    strikes(&rt, 4_000_000_000, &both, 1_000_000_000, 10)?;
    // half-way between 4,950 and 5,000, where the step changes
    strikes(&rt, 4_975, &both, 5_000, 10)?;
    strikes(&rt, 5_049, &both, 5_000, 10)?;
    strikes(&rt, 5_050, &both, 5_100, 10)
}

#[test]
fn a_grid_of_one_price_and_an_empty_band(rt: HostRuntime) -> Result<(), Fail> {
    let orders = book(&[limit(Side::Buy, 90, 10), limit(Side::Sell, 80, 10)]);
    let only = Listed::new(&[70])?;
    let reference = Reference::of_sales(None, 85);
    let auction = Auction {
        reference,
        orders: &orders,
    };
    let best = auction.best_price(&only).ok_or("no price")?;
    assert_eq!(rt; best.price, 70);
    assert_eq!(rt; best.volume, 0);
    let band = in_fail_band(&only, reference);
    assert!(rt; auction.best_price(&band).is_none());
    Ok(())
}

// The next number of a fixed sequence. It and the orders above stand in each crate of tests: a crate of helpers would be no
// plainer, since its functions would be public ones that promise nothing.
fn next(seed: u32) -> u32 {
    seed.wrapping_mul(1_664_525).wrapping_add(1_013_904_223)
}

fn some_order(seed: u32) -> FoundOrder {
    let kind = match (seed >> 8) % 3 {
        0 => Kind::Market,
        1 => Kind::Limit,
        _ => Kind::Displayed,
    };
    let side = if (seed >> 12) % 2 == 0 {
        Side::Buy
    } else {
        Side::Sell
    };
    found(kind, side, (seed >> 16) % 40, 1 + (seed >> 24) % 5)
}

// Whether one price point is better than another, key after key as the rule says it, and so apart from the ranking under test.
fn is_better(one: PricePoint, other: PricePoint) -> bool {
    one.volume > other.volume
        || one.volume == other.volume
            && (one.imbalance < other.imbalance
                || one.imbalance == other.imbalance
                    && (one.distance < other.distance
                        || one.distance == other.distance && one.price > other.price))
}

#[test]
fn the_search_agrees_with_a_search_over_every_price(rt: HostRuntime) -> Result<(), Fail> {
    let grid = Listed::new(&[3, 5, 6, 9, 10, 14, 15, 21, 22, 23, 30, 38])?;
    let mut seed = 1;
    for _ in 0..300 {
        let mut orders = FoundOrders::new();
        for _ in 0..6 {
            seed = next(seed);
            orders.push(some_order(seed));
        }
        seed = next(seed);
        let reference = Reference::of(&[], Some((seed >> 16) % 45), 1);
        let auction = Auction {
            reference,
            orders: &orders,
        };
        let mut best = auction.price_point(3);
        for price in grid.prices() {
            let point = auction.price_point(*price);
            if is_better(point, best) {
                best = point;
            }
        }
        let found = auction.best_price(&grid).ok_or("no price")?;
        assert_eq!(rt; found.price, best.price);
    }
    Ok(())
}
