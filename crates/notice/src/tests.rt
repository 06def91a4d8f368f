use super::*;
use auction::found::FoundOrders;
use orders::found::FoundOrder;
use orders::table::Order;
use orders::{Kind, PegFlag, Phase};
use std::process::Abort;

// These orders stand in each crate of tests: a crate of helpers would have public functions that promise nothing.
fn found(kind: Kind, side: Side, standing: u32, shares: u32) -> FoundOrder {
    FoundOrder {
        number: 1,
        entry: 1,
        kind,
        side,
        broker: 0,
        standing,
        shares,
    }
}

fn limit(side: Side, standing: u32, shares: u32) -> FoundOrder {
    found(Kind::Limit, side, standing, shares)
}

fn market(side: Side, shares: u32) -> FoundOrder {
    found(Kind::Market, side, 0, shares)
}

fn displayed(side: Side, standing: u32, shares: u32) -> FoundOrder {
    found(Kind::Displayed, side, standing, shares)
}

fn book(orders: &[FoundOrder]) -> FoundOrders {
    let mut book = FoundOrders::new();
    for order in orders {
        book.push(*order);
    }
    book
}

fn quotes(side: Side, limit: u32) -> Order {
    Order {
        number: 1,
        entry: 1,
        kind: Kind::Displayed,
        side,
        flag: PegFlag::NotPegged,
        broker: 0,
        limit,
        volume: 1,
        left: 1,
        phase: Phase::Entry,
    }
}

fn quote(bid: u32, offer: u32) -> Reference {
    Reference::of(
        &[quotes(Side::Buy, bid), quotes(Side::Sell, offer)],
        None,
        1,
    )
}

fn leans(rt: &impl Abort, reference: Reference, order: FoundOrder, side: Option<Side>) {
    let volume = if side.is_some() { 10 } else { 0 };
    assert_eq!(rt;
        imbalance_at_reference(&Auction {
            reference,
            orders: &book(&[order])
        }),
        Imbalance { side, volume }
    );
}

// A quote of 9.99 / 10.02: twice the reference is 200,100.
#[test]
fn an_order_counts_from_the_midpoint_on(rt: HostRuntime) {
    let reference = quote(99_900, 100_200);
    leans(&rt, reference, limit(Side::Buy, 100_000, 10), None);
    leans(
        &rt,
        reference,
        limit(Side::Buy, 100_100, 10),
        Some(Side::Buy),
    );
    leans(
        &rt,
        reference,
        limit(Side::Sell, 100_000, 10),
        Some(Side::Sell),
    );
    leans(&rt, reference, limit(Side::Sell, 100_100, 10), None);
}

// A quote of 9.9900 / 9.9901: the midpoint is no whole price, and is rounded for neither side.
#[test]
fn the_midpoint_is_not_rounded(rt: HostRuntime) {
    let reference = quote(99_900, 99_901);
    leans(&rt, reference, limit(Side::Buy, 99_900, 10), None);
    leans(
        &rt,
        reference,
        limit(Side::Buy, 99_901, 10),
        Some(Side::Buy),
    );
    leans(
        &rt,
        reference,
        limit(Side::Sell, 99_900, 10),
        Some(Side::Sell),
    );
    leans(&rt, reference, limit(Side::Sell, 99_901, 10), None);
}

#[test]
fn market_orders_count_at_any_price_and_displayed_orders_never(rt: HostRuntime) {
    let reference = quote(99_900, 100_200);
    leans(&rt, reference, market(Side::Buy, 10), Some(Side::Buy));
    leans(&rt, reference, market(Side::Sell, 10), Some(Side::Sell));
    leans(&rt, reference, displayed(Side::Buy, 100_200, 10), None);
    leans(&rt, reference, displayed(Side::Sell, 99_900, 10), None);
}

// 500 closing shares to buy at the reference and 250 to sell, of which 300 and 100 at any price.
#[test]
fn a_notice_shows_what_is_paired_and_what_is_left(rt: HostRuntime) {
    let reference = quote(99_900, 100_200);
    let orders = book(&[
        market(Side::Buy, 300),
        limit(Side::Buy, 100_100, 200),
        limit(Side::Buy, 100_000, 50),
        displayed(Side::Buy, 100_200, 700),
        market(Side::Sell, 100),
        limit(Side::Sell, 100_000, 150),
        limit(Side::Sell, 100_100, 90),
    ]);
    let notice = Notice {
        reference,
        imbalance: Imbalance {
            side: Some(Side::Buy),
            volume: 250,
        },
        paired: 250,
        market: Imbalance {
            side: Some(Side::Buy),
            volume: 200,
        },
    };
    assert_eq!(rt;
        Notice::of(&Auction {
            reference,
            orders: &orders
        }),
        notice
    );
}

#[test]
fn equal_totals_have_no_side(rt: HostRuntime) {
    let orders = book(&[market(Side::Buy, 100), limit(Side::Sell, 100_000, 100)]);
    let reference = quote(99_900, 100_200);
    let notice = Notice::of(&Auction {
        reference,
        orders: &orders,
    });
    assert_eq!(rt; notice.imbalance.side, None);
    assert_eq!(rt; notice.imbalance.volume, 0);
    assert_eq!(rt; notice.paired, 100);
    assert_eq!(rt; notice.market, Imbalance::between(100, 0));
}
