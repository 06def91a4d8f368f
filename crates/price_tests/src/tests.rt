use grid::listed::Listed;
use grid::{Band, Cents, Grid, PriceSet};
use orders::table::{Order, OrderTable};
use orders::{Kind, PegFlag, Phase, Side};
use peg::standing_price;
use ranking::entries::{EntryPair, TimePriority};
use ranking::first;
use ranking::points::{ClosingPrice, PricePoint};
use reference::Reference;
use std::test::Fail;
use threshold::{accepted, distance, fail_band, in_fail_band};

fn order(kind: Kind, side: Side, limit: u32, phase: Phase) -> Order {
    Order {
        number: 1,
        entry: 1,
        kind,
        side,
        flag: PegFlag::Pegged,
        broker: 0,
        limit,
        volume: 100,
        left: 100,
        phase,
    }
}

fn quote(bid: u32, offer: u32) -> [Order; 2] {
    [
        order(Kind::Displayed, Side::Buy, bid, Phase::Entry),
        order(Kind::Displayed, Side::Sell, offer, Phase::Entry),
    ]
}

#[test]
fn cents_step_from_half_cents_to_cents_at_fifty_cents(rt: HostRuntime) {
    // number, least price at or above it, greatest at or below it
    let cases = [
        (0, 50, 0),
        (1, 50, 0),
        (50, 50, 50),
        (51, 100, 50),
        (4_950, 4_950, 4_950),
        (4_951, 5_000, 4_950),
        (4_999, 5_000, 4_950),
        (5_000, 5_000, 5_000),
        (5_050, 5_100, 5_000),
        (999_999_901, 1_000_000_000, 999_999_900),
        (1_000_000_000, 1_000_000_000, 1_000_000_000),
        (1_000_000_001, 0, 1_000_000_000),
    ];
    for (n, above, below) in cases {
        assert_eq!(rt; Cents.at_or_above(n), above);
        assert_eq!(rt; Cents.at_or_below(n), below);
    }
    assert_eq!(rt; Cents.first(), 50);
    assert_eq!(rt; Cents.last(), 1_000_000_000);
}

#[test]
fn a_listed_grid_answers_from_its_list(rt: HostRuntime) -> Result<(), Fail> {
    let grid = Listed::new(&[100, 250, 251, 1_000_000_000])?;
    for (n, above, below) in [
        (0, 100, 0),
        (100, 100, 100),
        (101, 250, 100),
        (252, 1_000_000_000, 251),
        (4_000_000_000, 0, 1_000_000_000),
    ] {
        assert_eq!(rt; grid.at_or_above(n), above);
        assert_eq!(rt; grid.at_or_below(n), below);
    }
    assert_eq!(rt; grid.first(), 100);
    assert_eq!(rt; grid.last(), 1_000_000_000);
    Ok(())
}

#[test]
fn lists_that_are_no_grid_are_refused_with_1(rt: HostRuntime) -> Result<(), Fail> {
    let empty: [u32; 0] = [];
    assert!(rt; Listed::new(&empty).is_err());
    assert!(rt; Listed::new(&[7; 65]).is_err());
    assert!(rt; Listed::new(&[0, 50]).is_err());
    assert!(rt; Listed::new(&[50, 50]).is_err());
    assert!(rt; Listed::new(&[100, 50]).is_err());
    assert!(rt; Listed::new(&[50, 1_000_000_001]).is_err());
    match Listed::new(&[100, 50]) {
        Ok(_) => Err(Fail::new("falling prices are no grid")),
        Err(fault) => {
            assert_eq!(rt; fault.number(), 1);
            Ok(())
        },
    }
}

#[test]
fn a_band_may_be_empty(rt: HostRuntime) {
    let band = Band {
        prices: Cents,
        low: 9_901,
        high: 9_999,
    };
    assert_eq!(rt; band.at_or_above(0), 0);
    assert_eq!(rt; band.at_or_below(20_000), 0);
    let band = Band {
        prices: Cents,
        low: 9_900,
        high: 10_100,
    };
    assert_eq!(rt; band.at_or_above(0), 9_900);
    assert_eq!(rt; band.at_or_below(20_000), 10_100);
    let lent = Band {
        prices: &Cents,
        low: 9_900,
        high: 10_100,
    };
    assert_eq!(rt; lent.at_or_above(0), 9_900);
    assert_eq!(rt; lent.at_or_below(20_000), 10_100);
}

#[test]
fn the_reference_is_the_quote_then_the_last_sale_then_the_close(rt: HostRuntime) {
    let both = quote(99_900, 100_200);
    assert_eq!(rt;
        Reference::of(&both, Some(98_000), 97_000).doubled(),
        200_100
    );
    let bid = [order(Kind::Displayed, Side::Buy, 99_900, Phase::Entry)];
    assert_eq!(rt;
        Reference::of(&bid, Some(98_000), 97_000).doubled(),
        196_000
    );
    assert_eq!(rt; Reference::of(&bid, None, 97_000).doubled(), 194_000);
    // only standing displayed orders make the quote
    let gone = Order {
        left: 0,
        ..order(Kind::Displayed, Side::Sell, 100_000, Phase::Entry)
    };
    let limit = order(Kind::Limit, Side::Sell, 100_000, Phase::Entry);
    let mixed = [both[0], both[1], gone, limit];
    assert_eq!(rt; Reference::of(&mixed, None, 97_000).doubled(), 200_100);
}

#[test]
fn the_midpoint_of_a_dear_share_is_not_cut(rt: HostRuntime) {
    let quoted = quote(33_600_000, 33_600_100);
    let reference = Reference::of(&quoted, None, 33_000_000);
    assert_eq!(rt; reference.doubled(), 67_200_100);
    assert_eq!(rt; distance(reference, 33_600_000), 100);
    assert_eq!(rt; distance(reference, 33_600_100), 100);
}

#[test]
fn thresholds_are_exact_at_their_edges(rt: HostRuntime) {
    // reference, a price that is accepted, the next cent up, which is not
    for (price, inside, outside) in [(100_000, 103_000, 103_100), (8_000, 8_400, 8_500)] {
        let reference = Reference::of_sales(None, price);
        assert!(rt; accepted(reference, inside));
        assert!(rt; !accepted(reference, outside));
    }
    // twice the reference is 19,999 and 20,000: 15 percent and 10 percent
    let cheap = Reference::of(&quote(9_999, 10_000), None, 1);
    let dear = Reference::of(&quote(10_000, 10_000), None, 1);
    assert!(rt; in_fail_band(cheap, 11_499));
    assert!(rt; !in_fail_band(cheap, 11_500));
    assert!(rt; in_fail_band(dear, 11_000));
    assert!(rt; !in_fail_band(dear, 11_001));
    let band = fail_band(dear);
    assert_eq!(rt; band.low, 9_000);
    assert_eq!(rt; band.high, 11_000);
}

#[test]
fn pegs_are_rounded_away_from_the_midpoint(rt: HostRuntime) -> Result<(), Fail> {
    let reference = Reference::of(&quote(99_900, 100_200), None, 100_000);
    // kind, side, limit, phase of entry, standing price
    let cases = [
        (Kind::Limit, Side::Buy, 101_000, Phase::Freeze, 100_100),
        (Kind::Limit, Side::Sell, 99_000, Phase::Freeze, 100_000),
        (Kind::Limit, Side::Buy, 99_000, Phase::Freeze, 99_000),
        (Kind::Limit, Side::Buy, 101_000, Phase::Imbalance, 101_000),
        (Kind::Limit, Side::Buy, 101_000, Phase::Extension, 101_000),
        (Kind::Displayed, Side::Buy, 101_000, Phase::Freeze, 101_000),
    ];
    for (kind, side, limit, phase, stands) in cases {
        let order = order(kind, side, limit, phase);
        assert_eq!(rt; standing_price(&Cents, reference, &order), stands);
    }
    // a grid without a price above the midpoint leaves the limit
    let low = Listed::new(&[50, 90_000])?;
    let buy = order(Kind::Limit, Side::Buy, 101_000, Phase::Freeze);
    assert_eq!(rt; standing_price(&low, reference, &buy), 101_000);
    Ok(())
}

fn point(price: u32, volume: u64, imbalance: u64, distance: u64) -> PricePoint {
    PricePoint {
        price,
        volume,
        imbalance,
        distance,
    }
}

#[test]
fn price_points_rank_by_volume_imbalance_nearness_and_height(rt: HostRuntime) {
    let by_volume = [point(1, 10, 0, 0), point(2, 11, 9, 9)];
    assert_eq!(rt; first(&ClosingPrice, &by_volume), Some(1));
    let by_imbalance = [point(1, 10, 3, 0), point(2, 10, 2, 9)];
    assert_eq!(rt; first(&ClosingPrice, &by_imbalance), Some(1));
    let by_nearness = [point(1, 10, 3, 5), point(2, 10, 3, 4)];
    assert_eq!(rt; first(&ClosingPrice, &by_nearness), Some(1));
    let by_height = [point(1, 10, 3, 5), point(3, 10, 3, 5), point(2, 10, 3, 5)];
    assert_eq!(rt; first(&ClosingPrice, &by_height), Some(1));
    let none: [PricePoint; 0] = [];
    assert_eq!(rt; first(&ClosingPrice, &none), None);
}

#[test]
fn pairs_rank_by_time(rt: HostRuntime) {
    let pairs = [
        EntryPair { buy: 2, sell: 1 },
        EntryPair { buy: 1, sell: 4 },
        EntryPair { buy: 1, sell: 3 },
    ];
    assert_eq!(rt; first(&TimePriority, &pairs), Some(2));
}

#[test]
fn a_table_changes_one_order_and_no_other(rt: HostRuntime) -> Result<(), Fail> {
    let mut table = OrderTable::new();
    let buy = order(Kind::Limit, Side::Buy, 100, Phase::Entry);
    assert_eq!(rt; table.push(buy), Some(0));
    assert_eq!(rt; table.push(Order { number: 2, ..buy }), Some(1));
    assert!(rt; !table.replace(3, buy));
    assert!(rt; !table.replace(0, buy));
    assert!(rt;
        table.replace(
            2,
            Order {
                number: 2,
                left: 7,
                ..buy
            },
        )
    );
    match (table.get(1), table.get(2), table.get(3)) {
        (Some(one), Some(two), None) => {
            assert_eq!(rt; one.left, 100);
            assert_eq!(rt; two.left, 7);
            Ok(())
        }
        _ => Err(Fail::new("two orders stand in the table")),
    }
}
