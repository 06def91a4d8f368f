use allocation::error::AllocationError;
use allocation::held::{Fill, LivePair};
use allocation::{FILLS, PAIRS, allocate};
use auction::found::FoundOrders;
use orders::found::FoundOrder;
use orders::{Kind, Side};
use priority::{ByPrice, BySteps, Pair, PairingRule};
use std::process::Abort;
use std::test::Fail;

fn market(side: Side, entry: u32, broker: u16, shares: u32) -> FoundOrder {
    FoundOrder {
        number: 1,
        entry,
        kind: Kind::Market,
        side,
        broker,
        standing: 0,
        shares,
    }
}

fn limit(side: Side, entry: u32, broker: u16, standing: u32, shares: u32) -> FoundOrder {
    FoundOrder {
        kind: Kind::Limit,
        standing,
        ..market(side, entry, broker, shares)
    }
}

fn book(orders: &[FoundOrder]) -> FoundOrders {
    let mut book = FoundOrders::new();
    for order in orders {
        book.push(*order);
    }
    book
}

// The fills of a book at a price are these: the entry numbers of a buy and a sell, and their shares.
fn fills_are<R: PairingRule + Copy>(
    rt: &impl Abort,
    rule: &R,
    orders: &[FoundOrder],
    price: u32,
    expected: &[(u32, u32, u32)],
) -> Result<(), Fail> {
    let mut pairs = [LivePair::default(); PAIRS];
    let mut fills = [Fill::default(); FILLS];
    let count = allocate(rule, &book(orders), price, &mut pairs, &mut fills)?;
    assert_eq!(rt; count, expected.len());
    for (fill, wanted) in fills[..count].iter().zip(expected) {
        assert_eq!(rt;
            (fill.pair.buy.entry, fill.pair.sell.entry, fill.shares),
            *wanted
        );
    }
    Ok(())
}

#[test]
fn the_same_broker_trades_first_and_broker_0_is_nobodys(rt: HostRuntime) -> Result<(), Fail> {
    let orders = [
        market(Side::Buy, 1, 7, 10),
        market(Side::Buy, 2, 9, 10),
        market(Side::Sell, 3, 9, 10),
    ];
    fills_are(&rt, &BySteps, &orders, 100, &[(2, 3, 10)])?;
    let unattributed = [
        market(Side::Buy, 1, 7, 10),
        market(Side::Buy, 2, 0, 10),
        market(Side::Sell, 3, 0, 10),
    ];
    fills_are(&rt, &BySteps, &unattributed, 100, &[(1, 3, 10)])
}

#[test]
fn a_market_order_meets_several_limit_orders(rt: HostRuntime) -> Result<(), Fail> {
    let orders = [
        limit(Side::Buy, 1, 0, 90, 10),
        limit(Side::Buy, 2, 0, 110, 10),
        limit(Side::Buy, 3, 0, 120, 10),
        market(Side::Sell, 4, 0, 25),
    ];
    // the first buy is not eligible at 100
    fills_are(&rt, &BySteps, &orders, 100, &[(2, 4, 10), (3, 4, 10)])?;
    fills_are(&rt, &ByPrice, &orders, 100, &[(3, 4, 10), (2, 4, 10)])?;
    fills_are(
        &rt,
        &ByPrice,
        &orders,
        90,
        &[(3, 4, 10), (2, 4, 10), (1, 4, 5)],
    )
}

#[test]
fn either_side_runs_out_or_both_or_there_is_none(rt: HostRuntime) -> Result<(), Fail> {
    let sells_out = [market(Side::Buy, 1, 0, 30), market(Side::Sell, 2, 0, 20)];
    fills_are(&rt, &BySteps, &sells_out, 100, &[(1, 2, 20)])?;
    let buys_out = [market(Side::Buy, 1, 0, 20), market(Side::Sell, 2, 0, 30)];
    fills_are(&rt, &BySteps, &buys_out, 100, &[(1, 2, 20)])?;
    let both_out = [
        market(Side::Buy, 1, 0, 20),
        market(Side::Buy, 2, 0, 10),
        market(Side::Sell, 3, 0, 5),
        market(Side::Sell, 4, 0, 25),
    ];
    fills_are(
        &rt,
        &BySteps,
        &both_out,
        100,
        &[(1, 3, 5), (1, 4, 15), (2, 4, 10)],
    )?;
    fills_are(&rt, &BySteps, &[market(Side::Buy, 1, 0, 20)], 100, &[])?;
    fills_are(&rt, &BySteps, &[], 100, &[])
}

// By the steps the pair of one broker is first. By price the dearer buy is.
#[test]
fn the_two_rules_fill_one_book_differently(rt: HostRuntime) -> Result<(), Fail> {
    let orders = [
        limit(Side::Buy, 1, 7, 100, 10),
        limit(Side::Buy, 2, 0, 120, 10),
        limit(Side::Sell, 3, 7, 100, 10),
    ];
    fills_are(&rt, &BySteps, &orders, 100, &[(1, 3, 10)])?;
    fills_are(&rt, &ByPrice, &orders, 100, &[(2, 3, 10)])
}

#[test]
fn a_refused_call_changes_nothing(rt: HostRuntime) {
    let orders = book(&[market(Side::Buy, 1, 0, 20), market(Side::Sell, 2, 0, 20)]);
    let twice = book(&[market(Side::Buy, 1, 0, 20), market(Side::Sell, 1, 0, 20)]);
    let mut pairs = [LivePair::default(); PAIRS];
    let mut fills = [Fill::default(); FILLS];
    let mut few_pairs = [LivePair::default(); 4_095];
    let mut few_fills = [Fill::default(); 126];
    let shared = allocate(&BySteps, &twice, 100, &mut pairs, &mut fills);
    assert_eq!(rt; shared, Err(AllocationError::SharedEntry));
    let short = Err(AllocationError::ShortMemory);
    assert_eq!(rt;
        allocate(&BySteps, &orders, 100, &mut few_pairs, &mut fills),
        short
    );
    assert_eq!(rt;
        allocate(&BySteps, &orders, 100, &mut pairs, &mut few_fills),
        short
    );
    // the memory is looked at first
    assert_eq!(rt;
        allocate(&BySteps, &twice, 100, &mut pairs, &mut few_fills),
        short
    );
    assert_eq!(rt; fills[0].shares, 0);
    assert_eq!(rt; few_fills[0].shares, 0);
    assert_eq!(rt; pairs[0].pair.buy.entry, 0);
}

// 64 buys of 2 shares each against 64 sells, of 2 shares but for the first, of 1.
#[test]
fn the_largest_book_takes_127_fills(rt: HostRuntime) {
    let mut orders = FoundOrders::new();
    for i in 0..64 {
        orders.push(market(Side::Buy, i, 0, 2));
        let shares = if i == 0 { 1 } else { 2 };
        orders.push(market(Side::Sell, 100 + i, 0, shares));
    }
    let mut pairs = [LivePair::default(); PAIRS];
    let mut fills = [Fill::default(); FILLS];
    let count = allocate(&BySteps, &orders, 100, &mut pairs, &mut fills);
    assert_eq!(rt; count, Ok(127));
    assert_eq!(rt; fills[126].pair.buy.entry, 63);
    assert_eq!(rt; fills[126].pair.sell.entry, 163);
    assert_eq!(rt; fills[126].shares, 1);
}

// The next number of a fixed sequence. It and the orders above stand in each crate of tests: a crate of helpers would be no
// plainer, since its functions would be public ones that promise nothing.
fn next(seed: u32) -> u32 {
    seed.wrapping_mul(1_664_525).wrapping_add(1_013_904_223)
}

fn some_order(seed: u32, entry: u32) -> FoundOrder {
    let side = if (seed >> 12) % 2 == 0 {
        Side::Buy
    } else {
        Side::Sell
    };
    let broker = if (seed >> 28) % 2 == 0 { 7 } else { 0 };
    let shares = 1 + (seed >> 24) % 5;
    if (seed >> 8) % 3 == 0 {
        return market(side, entry, broker, shares);
    }
    limit(side, entry, broker, 98 + (seed >> 16) % 5, shares)
}

fn takes_part(order: &FoundOrder, side: Side, price: u32) -> bool {
    match (side, order.side, order.kind) {
        (Side::Buy, Side::Sell, _) | (Side::Sell, Side::Buy, _) => false,
        (_, _, Kind::Market) => true,
        (Side::Buy, _, _) => order.standing >= price,
        (Side::Sell, _, _) => order.standing <= price,
    }
}

// What each order has left, at the place of the order.
fn left_of(orders: &[FoundOrder; 12], left: &[u32; 12], entry: u32) -> u32 {
    orders
        .iter()
        .zip(left)
        .find(|(order, _)| order.entry == entry)
        .map_or(0, |(_, left)| *left)
}

fn take_from(orders: &[FoundOrder; 12], left: &mut [u32; 12], entry: u32, shares: u32) {
    for (order, left) in orders.iter().zip(left) {
        if order.entry == entry {
            *left = left.saturating_sub(shares);
        }
    }
}

// The first pair with shares on both sides, by asking the rule about every pair.
fn first_by_search<R: PairingRule>(
    rule: &R,
    orders: &[FoundOrder; 12],
    left: &[u32; 12],
    price: u32,
) -> Option<Pair> {
    let mut best: Option<Pair> = None;
    for (buy, to_buy) in orders.iter().zip(left) {
        for (sell, to_sell) in orders.iter().zip(left) {
            let pair = Pair {
                buy: *buy,
                sell: *sell,
            };
            if !takes_part(&pair.buy, Side::Buy, price)
                || !takes_part(&pair.sell, Side::Sell, price)
                || *to_buy == 0
                || *to_sell == 0
            {
                continue;
            }
            if let Some(other) = best {
                if !rule.is_before(&pair, &other) {
                    continue;
                }
            }
            best = Some(pair);
        }
    }
    best
}

fn agrees_with_search<R: PairingRule + Copy>(
    rt: &impl Abort,
    rule: &R,
    orders: &[FoundOrder; 12],
) -> Result<(), Fail> {
    let mut pairs = [LivePair::default(); PAIRS];
    let mut fills = [Fill::default(); FILLS];
    let count = allocate(rule, &book(orders), 100, &mut pairs, &mut fills)?;
    let mut left = orders.map(|order| order.shares);
    for fill in &fills[..count] {
        let pair = first_by_search(rule, orders, &left, 100).ok_or("a fill too many")?;
        let (buy, sell) = (pair.buy.entry, pair.sell.entry);
        let shares = left_of(orders, &left, buy).min(left_of(orders, &left, sell));
        assert_eq!(rt; fill.pair.buy.entry, buy);
        assert_eq!(rt; fill.pair.sell.entry, sell);
        assert_eq!(rt; fill.shares, shares);
        take_from(orders, &mut left, buy, shares);
        take_from(orders, &mut left, sell, shares);
    }
    assert!(rt; first_by_search(rule, orders, &left, 100).is_none());
    Ok(())
}

#[test]
fn the_fills_agree_with_a_search_over_every_pair(rt: HostRuntime) -> Result<(), Fail> {
    let mut seed = 1;
    for _ in 0..200 {
        let mut orders = [FoundOrder::default(); 12];
        for (i, order) in orders.iter_mut().enumerate() {
            seed = next(seed);
            // later orders may have earlier entry numbers
            *order = some_order(seed, 1 + (i as u32 * 5) % 12);
        }
        agrees_with_search(&rt, &BySteps, &orders)?;
        agrees_with_search(&rt, &ByPrice, &orders)?;
    }
    Ok(())
}

// Whether the pair would trade more of itself: against the other pair of its buy, and against that of its sell.
fn blocks<R: PairingRule>(
    rule: &R,
    own: (&Pair, u32),
    same_buy: (&Pair, u32),
    same_sell: (&Pair, u32),
) -> bool {
    let (pair, shares) = own;
    let (bought, sold) = (same_buy.1, same_sell.1);
    let buyer = shares.saturating_add(bought) < pair.buy.shares
        || (bought > 0 && rule.is_before(pair, same_buy.0));
    let seller = shares.saturating_add(sold) < pair.sell.shares
        || (sold > 0 && rule.is_before(pair, same_sell.0));
    buyer && seller
}

// The four pairs of two buys and two sells: both of the first buy, then both of the second.
fn is_settled<R: PairingRule>(rule: &R, pairs: &[Pair; 4], shares: &[u32; 4]) -> bool {
    let [a, b, c, d] = *shares;
    let first = (&pairs[0], a);
    let second = (&pairs[1], b);
    let third = (&pairs[2], c);
    let fourth = (&pairs[3], d);
    a.saturating_add(b) <= pairs[0].buy.shares
        && c.saturating_add(d) <= pairs[2].buy.shares
        && a.saturating_add(c) <= pairs[0].sell.shares
        && b.saturating_add(d) <= pairs[1].sell.shares
        && !blocks(rule, first, second, third)
        && !blocks(rule, second, first, fourth)
        && !blocks(rule, third, fourth, first)
        && !blocks(rule, fourth, third, second)
}

fn filled(fills: &[Fill; FILLS], count: usize, pair: &Pair) -> u32 {
    fills
        .iter()
        .take(count)
        .find(|fill| {
            fill.pair.buy.entry == pair.buy.entry && fill.pair.sell.entry == pair.sell.entry
        })
        .map_or(0, |fill| fill.shares)
}

fn settles_in_one_way<R: PairingRule + Copy>(
    rt: &impl Abort,
    rule: &R,
    four: &[Pair; 4],
) -> Result<(), Fail> {
    let orders = book(&[four[0].buy, four[2].buy, four[0].sell, four[1].sell]);
    let mut pairs = [LivePair::default(); PAIRS];
    let mut fills = [Fill::default(); FILLS];
    let count = allocate(rule, &orders, 100, &mut pairs, &mut fills)?;
    let mut settled: u32 = 0;
    for code in 0u32..81 {
        let shares = [code % 3, code / 3 % 3, code / 9 % 3, code / 27];
        if !is_settled(rule, four, &shares) {
            continue;
        }
        settled = settled.saturating_add(1);
        for (pair, shares) in four.iter().zip(&shares) {
            assert_eq!(rt; filled(&fills, count, pair), *shares);
        }
    }
    assert_eq!(rt; settled, 1);
    Ok(())
}

// An order of one or two shares that is eligible at 100.
fn tiny_order(seed: u32, side: Side, entry: u32) -> FoundOrder {
    let broker = if (seed >> 28) % 2 == 0 { 7 } else { 0 };
    let shares = 1 + (seed >> 24) % 2;
    if (seed >> 8) % 3 == 0 {
        return market(side, entry, broker, shares);
    }
    let better = (seed >> 16) % 3;
    match side {
        Side::Buy => limit(side, entry, broker, 100 + better, shares),
        Side::Sell => limit(side, entry, broker, 100 - better, shares),
    }
}

#[test]
fn no_other_list_of_fills_is_settled(rt: HostRuntime) -> Result<(), Fail> {
    let mut seed = 1;
    for _ in 0..60 {
        let mut orders = [FoundOrder::default(); 4];
        for (i, order) in orders.iter_mut().enumerate() {
            seed = next(seed);
            let side = if i < 2 { Side::Buy } else { Side::Sell };
            *order = tiny_order(seed, side, 1 + (i as u32 * 3) % 4);
        }
        let [one, two, three, four] = orders;
        let pairs = [
            Pair {
                buy: one,
                sell: three,
            },
            Pair {
                buy: one,
                sell: four,
            },
            Pair {
                buy: two,
                sell: three,
            },
            Pair {
                buy: two,
                sell: four,
            },
        ];
        settles_in_one_way(&rt, &BySteps, &pairs)?;
        settles_in_one_way(&rt, &ByPrice, &pairs)?;
    }
    Ok(())
}
