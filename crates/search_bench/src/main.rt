// Times the search for the best price over a full table of 128 orders on the cents grid. The price is printed on standard
// output, and the time of one search on standard error.
#![tactic(auto)]

use auction::found::FoundOrders;
use auction::search::Auction;
use grid::Cents;
use orders::found::FoundOrder;
use orders::{Kind, Side};
use reference::Reference;
use std::time::Instant;

const SEARCHES: u32 = 1_000;

// 64 buys from 10.64 down and 64 sells from 9.37 up, a cent apart.
fn full_table() -> FoundOrders {
    let mut orders = FoundOrders::new();
    for i in 0..64 {
        let cents = 100 * i;
        orders.push(order(Side::Buy, 106_400 - cents));
        orders.push(order(Side::Sell, 93_700 + cents));
    }
    orders
}

fn order(side: Side, standing: u32) -> FoundOrder {
    FoundOrder {
        number: 1,
        entry: 1,
        kind: Kind::Limit,
        side,
        broker: 0,
        standing,
        shares: 100,
    }
}

fn run(rt: &HostRuntime) -> anyhow::Result<()> {
    let orders = full_table();
    let reference = Reference::of_sales(None, 100_000);
    let auction = Auction {
        reference,
        orders: &orders,
    };
    let start = Instant::now(rt)?;
    let mut price = 0;
    for _ in 0..SEARCHES {
        if let Some(best) = auction.best_price(&Cents) {
            price = best.price;
        }
    }
    let each = start.elapsed(rt)?.as_micros() / u128::from(SEARCHES);
    eprintln!(rt; "{each} microseconds a search")?;
    println!(rt; "{price}")?;
    Ok(())
}

fn main(rt: HostRuntime) -> anyhow::Result<()> {
    run(&rt)
}
