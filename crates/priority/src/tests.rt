use super::*;
use orders::{Kind, Side};
use ranking::first;

fn order(side: Side, kind: Kind, entry: u32, broker: u16, standing: u32) -> FoundOrder {
    FoundOrder {
        number: 1,
        entry,
        kind,
        side,
        broker,
        standing,
        shares: 100,
    }
}

fn buy(kind: Kind, entry: u32, broker: u16, standing: u32) -> FoundOrder {
    order(Side::Buy, kind, entry, broker, standing)
}

fn sell(kind: Kind, entry: u32, broker: u16, standing: u32) -> FoundOrder {
    order(Side::Sell, kind, entry, broker, standing)
}

fn by<R>(rule: R) -> Ranked<R, Pair> {
    Ranked {
        rule,
        of: PhantomData,
    }
}

#[test]
fn steps_go_by_market_orders_and_brokers(rt: HostRuntime) {
    let cases = [
        (buy(Kind::Market, 1, 7, 0), sell(Kind::Market, 2, 7, 0), 1),
        (buy(Kind::Market, 1, 7, 0), sell(Kind::Market, 2, 9, 0), 2),
        (buy(Kind::Market, 1, 7, 0), sell(Kind::Limit, 2, 7, 50), 3),
        (
            buy(Kind::Displayed, 1, 7, 50),
            sell(Kind::Market, 2, 9, 0),
            4,
        ),
        (
            buy(Kind::Limit, 1, 7, 50),
            sell(Kind::Displayed, 2, 7, 50),
            5,
        ),
        (buy(Kind::Limit, 1, 7, 50), sell(Kind::Limit, 2, 9, 50), 6),
        // broker 0 is no one's
        (buy(Kind::Market, 1, 0, 0), sell(Kind::Market, 2, 0, 0), 2),
    ];
    for (buy, sell, step) in cases {
        assert_eq!(rt; Pair { buy, sell }.step(), step);
    }
}

// Two market buys and a market sell, of brokers 7, 9 and 9.
#[test]
fn the_same_broker_comes_before_the_earlier_order(rt: HostRuntime) {
    let sell = sell(Kind::Market, 3, 9, 0);
    let early = Pair {
        buy: buy(Kind::Market, 1, 7, 0),
        sell,
    };
    let late = Pair {
        buy: buy(Kind::Market, 2, 9, 0),
        sell,
    };
    assert_eq!(rt; first(&by(BySteps), &[early, late]), Some(1));
    assert_eq!(rt; first(&by(ByPrice), &[early, late]), Some(1));
}

// A market buy against a displayed sell at 10.02 and a limit sell at 10.00: by steps the earlier, by price the lower.
#[test]
fn the_rules_differ_on_one_book(rt: HostRuntime) {
    let buy = buy(Kind::Market, 3, 0, 0);
    let pairs = [
        Pair {
            buy,
            sell: sell(Kind::Displayed, 2, 0, 100_200),
        },
        Pair {
            buy,
            sell: sell(Kind::Limit, 4, 0, 100_000),
        },
    ];
    assert_eq!(rt; first(&by(BySteps), &pairs), Some(0));
    assert_eq!(rt; first(&by(ByPrice), &pairs), Some(1));
}

#[test]
fn market_orders_have_the_best_price(rt: HostRuntime) {
    let sell = sell(Kind::Limit, 3, 0, 50);
    let pairs = [
        Pair {
            buy: buy(Kind::Limit, 1, 0, 4_294_967_295),
            sell,
        },
        Pair {
            buy: buy(Kind::Market, 2, 0, 0),
            sell,
        },
    ];
    assert_eq!(rt; first(&by(ByPrice), &pairs), Some(1));
}
