// The greedy way: the first pair that can trade does so, until one side has no share left.
ghost use Rattle.std.specs.Prelude.{◌≡◌, ◌+◌, ◌*◌, ◌<◌, ◌≤◌, min, map, length, take, drop};
ghost use Rattle.std.specs.List.{AllByRecursion};
ghost use Rattle.allocation.specs.Holdings.{left_of, left_at, given_up, all_left};
ghost use Rattle.allocation.specs.Naming.{Apart, by_name, trade_of, NamesFound};
ghost use Rattle.allocation.specs.Trades.{Greedy, all_shares};

use super::held::{Fill, Holding, LivePair, add_pairs};
use priority::{PairingRule, Ranked};
use ranking::first;

// Trades the smaller of what the two orders of a pair have left, and answers how much that was.
fn trade_pair(next: &LivePair, buys: &mut [Holding], sells: &mut [Holding]) -> u32
    requires buy { next.now.buy < length buys.old }
    requires sell { next.now.sell < length sells.old }
    ensures shares { result ≡ min (left_at buys.old next.now.buy) (left_at sells.old next.now.sell) }
    ensures bought { buys.new ≡ given_up buys.old next.now.buy result }
    ensures sold { sells.new ≡ given_up sells.old next.now.sell result }
{
    let shares = buys[next.buy].left.min(sells[next.sell].left);
    buys[next.buy].left -= shares;
    sells[next.sell].left -= shares;
    shares
}

// Trades what the orders have left, and answers how many fills that took.
// Pairs and fills are memory that the caller lends, each a slice with a count: nothing is allocated.
// No struct of the two lists: tried, and the invariant of the inner loop cannot name it.
pub(crate) fn trade_all<R: PairingRule>(
    rule: &Ranked<R, LivePair>,
    buys: &mut [Holding],
    sells: &mut [Holding],
    pairs: &mut [LivePair],
    fills: &mut [Fill],
) -> usize
    requires buyers { Apart buys.old }
    requires sellers { Apart sells.old }
    requires work { length buys.old * length sells.old ≤ length pairs.old }
    requires room { length buys.old + length sells.old ≤ length fills.old + 1 }
    ensures within { result ≤ length fills.new }
    ensures greedy { Greedy (by_name (R.PairingRule.ahead rule.now.rule) buys.old sells.old) (left_of buys.old) (left_of sells.old) (map trade_of (take result fills.new)) }
    ensures all { all_shares (map trade_of (take result fills.new)) ≡ min (all_left buys.old) (all_left sells.old) }
    ensures found { AllByRecursion (NamesFound buys.old sells.old) (take result fills.new) }
    ensures others { drop result fills.new ≡ drop result fills.old }
{
    let mut count = 0;
    'trades: loop {
        let mut listed = 0;
        for (i, buy) in buys.iter().enumerate() {
            if buy.left == 0 {
                continue;
            }
            let more = add_pairs(pairs, listed, *buy, i, sells);
            // a label, since a buy without a pair ends both loops: no sell has a share
            if more == listed {
                break 'trades;
            }
            listed = more;
        }
        let Some(k) = first(rule, &pairs[..listed]) else {
            break;
        };
        let next = pairs[k];
        let shares = trade_pair(&next, buys, sells);
        fills[count] = Fill {
            pair: next.pair,
            shares,
        };
        count += 1;
    }
    count
}
