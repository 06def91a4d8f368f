// Which of two items comes first, and the first of a list.
#![tactic(auto)]

ghost use Rattle.std.specs.Prelude.{◌≡◌, Bool, length, MatchOption};
ghost use Rattle.ranking.specs.Ranks.{Ranks, First};

pub mod entries;
pub mod points;

// An order of items that have names. It is a value, so that two rules can order the same items.
pub trait Ranking {
    type Item;

    ghost Name: { Type 0 };

    ghost name: { Self.Item → Name };

    ghost before: { Self → Self.Item → Self.Item → Bool };

    fn precedes(&self, one: &Self::Item, other: &Self::Item) -> bool
        ensures { result ≡ before self.now one.now other.now };

    ghost ranks: { (rule : Self) → Ranks name (before rule) };
}

// The place of the first item, and none of an empty list only.
pub fn first<R: Ranking>(rule: &R, items: &[R::Item]) -> Option<usize>
    ensures { MatchOption result (length items.now ≡ 0) (First R.name (R.before rule.now) items.now) }
{
    if items.is_empty() {
        return None;
    }
    let mut first = 0;
    // an item is not before itself, and is not compared with itself
    for (i, item) in items.iter().enumerate() {
        if i != first && rule.precedes(item, &items[first]) {
            first = i;
        }
    }
    Some(first)
}
