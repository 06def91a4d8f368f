// A list with room for a fixed number of items. They lie in the value itself, so a copy of the list is a copy of its items.
#![tactic(auto)]

ghost use Rattle.std.specs.Prelude.{◌≡◌, ◌<◌, ◌≤◌, [], ◌∷◌, ◌++◌, length, Some, None, MatchOption, if◌then◌else◌, not};
ghost use Rattle.fixed_list.specs.Items.{items, empty, has_room, with_more};

// The first `count` places hold the items. A count above `N` is read as `N`, so that each function answers for every value.
#[derive(Clone, Copy, Debug, PartialEq, Eq)]
pub struct FixedList<T, const N: usize> {
    pub places: [T; N],
    pub count: usize,
}

impl<T: Copy, const N: usize> FixedList<T, N> {
    // A list without items, with `blank` in each place.
    pub fn new(blank: T) -> Self
        ensures { result ≡ empty blank }
    {
        FixedList {
            places: [blank; N],
            count: 0,
        }
    }

    // The items given, if there is room for them, with `blank` in each place behind.
    pub fn of(given: &[T], blank: T) -> Option<Self>
        ensures { MatchOption result (N < length given.now) (λ list. items list ≡ given.now) }
    {
        let count = given.len();
        if count > N {
            return None;
        }
        let mut places = [blank; N];
        places[..count].copy_from_slice(given);
        Some(FixedList { places, count })
    }

    pub fn as_slice(&self) -> &[T]
        ensures value { result.now ≡ items self.now }
        ensures few { length result.now ≤ N }
    {
        &self.places[..self.count.min(N)]
    }

    pub fn is_full(&self) -> bool
        ensures { result ≡ not (has_room self.now) }
    {
        self.count >= N
    }

    // Puts an item in the next place, if there is one. Answers its place.
    pub fn push(&mut self, item: T) -> Option<usize>
        ensures answer { result ≡ (if has_room self.old then Some self.old.count else None) }
        ensures after { self.new ≡ with_more self.old item }
        ensures listed { items self.new ≡ (if has_room self.old then items self.old ++ item ∷ [] else items self.old) }
    {
        if self.is_full() {
            return None;
        }
        let place = self.count;
        self.places[place] = item;
        self.count = place + 1;
        Some(place)
    }
}
