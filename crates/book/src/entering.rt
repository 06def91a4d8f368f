// Entering an order.
ghost use Rattle.std.specs.Prelude.{◌≡◌};
ghost use Rattle.std.specs.List.{list_any};
ghost use Rattle.orders.specs.Tables.{listed};
ghost use Rattle.book.specs.Calls.{on_grid, meets, crosses, order_from, enter_answer, enter_book};
ghost use Rattle.book.specs.Phases.{phase_of, admits, wrong_side, too_large, outside_band, offset_by};

use crate::{Book, State, Venue, is_on_grid};
use grid::Grid;
use orders::refusal::{Offset, Refusal};
use orders::table::Order;
use orders::{Entry, Kind, PegFlag, Phase, Side};
use priority::PairingRule;
use threshold::in_fail_band;

pub const MOST_ENTRIES: u32 = 1_000_000;

const MOST_SHARES: u32 = 9_999_999;

// A market order's price is 0, any other's is on the grid.
fn fits_grid<G: Grid>(grid: &G, kind: Kind, limit: u32) -> bool
    ensures { result ≡ on_grid (G.PriceSet.holds grid.now) kind limit }
{
    match kind {
        Kind::Market => limit == 0,
        Kind::Limit | Kind::Displayed => is_on_grid(grid, limit),
    }
}

// Whether an order of this side and limit meets or crosses `other`, a standing displayed order of the other side.
fn meets(side: Side, limit: u32, other: &Order) -> bool
    ensures { result ≡ meets side limit other.now }
{
    if !other.kind.is_displayed() || other.left == 0 {
        return false;
    }
    match (side, other.side) {
        (Side::Buy, Side::Sell) => other.limit <= limit,
        (Side::Sell, Side::Buy) => limit <= other.limit,
        _ => false,
    }
}

fn meets_any(side: Side, limit: u32, orders: &[Order]) -> bool
    ensures { result ≡ list_any (meets side limit) orders.now }
{
    orders.iter().any(|other| meets(side, limit, other))
}

fn new_order(number: u16, entry_number: u32, phase: Phase, entry: Entry) -> Order
    ensures { result ≡ order_from number entry_number phase entry }
{
    let Entry {
        kind,
        side,
        flag,
        broker,
        limit,
        volume,
    } = entry;
    Order {
        number,
        entry: entry_number,
        kind,
        side,
        flag,
        broker,
        limit,
        volume,
        left: volume,
        phase,
    }
}

impl Book {
    fn admits(&self, kind: Kind, flag: PegFlag) -> bool
        ensures { result ≡ admits (phase_of self.now.state) kind flag }
    {
        match (self.state, kind) {
            (State::Entry | State::Imbalance, _) => true,
            (State::Freeze, Kind::Limit) => matches!(flag, PegFlag::Pegged),
            (State::Freeze, Kind::Displayed) => true,
            (State::Extension { .. }, Kind::Limit) => true,
            _ => false,
        }
    }

    // Whether a displayed order would meet or cross a standing one.
    fn crosses(&self, entry: &Entry) -> bool
        ensures { result ≡ crosses entry.now (listed self.now.table) }
    {
        if !entry.kind.is_displayed() {
            return false;
        }
        meets_any(entry.side, entry.limit, self.table.as_slice())
    }

    // The three tests of an order that is entered in the extension.
    fn is_wrong_side(&self, entered: Side) -> bool
        ensures { result ≡ wrong_side self.now.state entered }
    {
        match self.state {
            State::Extension {
                side: Some(side),
                ..
            } => side == entered,
            State::Extension { side: None, .. } => true,
            _ => false,
        }
    }

    fn is_too_large(&self, volume: u32) -> bool
        ensures { result ≡ too_large self.now.state volume }
    {
        match self.state {
            State::Extension { remains, .. } => u64::from(volume) > remains,
            _ => false,
        }
    }

    fn is_outside_band(&self, limit: u32) -> bool
        ensures { result ≡ outside_band self.now.state limit }
    {
        match self.state {
            State::Extension { reference, .. } => !in_fail_band(reference, limit),
            _ => false,
        }
    }

    // An order accepted in the extension lowers what remains of the imbalance.
    fn offset(&mut self, volume: u32)
        ensures { self.new ≡ record { table = self.old.table; entries = self.old.entries; previous_close = self.old.previous_close; last_sale = self.old.last_sale; state = offset_by self.old.state volume } }
    {
        if let State::Extension { remains, .. } = &mut self.state {
            *remains = remains.saturating_sub(u64::from(volume));
        }
    }

    // Enters an order and answers its number.
    pub fn enter<G: Grid, R: PairingRule>(
        &mut self,
        venue: &Venue<G, R>,
        entry: Entry,
    ) -> Result<u16, Refusal>
        ensures answer { result ≡ enter_answer (G.PriceSet.holds venue.now.grid) self.old entry }
        ensures after { self.new ≡ enter_book (G.PriceSet.holds venue.now.grid) self.old entry }
    {
        if self.is_closed() {
            return Err(Refusal::BookClosed);
        }
        if self.table.orders.is_full() || self.entries >= MOST_ENTRIES {
            return Err(Refusal::NoRoom);
        }
        if entry.volume == 0 || entry.volume > MOST_SHARES {
            return Err(Refusal::BadVolume);
        }
        if !fits_grid(&venue.grid, entry.kind, entry.limit) {
            return Err(Refusal::OffGrid);
        }
        if !self.admits(entry.kind, entry.flag) {
            return Err(Refusal::NotAdmitted);
        }
        if self.crosses(&entry) {
            return Err(Refusal::Crosses);
        }
        if self.is_wrong_side(entry.side) {
            return Err(Refusal::NoOffset(Offset::WrongSide));
        }
        if self.is_too_large(entry.volume) {
            return Err(Refusal::NoOffset(Offset::TooLarge));
        }
        if self.is_outside_band(entry.limit) {
            return Err(Refusal::NoOffset(Offset::OutsideBand));
        }
        let number = self.table.orders.count as u16 + 1;
        self.entries += 1;
        let order = new_order(number, self.entries, self.phase(), entry);
        let _ = self.table.push(order);
        self.offset(entry.volume);
        Ok(number)
    }
}
