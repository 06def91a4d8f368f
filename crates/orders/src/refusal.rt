// Why the book refuses a call. Each case has a number.
ghost use Rattle.std.specs.Prelude.{◌≡◌, Some};
ghost use Rattle.orders.specs.Refusals.{offset_number, refusal_number};
ghost use Rattle.orders.specs.Words.{offset_words, refusal_words};

use std::error::Error;
use std::fmt;

// Why an order does not offset the imbalance that the extension advertises: refusals 8, 9 and 10, in turn.
#[derive(Clone, Copy, Debug, PartialEq, Eq)]
pub enum Offset {
    WrongSide,
    TooLarge,
    OutsideBand,
}

#[derive(Clone, Copy, Debug, PartialEq, Eq)]
pub enum Refusal {
    // The previous close is off the grid, or the grid's prices are not a grid.
    BadOpening,
    BookClosed,
    // The table holds 128 orders, or the entry numbers are used up.
    NoRoom,
    BadVolume,
    OffGrid,
    // The phase does not admit an order of this kind or flag.
    NotAdmitted,
    // A displayed order meets or crosses a standing displayed order of the other side.
    Crosses,
    NoOffset(Offset),
    NoSuchOrder,
    NothingLeft,
    // The order's kind or the phase does not allow the call.
    NotAllowed,
    LessAggressive,
    BadTake,
    WrongPhase,
    // The lent fills or the scratch memory are too short.
    ShortBuffer,
}

impl Offset {
    pub fn number(self) -> u8
        ensures { result ≡ offset_number self }
    {
        8 + self as u8
    }

    // Why, in words.
    pub fn as_str(self) -> &'static str
        ensures { result.now ≡ offset_words self }
    {
        match self {
            Offset::WrongSide => "the order is not on the side that offsets the imbalance",
            Offset::TooLarge => "the volume is more than what remains of the imbalance",
            Offset::OutsideBand => "the price is outside the fail band",
        }
    }
}

impl fmt::Display for Offset {
    ghost output = { λ cause. Some (offset_words cause) };

    fn fmt<W: fmt::Write>(&self, f: &mut fmt::Formatter<W>) -> fmt::Result {
        f.write_str(self.as_str())
    }
}

impl Error for Offset {}

impl Refusal {
    // A method, and no `From`: `u8::from(refusal)` would not say that it is the number with which the book refuses.
    pub fn number(self) -> u8
        ensures { result ≡ refusal_number self }
    {
        match self {
            Refusal::BadOpening => 1,
            Refusal::BookClosed => 2,
            Refusal::NoRoom => 3,
            Refusal::BadVolume => 4,
            Refusal::OffGrid => 5,
            Refusal::NotAdmitted => 6,
            Refusal::Crosses => 7,
            Refusal::NoOffset(cause) => cause.number(),
            Refusal::NoSuchOrder => 11,
            Refusal::NothingLeft => 12,
            Refusal::NotAllowed => 13,
            Refusal::LessAggressive => 14,
            Refusal::BadTake => 15,
            Refusal::WrongPhase => 16,
            Refusal::ShortBuffer => 17,
        }
    }

    // Why, in words.
    pub fn as_str(self) -> &'static str
        ensures { result.now ≡ refusal_words self }
    {
        match self {
            Refusal::BadOpening =>
                "the previous close is not on the grid, or the prices are no grid",
            Refusal::BookClosed => "the book is closed",
            Refusal::NoRoom => "the table holds 128 orders or the entry numbers are used up",
            Refusal::BadVolume => "the volume is not 1 to 9999999",
            Refusal::OffGrid => "the price is not on the grid, or not 0 for a market order",
            Refusal::NotAdmitted => "the phase does not admit an order of this kind or flag",
            Refusal::Crosses => "the order would meet or cross a displayed order of the other side",
            Refusal::NoOffset(cause) => cause.as_str(),
            Refusal::NoSuchOrder => "no order has this number",
            Refusal::NothingLeft => "no share of the order is left",
            Refusal::NotAllowed => "the order's kind or the phase does not allow it",
            Refusal::LessAggressive => "the new price is not more aggressive",
            Refusal::BadTake => "the shares taken are not 1 to what is left of the order",
            Refusal::WrongPhase => "the phase does not allow the call",
            Refusal::ShortBuffer => "the memory lent to the call is too short",
        }
    }
}

impl fmt::Display for Refusal {
    ghost output = { λ refusal. Some (refusal_words refusal) };

    fn fmt<W: fmt::Write>(&self, f: &mut fmt::Formatter<W>) -> fmt::Result {
        f.write_str(self.as_str())
    }
}

impl Error for Refusal {}
