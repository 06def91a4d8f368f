// Orders: what they are made of, the table that holds them, and why the book refuses a call.
#![tactic(auto)]

ghost use Rattle.std.specs.Prelude.{◌≡◌, Some};
ghost use Rattle.orders.specs.Kinds.{is_displayed, is_market, is_closing, more_aggressive};
ghost use Rattle.orders.specs.Phases.{phase_number};
ghost use Rattle.orders.specs.Words.{kind_word, side_word, phase_word};

use std::fmt;

pub mod found;
pub mod letters;
pub mod refusal;
pub mod table;

#[derive(Clone, Copy, Debug, Default, PartialEq, Eq)]
pub enum Kind {
    // Trades at whatever price the close has; its own price is 0.
    #[default]
    Market,
    // A limit order for the close alone.
    Limit,
    // A limit order of the displayed book.
    Displayed,
}

#[derive(Clone, Copy, Debug, Default, PartialEq, Eq)]
pub enum Side {
    #[default]
    Buy,
    Sell,
}

// Whether a limit order for the close that arrives in the freeze may be pegged.
#[derive(Clone, Copy, Debug, Default, PartialEq, Eq)]
pub enum PegFlag {
    #[default]
    Pegged,
    NotPegged,
}

// The phases of a closing day, numbered from 0 in order.
#[derive(Clone, Copy, Debug, Default, PartialEq, Eq)]
pub enum Phase {
    #[default]
    Entry,
    Imbalance,
    Freeze,
    Extension,
    Closed,
}

// What a member asks for when entering an order: prices in ten-thousandths of a dollar. Broker 0 stands for unattributed and
// limit 0 for a market order's, as order files lay down.
#[derive(Clone, Copy, Debug, PartialEq, Eq)]
pub struct Entry {
    pub kind: Kind,
    pub side: Side,
    pub flag: PegFlag,
    pub broker: u16,
    pub limit: u32,
    pub volume: u32,
}

impl Kind {
    pub fn is_displayed(self) -> bool
        ensures { result ≡ is_displayed self }
    {
        matches!(self, Kind::Displayed)
    }

    pub fn is_market(self) -> bool
        ensures { result ≡ is_market self }
    {
        matches!(self, Kind::Market)
    }

    pub fn is_closing(self) -> bool
        ensures { result ≡ is_closing self }
    {
        matches!(self, Kind::Market | Kind::Limit)
    }

    // The word for it.
    pub fn as_str(self) -> &'static str
        ensures { result.now ≡ kind_word self }
    {
        match self {
            Kind::Market => "market",
            Kind::Limit => "limit",
            Kind::Displayed => "displayed",
        }
    }
}

impl fmt::Display for Kind {
    ghost output = { λ kind. Some (kind_word kind) };

    fn fmt<W: fmt::Write>(&self, f: &mut fmt::Formatter<W>) -> fmt::Result {
        f.write_str(self.as_str())
    }
}

impl Side {
    // Whether a limit at `price` is more aggressive than one at `other`: higher to buy, lower to sell.
    pub fn more_aggressive(self, price: u32, other: u32) -> bool
        ensures { result ≡ more_aggressive self price other }
    {
        match self {
            Side::Buy => price > other,
            Side::Sell => price < other,
        }
    }

    // The word for it.
    pub fn as_str(self) -> &'static str
        ensures { result.now ≡ side_word self }
    {
        match self {
            Side::Buy => "buy",
            Side::Sell => "sell",
        }
    }
}

impl fmt::Display for Side {
    ghost output = { λ side. Some (side_word side) };

    fn fmt<W: fmt::Write>(&self, f: &mut fmt::Formatter<W>) -> fmt::Result {
        f.write_str(self.as_str())
    }
}

impl Phase {
    pub fn number(self) -> u8
        ensures { result ≡ phase_number self }
    {
        self as u8
    }

    // The word for it.
    pub fn as_str(self) -> &'static str
        ensures { result.now ≡ phase_word self }
    {
        match self {
            Phase::Entry => "entry",
            Phase::Imbalance => "imbalance",
            Phase::Freeze => "freeze",
            Phase::Extension => "extension",
            Phase::Closed => "closed",
        }
    }
}

impl fmt::Display for Phase {
    ghost output = { λ phase. Some (phase_word phase) };

    fn fmt<W: fmt::Write>(&self, f: &mut fmt::Formatter<W>) -> fmt::Result {
        f.write_str(self.as_str())
    }
}
