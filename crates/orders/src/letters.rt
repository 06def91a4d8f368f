// The letters that stand for the choices of a field in an order file.
ghost use Rattle.std.specs.Prelude.{◌≡◌, ℕ, List, Some};
ghost use Rattle.std.proofs.Common.{rules};
ghost use Rattle.orders.specs.Letters.{kind_letter, side_letter, flag_letter, kinds, sides, flags, lettered, Reads};

use crate::{Kind, PegFlag, Side};

// A choice that one letter stands for. No `TryFrom`: each type would have the look-up again, and an error that says nothing.
pub trait Lettered: Copy + 'static {
    ghost letter_of: { Self → ℕ };

    // Every choice, in turn.
    ghost choices: { List Self };

    fn letter(self) -> u8
        ensures { result ≡ letter_of self };

    fn choices() -> &'static [Self]
        ensures { result.now ≡ choices };

    // The choice that `letter` stands for, if there is one.
    fn from_letter(letter: u8) -> Option<Self>
        ensures value { result ≡ lettered letter_of choices letter }
        ensures meaning { Reads letter_of letter result }
    {
        Self::choices()
            .iter()
            .copied()
            .find(|choice| letter == choice.letter())
    }

    // Each choice is what its letter reads as.
    ghost reads_back: { (choice : Self) → lettered letter_of choices (letter_of choice) ≡ Some choice };
}

impl Lettered for Kind {
    ghost letter_of = { kind_letter };

    ghost choices = { kinds };

    ghost reads_back = { Prim.search rules };

    fn letter(self) -> u8 {
        match self {
            Kind::Market => b'M',
            Kind::Limit => b'L',
            Kind::Displayed => b'D',
        }
    }

    fn choices() -> &'static [Kind] {
        &[Kind::Market, Kind::Limit, Kind::Displayed]
    }
}

impl Lettered for Side {
    ghost letter_of = { side_letter };

    ghost choices = { sides };

    ghost reads_back = { Prim.search rules };

    fn letter(self) -> u8 {
        match self {
            Side::Buy => b'B',
            Side::Sell => b'S',
        }
    }

    fn choices() -> &'static [Side] {
        &[Side::Buy, Side::Sell]
    }
}

impl Lettered for PegFlag {
    ghost letter_of = { flag_letter };

    ghost choices = { flags };

    ghost reads_back = { Prim.search rules };

    fn letter(self) -> u8 {
        match self {
            PegFlag::Pegged => b'P',
            PegFlag::NotPegged => b'N',
        }
    }

    fn choices() -> &'static [PegFlag] {
        &[PegFlag::Pegged, PegFlag::NotPegged]
    }
}
