// Why nothing is allocated.
ghost use Rattle.std.specs.Prelude.{◌≡◌, Some};
ghost use Rattle.allocation.specs.Words.{error_words};

use std::error::Error;
use std::fmt;

#[derive(Clone, Copy, Debug, PartialEq, Eq)]
pub enum AllocationError {
    // Fewer than PAIRS places for pairs, or fewer than FILLS for fills.
    ShortMemory,
    // Two of the orders have one entry number.
    SharedEntry,
}

impl AllocationError {
    // Why, in words.
    pub fn as_str(self) -> &'static str
        ensures { result.now ≡ error_words self }
    {
        match self {
            AllocationError::ShortMemory => "the lent memory is too short",
            AllocationError::SharedEntry => "two orders have one entry number",
        }
    }
}

impl fmt::Display for AllocationError {
    ghost output = { λ cause. Some (error_words cause) };

    fn fmt<W: fmt::Write>(&self, f: &mut fmt::Formatter<W>) -> fmt::Result {
        f.write_str(self.as_str())
    }
}

impl Error for AllocationError {}
