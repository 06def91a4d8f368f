// A grid of prices that are listed one by one.
ghost use Rattle.std.specs.Prelude.{◌≡◌, true};
ghost use Rattle.fixed_list.specs.Items.{items};
ghost use Rattle.grid.specs.Lists.{list_of_prices};

use fixed_list::FixedList;

pub mod made;

#[derive(Clone, Copy)]
pub struct Listed {
    prices: FixedList<u32, 64>,
    ghost sound: { list_of_prices (items prices) ≡ true },
}

// The prices given are not from 1 to 64, strictly rising, each from 1 to 1,000,000,000.
#[derive(Clone, Copy, Debug, PartialEq, Eq)]
pub struct NotAGrid;
