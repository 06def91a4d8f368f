// The closing auction: what would trade at a price, and the best of the open prices.
#![tactic(auto)]

pub mod band;
pub mod found;
pub mod search;
pub mod totals;
