// Worked examples of allocations, and comparisons with searches over every pair and every list of fills.
#![tactic(auto)]

#[cfg(test)]
mod tests;
