// Worked examples of the price rules.
#![tactic(auto)]

#[cfg(test)]
mod tests;
