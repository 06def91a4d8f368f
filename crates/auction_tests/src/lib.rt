// Worked examples of the closing price, and a comparison with a search over every price.
#![tactic(auto)]

#[cfg(test)]
mod tests;
