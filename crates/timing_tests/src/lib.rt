// Tests of the crate `timing` over small lines of stops, worked out by hand.
#![tactic(auto)]

pub mod due;
pub mod lines;
pub mod pricing;
#[cfg(test)]
mod tests;
