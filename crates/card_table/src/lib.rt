// The cards: worked examples of routes, and the theorem that each of them is right.
#![tactic(auto)]

pub mod lines;
pub mod table;
#[cfg(test)]
mod tests;
