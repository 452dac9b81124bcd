// Cost kinds: the trait with its laws, amounts, pairs of any two kinds, and the texts of written kinds.
#![tactic(auto)]

pub mod amount;
pub mod amounts;
pub mod kind;
pub mod pair;
pub mod pairs;
pub mod target;
#[cfg(test)]
mod tests;
pub mod text;
pub mod written;
