// What is printed of a strip's curves.
#![tactic(auto)]

mod lines;
pub mod report;
#[cfg(test)]
mod tests;
