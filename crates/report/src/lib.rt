// The report of a route: its stops and its least cost, as lines of text in a byte buffer that is lent.
#![tactic(auto)]

mod lines;
pub mod refusal;
pub mod report;
pub mod routes;
#[cfg(test)]
mod tests;
