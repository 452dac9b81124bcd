// Strips: bytes that hold due rows and then calls on a route.
#![tactic(auto)]

mod call;
pub mod calls;
pub mod faults;
pub mod input;
pub mod lines;
mod record;
mod row;
pub mod rows;
pub mod strip;
#[cfg(test)]
mod tests;
