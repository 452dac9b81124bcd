// The bend book: curves that are given by their bends.
#![tactic(auto)]

pub mod bend;
