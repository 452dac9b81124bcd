// Penalty sources: what a source is, the due book, and layers over any source.
#![tactic(auto)]

pub mod book;
pub mod cheapest;
pub mod due;
pub mod pairing;
pub mod source;
pub mod weight;
