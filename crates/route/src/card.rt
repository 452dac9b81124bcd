use crate::stop::{Facts, Refusal};

// What is read after a list of splices: how each was answered, how many stops there are, the facts of all of them,
// and the least cost.
#[derive(Drop)]
pub struct Card<K> {
    pub answers: Vec<Result<(), Refusal>>,
    // Kept: beside the facts, since it is read by a call of its own, and the guarantee compares the two.
    pub count: usize,
    pub facts: Vec<Facts>,
    pub least: K,
}

// What is read of two routes, and what their join answers.
#[derive(Drop)]
pub struct Outcome<K> {
    pub first: Card<K>,
    pub second: Card<K>,
    pub joined: Result<K, Refusal>,
}
