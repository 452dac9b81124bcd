// What is printed of strips: the report of one strip by money and by promise, and the join of two.
#![tactic(auto)]

mod books;
pub mod join;
mod pieces;
mod shown;
pub mod text;
