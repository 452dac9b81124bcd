ghost use Rattle.timing.specs.Statements.{Existence, OneBest, FromMarks, FrontAlone, Search};

use cost::kind::Cost;

// The theorems. Each of these functions promises one for every kind of costs, and does nothing else.

#[tactic(auto, using(crate::proofs::Stated::existence))]
pub fn timetable_exists<E>()
    ensures { Existence E }
{}

#[tactic(auto, using(crate::proofs::Stated::one_best))]
pub fn best_is_one<E, C: Cost<E>>()
    ensures { OneBest C.Cost.algebra }
{}

#[tactic(auto, using(crate::proofs::Stated::from_marks))]
pub fn marks_give_best<E, C: Cost<E>>()
    ensures { FromMarks C.Cost.algebra }
{}

#[tactic(auto, using(crate::proofs::Stated::front_alone))]
pub fn mark_needs_front<E, C: Cost<E>>()
    ensures { FrontAlone C.Cost.algebra }
{}

#[tactic(auto, using(crate::proofs::Stated::found))]
pub fn search_finds_mark<E, C: Cost<E>>()
    ensures { Search C.Cost.algebra }
{}
