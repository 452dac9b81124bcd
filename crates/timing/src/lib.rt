// Least-cost timetables of stops in a given order: the theory, and the engine's core over any line of stops.
#![tactic(auto)]

pub mod line;
pub mod marked;
pub mod marks;
pub mod minutes;
pub mod reach;
pub mod theory;
