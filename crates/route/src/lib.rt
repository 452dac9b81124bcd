// Routes: stops that are spliced, and the least-cost timetable after any list of splices.
#![tactic(auto)]

pub mod card;
mod draft;
pub mod join;
mod judge;
mod line;
mod marks;
pub mod read;
pub mod run;
pub mod splice;
pub mod stop;
mod stops;
pub mod table;
pub mod theory;
