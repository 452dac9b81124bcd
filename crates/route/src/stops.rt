ghost use Rattle.std.specs.Prelude.{◌≡◌, ◌≤◌, ◌++◌, List, [], length, take, drop, IfOk};
ghost use Rattle.route.specs.declared.stop.Splice.TheVariants.{Insert, Remove, Change};
ghost use Rattle.route.specs.Plain.{releg};
ghost use Rattle.route.specs.Table.{plains, marks};
ghost use Rattle.route.specs.Steps.{HasPlace};
ghost use Rattle.route.specs.Calls.{Altered, remarked};

use crate::stop::{Splice, Stop};
use std::alloc::{AllocError, Global};
use std::marker::Model;

// How many stops a route may have.
pub(crate) const MOST_STOPS: usize = 64;

// The stops of a route, at most so many. There is room for all of them from the start, so that no call but the opening
// can want memory.
#[derive(Drop)]
pub(crate) struct StopTable {
    stops: Vec<Stop>,
}

impl Model for StopTable {
    ghost use Rattle.std.specs.Prelude.{◌≤◌, List, vec_len, vec_capacity};
    ghost use Rattle.route.specs.declared.stop.Stop.{Stop};

    ghost Value = { List Stop };

    ghost view = { λ t. t.stops.items };

    ghost invariant = { λ t. (vec_len t.stops ≤ 64) × (64 ≤ vec_capacity t.stops) };
}

impl StopTable {
    // An empty table.
    pub(crate) fn new(heap: Global) -> Result<StopTable, AllocError>
        ensures { IfOk result (λ table. table ≡ []) }
    {
        let stops = Vec::with_capacity(heap, MOST_STOPS)?;
        Ok(StopTable { stops })
    }

    pub(crate) fn len(&self) -> usize
        ensures value { result ≡ length self.now }
        ensures few { result ≤ 64 }
    {
        self.stops.len()
    }

    pub(crate) fn as_slice(&self) -> &[Stop]
        ensures value { result.now ≡ self.now }
        ensures few { length self.now ≤ 64 }
    {
        self.stops.as_slice()
    }

    // Gives stop i, counted from 0, if there is one, another leg.
    #[tactic(auto, using(crate::proofs::Alterations::leg_set, crate::proofs::Alterations::leg_past, crate::proofs::Alterations::marks_set))]
    fn set_leg(&mut self, i: usize, leg: u16)
        ensures stops { plains self.new ≡ take i (plains self.old) ++ releg leg (drop i (plains self.old)) }
        ensures marks { marks self.new ≡ marks self.old }
    {
        if let Some(stop) = self.stops.get_mut(i) {
            stop.leg = leg;
        }
    }

    // Puts a stop at a place; the next one is then reached by `leg_out`.
    fn insert(&mut self, place: usize, stop: Stop, leg_out: u16)
        requires { HasPlace (length self.old) (Insert place stop.curve stop.leg leg_out) }
        ensures { Altered self.old (Insert place stop.curve stop.leg leg_out) self.new }
    {
        self.set_leg(place - 1, leg_out);
        self.stops.insert(place - 1, stop).unwrap();
    }

    // Takes the stop at a place out; the next one is then reached by `leg`.
    fn remove(&mut self, place: usize, leg: u16)
        requires { HasPlace (length self.old) (Remove place leg) }
        ensures { Altered self.old (Remove place leg) self.new }
    {
        self.set_leg(place, leg);
        self.stops.remove(place - 1);
    }

    // Puts another curve number on the stop at a place.
    fn change(&mut self, place: usize, curve: u8)
        requires { HasPlace (length self.old) (Change place curve) }
        ensures { Altered self.old (Change place curve) self.new }
    {
        // Kept: a record of the inner table is lent to be altered, as the rules of the subject's code ask; nothing else
        // of it changes. By its number, since the premise says that it is there, and `get_mut` adds a branch that never runs.
        let stop = &mut self.stops[place - 1];
        stop.curve = curve;
    }

    // Alters the table as the splice says; the new marks are still to be found.
    pub(crate) fn splice(&mut self, splice: Splice)
        requires { HasPlace (length self.old) splice }
        ensures { Altered self.old splice self.new }
    {
        match splice {
            Splice::Insert {
                place,
                curve,
                leg_in,
                leg_out,
            } => self.insert(place, Stop::new(curve, leg_in), leg_out),
            Splice::Remove { place, leg } => self.remove(place, leg),
            Splice::Change { place, curve } => self.change(place, curve),
        }
    }

    // The marks in the table, with room for those of the longest route.
    // Kept: fixed room, so that no splice wants memory.
    pub(crate) fn marks(&self) -> [u16; MOST_STOPS]
        ensures marks { take (length self.now) result ≡ marks self.now }
        ensures room { length result ≡ 64 }
    {
        let mut marks = [0; MOST_STOPS];
        // Kept: by number, since of what a `zip` over `iter_mut` writes a proof knows nothing, and from what `from_fn`
        // tells of its calls the proof did not close (both tried).
        for (i, stop) in self.stops.iter().enumerate() {
            marks[i] = stop.mark;
        }
        marks
    }

    // Writes marks into the table.
    pub(crate) fn set_marks(&mut self, marks: &[u16])
        requires { length self.old ≤ length marks.now }
        ensures { self.new ≡ remarked self.old marks.now }
    {
        // Kept: by number, as in `marks`.
        for (i, stop) in self.stops.as_mut_slice().iter_mut().enumerate() {
            stop.mark = marks[i];
        }
    }
}
