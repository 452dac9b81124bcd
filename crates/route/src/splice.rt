ghost use Rattle.std.specs.Prelude.{◌≡◌, ◌≤◌, [], length, IfOk};
ghost use Rattle.route.specs.declared.stop.Splice.TheVariants.{Insert, Remove, Change};
ghost use Rattle.route.specs.Table.{plains};
ghost use Rattle.route.specs.Calls.{Spliced};

use crate::marks::make;
use crate::stop::{Refusal, Splice};
use crate::stops::StopTable;
use crate::table::Route;
use source::source::Source;
use std::alloc::{AllocError, Global};

impl<S: Source + Drop> Route<S> {
    // An empty route over a source.
    pub fn open(heap: Global, source: S) -> Result<Route<S>, AllocError>
        ensures source { IfOk result (λ route. route.source ≡ source) }
        ensures stops { IfOk result (λ route. route.stops ≡ []) }
    {
        let stops = StopTable::new(heap)?;
        // With the peak comes the promise that the source keeps its bounds and the law.
        let _ = source.peak();
        Ok(Route { source, stops })
    }
}

impl<S: Source> Route<S> {
    // Makes a splice, or refuses it.
    // Kept: that the source stays is a clause of each call that alters a route, since an invariant speaks of one state
    // of a value and not of two.
    pub fn apply(&mut self, splice: Splice) -> Result<(), Refusal>
        ensures source { self.new.source ≡ self.old.source }
        ensures spliced { Spliced S.Kind.Cost.algebra (S.Source.meaning self.old.source) self.old.stops splice result self.new.stops }
    {
        self.judge(splice)?;
        make(&self.source, &mut self.stops, splice);
        Ok(())
    }

    // Puts a stop at a place. The stops from that place on move up by one, and the next is then reached by `leg_out`.
    pub fn insert(
        &mut self,
        place: usize,
        curve: u8,
        leg_in: u16,
        leg_out: u16,
    ) -> Result<(), Refusal>
        ensures source { self.new.source ≡ self.old.source }
        ensures spliced { Spliced S.Kind.Cost.algebra (S.Source.meaning self.old.source) self.old.stops (Insert place curve leg_in leg_out) result self.new.stops }
    {
        self.apply(Splice::Insert {
            place,
            curve,
            leg_in,
            leg_out,
        })
    }

    // Takes the stop at a place out; the next one is then reached by `leg`.
    pub fn remove(&mut self, place: usize, leg: u16) -> Result<(), Refusal>
        ensures source { self.new.source ≡ self.old.source }
        ensures spliced { Spliced S.Kind.Cost.algebra (S.Source.meaning self.old.source) self.old.stops (Remove place leg) result self.new.stops }
    {
        self.apply(Splice::Remove { place, leg })
    }

    // Puts another curve number on the stop at a place.
    pub fn change(&mut self, place: usize, curve: u8) -> Result<(), Refusal>
        ensures source { self.new.source ≡ self.old.source }
        ensures spliced { Spliced S.Kind.Cost.algebra (S.Source.meaning self.old.source) self.old.stops (Change place curve) result self.new.stops }
    {
        self.apply(Splice::Change { place, curve })
    }

    pub fn stop_count(&self) -> usize
        ensures value { result ≡ length (plains self.now.stops) }
        ensures few { result ≤ 64 }
    {
        self.stops.len()
    }
}
