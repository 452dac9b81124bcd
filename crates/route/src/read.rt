ghost use Rattle.std.specs.Prelude.{◌≡◌, IfOk, slice_index, map};
ghost use Rattle.std.specs.List.{enumerate_from};
ghost use Rattle.timing.specs.Best.{Best};
ghost use Rattle.route.specs.Table.{plains, line};
ghost use Rattle.route.specs.Kept.{Kept};
ghost use Rattle.route.specs.Calls.{timed, facts_of, facts_at};
ghost use Rattle.route.specs.Joins.{Least};

use crate::draft::Draft;
use crate::judge::is_outside;
use crate::stop::{Facts, Refusal, Stop};
use crate::table::Route;
use source::source::Source;
use std::alloc::{AllocError, Global};
use timing::marked::MarkedLine;

impl<S: Source> Route<S> {
    // The stops as the timing sees them.
    fn draft(&self) -> Draft<'_, S>
        ensures source { result.source ≡ self.now.source }
        ensures stops { result.stops ≡ plains self.now.stops }
    {
        Draft::part(&self.source, self.stops.as_slice(), None)
    }

    // The minute of stop i, counted from 0, in the timetable that the marks give.
    #[tactic(auto, using(crate::proofs::Readings::loaded_minute, crate::proofs::Splices::same_line))]
    fn minute_at(&self, i: usize) -> u16
        ensures { result ≡ slice_index (timed S.Kind.Cost.algebra (S.Source.meaning self.now.source) self.now.stops) i }
    {
        // Kept: here and at the least cost, since a value that borrows its own marks cannot be handed out.
        let marked = MarkedLine {
            line: &self.draft(),
            marks: &self.stops.marks(),
        };
        marked.minute(i)
    }

    // What is told of a stop, which is stop i, counted from 0.
    fn told(&self, i: usize, stop: Stop) -> Facts
        ensures { result ≡ facts_of stop (slice_index (timed S.Kind.Cost.algebra (S.Source.meaning self.now.source) self.now.stops) i) }
    {
        // Kept: field by field, since facts are told flat; a `From` of the stop and its minute would be these lines.
        Facts {
            curve: stop.curve,
            leg: stop.leg,
            mark: stop.mark,
            minute: self.minute_at(i),
        }
    }

    // What is told of the stop at a place; its minute is that of the best timetable.
    pub fn facts(&self, place: usize) -> Result<Facts, Refusal>
        ensures told { result ≡ facts_at self.now.stops (timed S.Kind.Cost.algebra (S.Source.meaning self.now.source) self.now.stops) place }
        ensures best { Best S.Kind.Cost.algebra (line S.Kind.Cost.algebra (S.Source.meaning self.now.source) self.now.stops) (timed S.Kind.Cost.algebra (S.Source.meaning self.now.source) self.now.stops) }
    {
        let stops = self.stops.as_slice();
        Refusal::Place.refuse_if(is_outside(place, stops.len()))?;
        // Kept: an index after the test, since `checked_sub` and `get` would each want the refusal that one examination
        // gives, as it does for splices.
        let i = place - 1;
        Ok(self.told(i, stops[i]))
    }

    // The facts of all stops, in order.
    // Kept: a report reads them into an array of its own, since it wants no memory; here they are as many as the stops.
    pub(crate) fn all_facts(&self, heap: Global) -> Result<Vec<Facts>, AllocError>
        ensures { IfOk result (λ facts. facts.items ≡ map (λ p. facts_of p.1 (slice_index (timed S.Kind.Cost.algebra (S.Source.meaning self.now.source) self.now.stops) p.0)) (enumerate_from 0 self.now.stops)) }
    {
        self.stops
            .as_slice()
            .iter()
            .enumerate()
            .map(|(i, stop)| self.told(i, *stop))
            .collect(heap)
    }

    // The least cost of all timetables of the route: that of the timetable which the facts tell. With it comes what
    // every route keeps.
    #[tactic(auto, using(crate::proofs::Readings::kept_best, crate::proofs::Readings::loaded_least, crate::proofs::Splices::same_line))]
    pub fn least_cost(&self) -> S::Kind
        ensures kept { Kept S.Kind.Cost.algebra (S.Source.meaning self.now.source) self.now.stops }
        ensures best { Best S.Kind.Cost.algebra (line S.Kind.Cost.algebra (S.Source.meaning self.now.source) self.now.stops) (timed S.Kind.Cost.algebra (S.Source.meaning self.now.source) self.now.stops) }
        ensures least { Least S.Kind.Cost.algebra (line S.Kind.Cost.algebra (S.Source.meaning self.now.source) self.now.stops) (S.Kind.Cost.exact result) }
    {
        let marked = MarkedLine {
            line: &self.draft(),
            marks: &self.stops.marks(),
        };
        marked.least()
    }
}
