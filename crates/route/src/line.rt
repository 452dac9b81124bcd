ghost use Rattle.route.specs.Plain.{visits};
ghost use Rattle.route.specs.Drafts.{both};

use crate::draft::{Draft, Joined};
use source::source::Source;
use timing::line::Line;

impl<S: Source> Line for Draft<'_, S> {
    type Exact = S::Exact;

    type Kind = S::Kind;

    ghost visits = { λ d. visits S.Kind.Cost.algebra (S.Source.meaning d.source) d.stops };

    fn count(&self) -> usize {
        self.stop_count()
    }

    fn leg(&self, i: usize) -> u16 {
        self.stop(i).map_or(0, |stop| stop.leg)
    }

    #[tactic(auto, using(crate::proofs::Views::window_there, crate::proofs::Views::window_nowhere))]
    fn window(&self, i: usize) -> Option<(u16, u16)> {
        let stop = self.stop(i)?;
        self.source.window(stop.curve)
    }

    #[tactic(auto, using(crate::proofs::Views::cost_there, crate::proofs::Views::cost_nowhere))]
    fn cost(&self, i: usize, minute: u16) -> Option<S::Kind> {
        let stop = self.stop(i)?;
        self.source.cost(stop.curve, minute)
    }
}

// Kept: three short alike methods: a reference to either part would have to be a `dyn`, which may not be handed out, so
// any form in their place would be longer.
impl<A: Source, B: Source<Exact = A::Exact, Kind = A::Kind>> Line for Joined<'_, A, B> {
    type Exact = A::Exact;

    type Kind = A::Kind;

    ghost visits = { λ d. both A.Kind.Cost.algebra A.Source.meaning B.Source.meaning d.first d.second };

    fn count(&self) -> usize {
        self.first.stop_count() + self.second.stop_count()
    }

    fn leg(&self, i: usize) -> u16 {
        match i.checked_sub(self.first.stop_count()) {
            None => self.first.leg(i),
            Some(j) => self.second.leg(j),
        }
    }

    fn window(&self, i: usize) -> Option<(u16, u16)> {
        match i.checked_sub(self.first.stop_count()) {
            None => self.first.window(i),
            Some(j) => self.second.window(j),
        }
    }

    fn cost(&self, i: usize, minute: u16) -> Option<A::Kind> {
        match i.checked_sub(self.first.stop_count()) {
            None => self.first.cost(i, minute),
            Some(j) => self.second.cost(j, minute),
        }
    }
}
