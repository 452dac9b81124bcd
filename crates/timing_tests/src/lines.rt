ghost use Rattle.std.specs.Prelude.{map};
ghost use Rattle.timing_tests.specs.Dues.{visit};

use crate::due::Due;
use crate::pricing::Pricing;
use timing::line::Line;

// Stops in a table, under a pricing.
#[derive(Drop)]
pub struct Table<'a, P> {
    pub stops: &'a [Due],
    pub pricing: P,
}

impl<P: Pricing> Line for Table<'_, P> {
    type Exact = P::Exact;

    type Kind = P::Kind;

    ghost visits = { λ d. map (visit (P.Pricing.price d.pricing)) d.stops.now };

    fn count(&self) -> usize {
        self.stops.len()
    }

    fn leg(&self, i: usize) -> u16 {
        self.stops.get(i).map_or(0, |stop| stop.leg)
    }

    fn window(&self, i: usize) -> Option<(u16, u16)> {
        self.stops.get(i).map(|stop| (stop.first, stop.last))
    }

    fn cost(&self, i: usize, minute: u16) -> Option<P::Kind> {
        let stop = *self.stops.get(i)?;
        (stop.first..=stop.last)
            .contains(&minute)
            .then(|| self.pricing.charge(stop, minute))
    }
}
