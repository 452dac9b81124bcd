use crate::stops::StopTable;
use source::source::Source;
use std::marker::Model;

// A route owns its source, which is never altered, and a table of stops. Contracts see the source and the stops.
#[derive(Drop)]
pub struct Route<S: Source> {
    pub(crate) source: S,
    pub(crate) stops: StopTable,
}

impl<S: Source> Model for Route<S> {
    ghost use Rattle.route.specs.declared.stop.Stop.{Stop};
    ghost use Rattle.route.specs.Over.{Over};
    ghost use Rattle.route.specs.Kept.{Kept};

    ghost Value = { Over S Stop };

    ghost view = { λ r. record { source = r.source; stops = r.stops } };

    ghost invariant = { λ r. Kept S.Kind.Cost.algebra (S.Source.meaning r.source) r.stops };
}
