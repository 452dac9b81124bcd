ghost use Rattle.std.specs.Prelude.{◌≡◌, ◌≤◌, length};
ghost use Rattle.std.specs.Option.{option_map};
ghost use Rattle.std.specs.List.{slice_get};
ghost use Rattle.route.specs.Plain.{spliced};
ghost use Rattle.route.specs.Table.{plain, plains};
ghost use Rattle.route.specs.Drafts.{behind};
ghost use Rattle.route.specs.Steps.{HasPlace};

use crate::stop::{Splice, Stop};
use source::source::Source;
use std::marker::Model;

// A route as it would be: the stops in front, a new one if any, and the stops behind, the first of them by another
// leg if one is handed over. Contracts see the source and the plain stops.
#[derive(Drop)]
pub(crate) struct Draft<'a, S: Source> {
    pub(crate) source: &'a S,
    front: &'a [Stop],
    put: Option<Stop>,
    back: &'a [Stop],
    leg: Option<u16>,
}

impl<'a, S: Source> Model for Draft<'a, S> {
    ghost use Rattle.std.specs.Prelude.{◌+◌, ◌≤◌, length};
    ghost use Rattle.route.specs.Plain.{Plain};
    ghost use Rattle.route.specs.Over.{Over};
    ghost use Rattle.route.specs.Drafts.{drafted};

    ghost Value = { Over S Plain };

    ghost view = { λ d. record { source = d.source.now; stops = drafted d.front.now d.put d.back.now d.leg } };

    ghost invariant = { λ d. length d.front.now + length d.back.now ≤ 64 };
}

// Stop j, counted from 0, of the stops behind, the first of which has another leg if one is handed over.
#[tactic(auto, using(crate::proofs::Views::behind_rest))]
fn behind_at(stops: &[Stop], leg: Option<u16>, j: usize) -> Option<Stop>
    ensures { option_map plain result ≡ slice_get (behind leg (plains stops.now)) j }
{
    let stop = *stops.get(j)?;
    match leg {
        Some(leg) if j == 0 => Some(Stop { leg, ..stop }),
        _ => Some(stop),
    }
}

impl<'a, S: Source> Draft<'a, S> {
    // A part of a table, the first stop of which has another leg if one is handed over.
    pub(crate) fn part(source: &'a S, stops: &'a [Stop], leg: Option<u16>) -> Draft<'a, S>
        requires { length stops.now ≤ 64 }
        ensures source { result.source ≡ source.now }
        ensures stops { result.stops ≡ behind leg (plains stops.now) }
    {
        let (front, back) = stops.split_at(0);
        Draft {
            source,
            front,
            put: None,
            back,
            leg,
        }
    }

    // The route as a splice of its stops would have it.
    // Kept: premises, since a place depends on a count outside its splice, and a slice that a table lends has no invariant.
    #[tactic(auto, using(crate::proofs::Splices::remove_parts))]
    pub(crate) fn spliced(source: &'a S, stops: &'a [Stop], splice: Splice) -> Draft<'a, S>
        requires few { length stops.now ≤ 64 }
        requires place { HasPlace (length stops.now) splice }
        ensures source { result.source ≡ source.now }
        ensures stops { result.stops ≡ spliced splice (plains stops.now) }
    {
        let (front, rest) = stops.split_at(splice.front());
        match (splice, rest) {
            (
                Splice::Insert {
                    curve,
                    leg_in,
                    leg_out,
                    ..
                },
                _,
            ) => Draft {
                source,
                front,
                put: Some(Stop::new(curve, leg_in)),
                back: rest,
                leg: Some(leg_out),
            },
            (Splice::Remove { leg, .. }, [_, back @ ..]) => Draft {
                source,
                front,
                put: None,
                back,
                leg: Some(leg),
            },
            (Splice::Change { curve, .. }, [stop, back @ ..]) => Draft {
                source,
                front,
                put: Some(Stop { curve, ..*stop }),
                back,
                leg: None,
            },
            (_, []) => unreachable!(),
        }
    }

    // How many stops there are; a draft has one more than a table at the most.
    pub(crate) fn stop_count(&self) -> usize
        ensures value { result ≡ length self.now.stops }
        ensures small { result ≤ 65 }
    {
        self.front.len() + usize::from(self.put.is_some()) + self.back.len()
    }

    // Stop i, counted from 0.
    pub(crate) fn stop(&self, i: usize) -> Option<Stop>
        ensures { option_map plain result ≡ slice_get self.now.stops i }
    {
        let Some(i) = i.checked_sub(self.front.len()) else {
            return self.front.get(i).copied();
        };
        match self.put {
            Some(stop) if i == 0 => Some(stop),
            Some(_) => behind_at(self.back, self.leg, i - 1),
            None => behind_at(self.back, self.leg, i),
        }
    }
}

// One draft after another, each over its own source.
#[derive(Drop)]
pub(crate) struct Joined<'a, A: Source, B: Source<Exact = A::Exact, Kind = A::Kind>> {
    pub(crate) first: Draft<'a, A>,
    pub(crate) second: Draft<'a, B>,
}
