ghost use Rattle.std.specs.Prelude.{◌≡◌, length, OnOk};
ghost use Rattle.route.specs.Refusals.{refused_by};
ghost use Rattle.route.specs.Plain.{spliced};
ghost use Rattle.route.specs.Table.{plains};
ghost use Rattle.route.specs.Judged.{outside, closed, long, objection, Judged};
ghost use Rattle.route.specs.Steps.{HasPlace, Served};
ghost use Rattle.route.specs.Calls.{left};

use crate::draft::Draft;
use crate::stop::{Refusal, Splice};
use crate::stops::MOST_STOPS;
use crate::table::Route;
use source::source::Source;
use timing::line::Line;
use timing::reach::first_blocked;

// Whether a place is none of 1 to n.
pub(crate) fn is_outside(place: usize, n: usize) -> bool
    ensures { result ≡ outside place n }
{
    !(1..=n).contains(&place)
}

pub(crate) fn is_long(leg: u16) -> bool
    ensures { result ≡ long leg }
{
    600 < leg
}

// Whether the window of a curve is absent.
fn is_closed<S: Source>(source: &S, curve: u8) -> bool
    ensures { result ≡ closed (S.Source.meaning source.now) curve }
{
    source.window(curve).is_none()
}

// Refuses a line that has no timetable.
pub(crate) fn serve<L: Line>(line: &L) -> Result<(), Refusal>
    ensures { Served (L.visits line.now) result }
{
    match first_blocked(line) {
        Some(stop) => Err(Refusal::NoTimetable { stop }),
        None => Ok(()),
    }
}

impl<S: Source> Route<S> {
    // Refuses a splice, before a timetable is asked for, by the first examination that speaks against it.
    fn examine(&self, splice: Splice) -> Result<(), Refusal>
        ensures { refused_by result ≡ objection (S.Source.meaning self.now.source) (plains self.now.stops) splice }
    {
        let n = self.stops.len();
        match splice {
            Splice::Insert {
                place,
                curve,
                leg_in,
                leg_out,
            } => {
                Refusal::Place.refuse_if(is_outside(place, n + 1))?;
                Refusal::Full.refuse_if(MOST_STOPS <= n)?;
                Refusal::Curve.refuse_if(is_closed(&self.source, curve))?;
                Refusal::Leg.refuse_if(is_long(leg_in) || is_long(leg_out))
            }
            Splice::Remove { place, leg } => {
                Refusal::Place.refuse_if(is_outside(place, n))?;
                Refusal::Leg.refuse_if(is_long(leg))
            }
            Splice::Change { place, curve } => {
                Refusal::Place.refuse_if(is_outside(place, n))?;
                Refusal::Curve.refuse_if(is_closed(&self.source, curve))
            }
        }
    }

    // The route as the splice would have it.
    fn draft_of(&self, splice: Splice) -> Draft<'_, S>
        requires { HasPlace (length self.now.stops) splice }
        ensures source { result.source ≡ self.now.source }
        ensures stops { result.stops ≡ spliced splice (plains self.now.stops) }
    {
        Draft::spliced(&self.source, self.stops.as_slice(), splice)
    }

    // Whether the splice is accepted; the route stays.
    #[tactic(auto, using(crate::proofs::Judgements::judged_refused, crate::proofs::Judgements::judged_served))]
    pub(crate) fn judge(&self, splice: Splice) -> Result<(), Refusal>
        ensures judged { Judged S.Kind.Cost.algebra (S.Source.meaning self.now.source) (plains self.now.stops) splice result (left result splice (plains self.now.stops)) }
        ensures place { OnOk result (HasPlace (length self.now.stops) splice) }
    {
        self.examine(splice)?;
        serve(&self.draft_of(splice))
    }
}
