ghost use Rattle.std.specs.Prelude.{◌≤◌, length, Ok};
ghost use Rattle.source.specs.Meaning.{Lawful};
ghost use Rattle.route.specs.Plain.{spliced};
ghost use Rattle.route.specs.Table.{plains};
ghost use Rattle.route.specs.Kept.{Kept};
ghost use Rattle.route.specs.Judged.{Judged};
ghost use Rattle.route.specs.Steps.{HasPlace};
ghost use Rattle.route.specs.Calls.{Refreshed, Spliced};

use crate::draft::Draft;
use crate::stop::Splice;
use crate::stops::StopTable;
use source::source::Source;
use timing::marks::refresh;

// Finds the marks of the stops from number `from` on anew, counted from 0.
fn refresh_from<S: Source>(source: &S, stops: &mut StopTable, from: usize)
    requires { Lawful S.Kind.Cost.algebra (S.Source.meaning source.now) }
    ensures refreshed { Refreshed S.Kind.Cost.algebra (S.Source.meaning source.now) from stops.old stops.new }
    ensures few { length stops.new ≤ 64 }
{
    let mut marks = stops.marks();
    let line = Draft::part(source, stops.as_slice(), None);
    refresh(&line, &mut marks, from);
    stops.set_marks(&marks);
}

// Makes a splice that is accepted, and finds the marks from its place on anew.
#[tactic(auto, using(crate::proofs::Settling::settled, crate::proofs::Settling::kept_on))]
pub(crate) fn make<S: Source>(source: &S, stops: &mut StopTable, splice: Splice)
    requires kept { Kept S.Kind.Cost.algebra (S.Source.meaning source.now) stops.old }
    requires place { HasPlace (length stops.old) splice }
    requires judged { Judged S.Kind.Cost.algebra (S.Source.meaning source.now) (plains stops.old) splice (Ok tt) (spliced splice (plains stops.old)) }
    ensures kept { Kept S.Kind.Cost.algebra (S.Source.meaning source.now) stops.new }
    ensures spliced { Spliced S.Kind.Cost.algebra (S.Source.meaning source.now) stops.old splice (Ok tt) stops.new }
{
    stops.splice(splice);
    refresh_from(source, stops, splice.front());
}
