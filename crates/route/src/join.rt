ghost use Rattle.std.specs.Prelude.{◌≡◌, ◌≤◌, length, take, None};
ghost use Rattle.timing.specs.Timetables.{Feasible};
ghost use Rattle.timing.specs.Marks.{Marks};
ghost use Rattle.timing.specs.Sound.{Sound};
ghost use Rattle.route.specs.Refusals.{refused_by};
ghost use Rattle.route.specs.Table.{plains};
ghost use Rattle.route.specs.Drafts.{both};
ghost use Rattle.route.specs.Joins.{JoinJudged, Least, joined, objection_to_join, exactly};

use crate::draft::{Draft, Joined};
use crate::judge::{is_long, is_outside, serve};
use crate::stop::Refusal;
use crate::stops::MOST_STOPS;
use crate::table::Route;
use source::source::Source;
use timing::line::Line;
use timing::marked::MarkedLine;
use timing::marks::refresh;

// Where two routes are joined: after the first i stops of one, by a leg, to the stops of the other from place j on.
#[derive(Clone, Copy)]
struct JoinAt {
    i: usize,
    leg: u16,
    j: usize,
}

impl JoinAt {
    // Refuses a join of so many stops, before a timetable is asked for.
    fn examine(self, front: usize, back: usize) -> Result<(), Refusal>
        requires { back ≤ 64 }
        ensures { refused_by result ≡ objection_to_join front self.i self.leg back self.j }
    {
        Refusal::Place.refuse_if(front < self.i || is_outside(self.j, back + 1))?;
        Refusal::Leg.refuse_if(is_long(self.leg))
    }

    // The stops of two routes that are joined.
    fn draft<'a, A: Source, B: Source<Exact = A::Exact, Kind = A::Kind>>(
        self,
        a: &'a Route<A>,
        b: &'a Route<B>,
    ) -> Joined<'a, A, B>
        requires { objection_to_join (length (plains a.now.stops)) self.i self.leg (length (plains b.now.stops)) self.j ≡ None }
        ensures joined { both A.Kind.Cost.algebra A.Source.meaning B.Source.meaning result.first result.second ≡ joined A.Kind.Cost.algebra (A.Source.meaning a.now.source) (plains a.now.stops) self.i self.leg (B.Source.meaning b.now.source) (plains b.now.stops) self.j }
        ensures sound { Sound A.Kind.Cost.algebra (both A.Kind.Cost.algebra A.Source.meaning B.Source.meaning result.first result.second) }
        ensures few { length (both A.Kind.Cost.algebra A.Source.meaning B.Source.meaning result.first result.second) ≤ 128 }
    {
        let (front, _) = a.stops.as_slice().split_at(self.i);
        let (_, back) = b.stops.as_slice().split_at(self.j - 1);
        Joined {
            first: Draft::part(&a.source, front, None),
            second: Draft::part(&b.source, back, Some(self.leg)),
        }
    }
}

// How many stops two routes may have together.
const MOST_JOINED: usize = 2 * MOST_STOPS;

// The marks of all stops of a line, with room for those of two routes.
// Kept: fixed room, so that a join wants no memory.
fn all_marks<L: Line>(line: &L) -> [u16; MOST_JOINED]
    ensures { Sound L.Kind.Cost.algebra (L.visits line.now) → Feasible (L.visits line.now) → length (L.visits line.now) ≤ 128 → Marks L.Kind.Cost.algebra (L.visits line.now) (take (length (L.visits line.now)) result) }
{
    let mut marks = [0; MOST_JOINED];
    refresh(line, &mut marks, 0);
    marks
}

// The least cost of a line that has a timetable. All its marks are worked out anew.
// Kept: premises, since a line of any kind has no invariant; the draft of a join promises them.
#[tactic(auto, using(crate::proofs::Readings::minutes_take, crate::proofs::Readings::least_by))]
fn least_of<L: Line>(line: &L) -> L::Kind
    requires sound { Sound L.Kind.Cost.algebra (L.visits line.now) }
    requires feasible { Feasible (L.visits line.now) }
    requires few { length (L.visits line.now) ≤ 128 }
    ensures { Least L.Kind.Cost.algebra (L.visits line.now) (L.Kind.Cost.exact result) }
{
    let marks = all_marks(line);
    let marked = MarkedLine {
        line,
        marks: &marks,
    };
    marked.least()
}

// The least cost of the first i stops of one route followed by the other's from place j on, the first of these by
// another leg. Both routes stay.
// Kept: the numbers one by one, since one value for them would be no plainer: each stands beside the route that it
// counts in, so that `join(&a, i, leg, &b, j)` reads in the order of the joined stops; inside they go as one `JoinAt`.
#[tactic(auto, using(crate::proofs::Joinings::join_refused, crate::proofs::Joinings::join_blocked, crate::proofs::Joinings::join_accepted))]
pub fn join<'a, A: Source, B: Source<Exact = A::Exact, Kind = A::Kind>>(
    a: &'a Route<A>,
    i: usize,
    leg: u16,
    b: &'a Route<B>,
    j: usize,
) -> Result<A::Kind, Refusal>
    ensures { JoinJudged A.Kind.Cost.algebra (A.Source.meaning a.now.source) (plains a.now.stops) i leg (B.Source.meaning b.now.source) (plains b.now.stops) j (exactly A.Kind.Cost.exact result) }
{
    let at = JoinAt { i, leg, j };
    at.examine(a.stop_count(), b.stop_count())?;
    let line = at.draft(a, b);
    serve(&line)?;
    Ok(least_of(&line))
}
