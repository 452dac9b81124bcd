ghost use Rattle.std.specs.Prelude.{◌≡◌, ◌+◌, ◌<◌, length};
ghost use Rattle.timing.specs.Visits.{at};
ghost use Rattle.timing.specs.Reach.{served, reached, Blocked};

use crate::line::Line;

// The soonest minute of stop i, where the stop before it is left at minute `ready`; absent past its window.
fn serve<L: Line>(line: &L, i: usize, ready: u16) -> Option<u16>
    ensures { result ≡ served ready (at L.Kind.Cost.algebra (L.visits line.now) i) }
{
    let (first, last) = line.window(i)?;
    let soonest = ready.checked_add(line.leg(i))?.max(first);
    (soonest <= last).then_some(soonest)
}

// The number, from 1, of the first stop up to which no timetable exists.
#[tactic(auto, using(crate::proofs::Arrivals::blocked_here, crate::proofs::Arrivals::all_served))]
pub fn first_blocked<L: Line>(line: &L) -> Option<usize>
    ensures { Blocked (L.visits line.now) result }
{
    let mut ready = 0;
    for i in 0..line.count() {
        let Some(soonest) = serve(line, i, ready) else {
            return Some(i + 1);
        };
        ready = soonest;
    }
    None
}

// The first and the last minute of the window of stop i.
// Kept: an absent window as the empty one, from 1 to 0, since a visit has it so.
pub(crate) fn span<L: Line>(line: &L, i: usize) -> (u16, u16)
    ensures first { result.0 ≡ (at L.Kind.Cost.algebra (L.visits line.now) i).first }
    ensures last { result.1 ≡ (at L.Kind.Cost.algebra (L.visits line.now) i).last }
{
    line.window(i).unwrap_or((1, 0))
}

// The soonest minute of stop i, where the stop before it is left at minute `ready`, as far as 16 bits count.
pub(crate) fn soonest<L: Line>(line: &L, i: usize, ready: u16) -> u16
    ensures { let vs = L.visits line.now in
        i < length vs → ready ≡ reached vs i → result ≡ reached vs (i + 1) }
{
    span(line, i).0.max(ready.saturating_add(line.leg(i)))
}

// The soonest minute of the last of the first n stops, as far as 16 bits count.
#[tactic(auto, using(crate::proofs::Arrivals::reached_all))]
pub(crate) fn arrival<L: Line>(line: &L, n: usize) -> u16
    ensures { result ≡ reached (L.visits line.now) n }
{
    let mut ready = 0;
    for i in 0..n.min(line.count()) {
        ready = soonest(line, i, ready);
    }
    ready
}
