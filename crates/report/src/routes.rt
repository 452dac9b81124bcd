ghost use Rattle.std.specs.Prelude.{◌≡◌, ◌<◌, ◌≤◌, length, slice_index_or};
ghost use Rattle.route.specs.declared.stop.Facts.{Facts as FactsOf};
ghost use Rattle.route.specs.Calls.{route_facts};
ghost use Rattle.report.specs.Routes.{Reported};

use crate::refusal::ReportRefusal;
use crate::report::write_report;
use cost::written::Written;
use route::stop::Facts;
use route::table::Route;
use source::source::Source;

// Reads the facts of stop i, counted from 0, into an entry.
#[tactic(auto, using(crate::proofs::Told::read_next))]
fn read_entry<S: Source>(route: &Route<S>, i: usize, entry: &mut Facts)
    requires there { i < length route.now.stops }
    requires few { i < 64 }
    ensures { (d : FactsOf) → entry.new ≡ slice_index_or (route_facts S.Kind.Cost.algebra (S.Source.meaning route.now.source) route.now.stops) i d }
{
    *entry = route.facts(i + 1).unwrap();
}

// Reads the facts of all stops into a table with an entry for each.
#[tactic(auto, using(crate::proofs::Told::copied_next, crate::proofs::Told::copied_all))]
fn read_facts<S: Source>(route: &Route<S>, entries: &mut [Facts])
    requires all { length entries.old ≡ length route.now.stops }
    requires few { length entries.old ≤ 64 }
    ensures { entries.new ≡ route_facts S.Kind.Cost.algebra (S.Source.meaning route.now.source) route.now.stops }
{
    for (i, entry) in entries.iter_mut().enumerate() {
        read_entry(route, i, entry);
    }
}

// Writes the report of a route whose stops have these facts.
fn write_route<S: Source>(
    route: &Route<S>,
    facts: &[Facts],
    buf: &mut [u8],
) -> Result<usize, ReportRefusal>
where
    S::Kind: Written<S::Exact>,
    ensures { facts.now ≡ route_facts S.Kind.Cost.algebra (S.Source.meaning route.now.source) route.now.stops → Reported S.Kind.Cost.algebra S.Kind.Written.text S.Kind.Written.longest (S.Source.meaning route.now.source) route.now.stops buf.old buf.new result }
{
    write_report(facts, route.least_cost(), buf)
}

// Writes the report of a route into the buffer, and answers its length.
// A report longer than the buffer is refused, and the buffer stays as it was.
pub fn report<S: Source>(route: &Route<S>, buf: &mut [u8]) -> Result<usize, ReportRefusal>
where
    S::Kind: Written<S::Exact>,
    ensures { Reported S.Kind.Cost.algebra S.Kind.Written.text S.Kind.Written.longest (S.Source.meaning route.now.source) route.now.stops buf.old buf.new result }
{
    // Kept: an array, with an entry for each stop that a route may have, since a report wants no memory of the heap.
    let mut table = [Facts::default(); 64];
    let entries = &mut table[..route.stop_count()];
    read_facts(route, entries);
    write_route(route, entries, buf)
}
