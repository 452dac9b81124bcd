ghost use Rattle.std.specs.Prelude.{◌≤◌, IfOk, decimal};
ghost use Rattle.cost.specs.Amounts.{whole};
ghost use Rattle.source.specs.Due.{due_meaning};
ghost use Rattle.strip_report.specs.Shown.{ReportOf, Shows};

use cost::written::Written;
use reader::calls::run_calls;
use reader::faults::Fault;
use reader::strip::Strip;
use report::routes::report;
use route::table::Route;
use source::due::DueBook;
use source::source::Source;
use std::alloc::{AllocError, Global};

// No report is longer: sixty-four stops take 1,872 bytes at the most, and the text of a cost no more than 100.
const LONGEST: usize = 2048;

// A route after the calls of a strip: how they ended, and the route's report.
#[derive(Drop)]
pub(crate) struct Shown<S: Source> {
    pub(crate) route: Route<S>,
    pub(crate) ended: Result<usize, Fault>,
    pub(crate) report: Vec<u8>,
}

// The bytes of a route's report.
// Kept: a buffer that is cut to its length afterwards, since a report is written into one that is lent.
fn report_bytes<S: Source>(heap: Global, route: &Route<S>) -> Result<Vec<u8>, AllocError>
where
    S::Kind: Written<S::Exact>,
    requires { S.Kind.Written.longest ≤ 100 }
    ensures { IfOk result (λ v. ReportOf S.Kind.Cost.algebra S.Kind.Written.text (S.Source.meaning route.now.source) route.now.stops v.items) }
{
    let mut text = vec![in heap; 0; LONGEST]?;
    let length = report(route, text.as_mut_slice()).unwrap();
    text.truncate(length);
    Ok(text)
}

// Opens an empty route over a source, makes the calls of a strip, and reports what they leave.
pub(crate) fn show<S: Source + Drop>(
    heap: Global,
    source: S,
    strip: &Strip<'_>,
) -> Result<Shown<S>, AllocError>
where
    S::Kind: Written<S::Exact>,
    requires { S.Kind.Written.longest ≤ 100 }
    ensures { IfOk result (λ s. Shows S.Kind.Cost.algebra S.Kind.Written.text S.Source.meaning source strip.now.bytes.now strip.now.calls s.ended s.report.items s.route.source s.route.stops) }
{
    let mut route = Route::open(heap, source)?;
    let ended = run_calls(&mut route, strip.bytes, strip.calls);
    let report = report_bytes(heap, &route)?;
    Ok(Shown {
        route,
        ended,
        report,
    })
}

// What a strip leaves by money.
pub(crate) fn show_money(heap: Global, strip: &Strip<'_>) -> Result<Shown<DueBook>, AllocError>
    ensures { IfOk result (λ s. Shows whole decimal due_meaning strip.now.rows.items strip.now.bytes.now strip.now.calls s.ended s.report.items s.route.source.rows.items s.route.stops) }
{
    let book = DueBook::of_rows(heap, strip.rows.as_slice())?;
    show(heap, book, strip)
}
