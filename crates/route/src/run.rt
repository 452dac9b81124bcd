ghost use Rattle.std.specs.Prelude.{◌≡◌, IfOk};
ghost use Rattle.route.specs.Table.{plains};
ghost use Rattle.route.specs.Judged.{Runs};
ghost use Rattle.route.specs.Joins.{exactly};
ghost use Rattle.route.specs.Guarantee.{Whole};
ghost use Rattle.route.specs.Runs.{Ran};

use crate::card::{Card, Outcome};
use crate::join::join;
use crate::stop::{Refusal, Splice};
use crate::table::Route;
use source::source::Source;
use std::alloc::{AllocError, Global};

// Makes a list of splices, one after another, and tells how each was answered.
fn make_all<S: Source>(
    heap: Global,
    route: &mut Route<S>,
    splices: &[Splice],
) -> Result<Vec<Result<(), Refusal>>, AllocError>
    ensures source { route.new.source ≡ route.old.source }
    ensures runs { IfOk result (λ answers. Runs S.Kind.Cost.algebra (S.Source.meaning route.old.source) (plains route.old.stops) splices.now answers.items (plains route.new.stops)) }
{
    // Kept: a loop that pushes, since of a route that a closure in a chain alters the proof did not close (tried).
    let mut answers = Vec::new(heap);
    for splice in splices {
        answers.push(route.apply(*splice))?;
    }
    Ok(answers)
}

// Opens an empty route over a source, makes the splices and reads all that can be read. The route comes back with the
// card, for joins.
fn run_one<S: Source + Drop>(
    heap: Global,
    source: S,
    splices: &[Splice],
) -> Result<(Route<S>, Card<S::Kind>), AllocError>
    ensures { IfOk result (λ x. Ran S.Kind.Cost.algebra S.Source.meaning source splices.now x.0.source x.0.stops x.1.answers.items x.1.count x.1.facts.items (S.Kind.Cost.exact x.1.least)) }
{
    let mut route = Route::open(heap, source)?;
    let answers = make_all(heap, &mut route, splices)?;
    let facts = route.all_facts(heap)?;
    let card = Card {
        answers,
        count: route.stop_count(),
        facts,
        least: route.least_cost(),
    };
    Ok((route, card))
}

// Opens two empty routes, each over its own source, makes the splices on each, reads all that can be read of both, and
// joins them. The whole guarantee stands here, with no premise.
// Kept: the numbers of the join one by one, in the order of `join`, to which they are handed on; a value for them would
// be taken apart here and be no plainer.
pub fn whole_run<A: Source + Drop, B: Source<Exact = A::Exact, Kind = A::Kind> + Drop>(
    heap: Global,
    first: A,
    first_splices: &[Splice],
    second: B,
    second_splices: &[Splice],
    i: usize,
    leg: u16,
    j: usize,
) -> Result<Outcome<A::Kind>, AllocError>
    ensures { IfOk result (λ w. Whole A.Kind.Cost.algebra (A.Source.meaning first) first_splices.now w.first.answers.items w.first.count w.first.facts.items (A.Kind.Cost.exact w.first.least) (B.Source.meaning second) second_splices.now w.second.answers.items w.second.count w.second.facts.items (A.Kind.Cost.exact w.second.least) i leg j (exactly A.Kind.Cost.exact w.joined)) }
{
    let (a, first) = run_one(heap, first, first_splices)?;
    let (b, second) = run_one(heap, second, second_splices)?;
    let joined = join(&a, i, leg, &b, j);
    Ok(Outcome {
        first,
        second,
        joined,
    })
}
