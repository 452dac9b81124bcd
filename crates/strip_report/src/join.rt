ghost use Rattle.std.specs.Prelude.{◌≡◌, ◌+◌, ◌-◌, ◌≤◌, min, ◌++◌, IfOk, string_bytes};
ghost use Rattle.strip_report.specs.Joined.{joined_units, fault_in, joined_text, join_lines, JoinPrintsOnly};

use crate::pieces::{ending, put_together};
use crate::shown::show_money;
use crate::text::fault_text;
use cost::amount::Amount;
use reader::faults::Fault;
use reader::lines::refusal_line;
use reader::strip::Strip;
use route::join::join;
use route::stop::Refusal;
use std::alloc::{AllocError, Global};

// How many stops are joined: the first i of one route, and those of the other from place j on.
fn joined_count(front: usize, i: usize, back: usize, j: usize) -> usize
    requires front { front ≤ 64 }
    requires back { back ≤ 64 }
    ensures { result ≡ min i front + (back - (j - 1)) }
{
    i.min(front) + back.saturating_sub(j.saturating_sub(1))
}

fn joined_line(heap: Global, count: usize, least: u64) -> Result<String, AllocError>
    ensures { IfOk result (λ s. string_bytes s ≡ joined_text count least) }
{
    format!(in heap; "joined {count}\nleast {least}\n")
}

// How many stops are joined and the least cost, or why there is no join.
// Kept: beside the like line of cards, which tells no number of stops and takes the word of a refusal.
fn join_lines(
    heap: Global,
    count: usize,
    joined: Result<Amount, Refusal>,
) -> Result<String, AllocError>
    ensures { IfOk result (λ s. string_bytes s ≡ join_lines count (joined_units joined)) }
{
    match joined {
        Ok(least) => joined_line(heap, count, least.units()),
        Err(refusal) => refusal_line(heap, refusal),
    }
}

// A heading, the report under it, and the fault at which the calls ended, if any.
fn half_text(
    heap: Global,
    heading: &[u8],
    report: &[u8],
    ended: Result<usize, Fault>,
) -> Result<Vec<u8>, AllocError>
    ensures { IfOk result (λ v. v.items ≡ heading.now ++ (report.now ++ fault_in ended)) }
{
    let fault = ending(heap, ended, "")?;
    put_together(heap, &[heading, report, fault.as_bytes()])
}

// What is printed of two strips whose rows are lawful, and of the join of the routes that their calls leave.
// Kept: the numbers one by one, as in `join_text`.
fn join_reports(
    heap: Global,
    first: &Strip<'_>,
    i: usize,
    leg: u16,
    second: &Strip<'_>,
    j: usize,
) -> Result<Vec<u8>, AllocError>
    ensures { IfOk result (λ v. JoinPrintsOnly first.now.bytes.now i leg second.now.bytes.now j v.items) }
{
    let a = show_money(heap, first)?;
    let b = show_money(heap, second)?;
    let count = joined_count(a.route.stop_count(), i, b.route.stop_count(), j);
    let joined = join(&a.route, i, leg, &b.route, j);
    let last = join_lines(heap, count, joined)?;
    let front = half_text(heap, b"first\n", a.report.as_slice(), a.ended)?;
    let back = half_text(heap, b"second\n", b.report.as_slice(), b.ended)?;
    put_together(heap, &[front.as_slice(), back.as_slice(), last.as_bytes()])
}

// What is printed of two strips and the join of the first i stops that one leaves with those of the other from place
// j on; a fault in the rows of either is printed alone.
// Kept: the numbers one by one: a type for them would be no plainer, since each number stands beside the strip that it
// counts in.
#[tactic(auto, using(crate::proofs::JoinOnly::first_fault, crate::proofs::JoinOnly::second_fault))]
pub fn join_text(
    heap: Global,
    first: &[u8],
    i: usize,
    leg: u16,
    second: &[u8],
    j: usize,
) -> Result<Vec<u8>, AllocError>
    ensures { IfOk result (λ v. JoinPrintsOnly first.now i leg second.now j v.items) }
{
    let first = match Strip::read(heap, first)? {
        Ok(strip) => strip,
        Err(fault) => return fault_text(heap, fault),
    };
    match Strip::read(heap, second)? {
        Ok(second) => join_reports(heap, &first, i, leg, &second, j),
        Err(fault) => fault_text(heap, fault),
    }
}
