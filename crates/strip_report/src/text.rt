ghost use Rattle.std.specs.Prelude.{◌≡◌, IfOk};
ghost use Rattle.reader.specs.FaultLine.{fault_line};
ghost use Rattle.strip_report.specs.Printed.{strip_text, PrintsOnly};

use crate::books::promise_books;
use crate::pieces::{ending, put_together};
use crate::shown::{show, show_money};
use reader::faults::Fault;
use reader::lines::fault_line;
use reader::strip::Strip;
use std::alloc::{AllocError, Global};

// What is printed of a strip whose rows are at fault.
pub(crate) fn fault_text(heap: Global, fault: Fault) -> Result<Vec<u8>, AllocError>
    ensures { IfOk result (λ v. v.items ≡ fault_line fault) }
{
    Ok(fault_line(heap, fault)?.into_bytes())
}

// The two reports, each under its heading, and the last line.
fn strip_lines(
    heap: Global,
    money: &[u8],
    promise: &[u8],
    ended: Result<usize, Fault>,
) -> Result<Vec<u8>, AllocError>
    ensures { IfOk result (λ v. v.items ≡ strip_text money.now promise.now ended) }
{
    let last = ending(heap, ended, "whole\n")?;
    let pieces: [&[u8]; 5] = [b"money\n", money, b"promise\n", promise, last.as_bytes()];
    put_together(heap, &pieces)
}

// What is printed of a strip whose rows are lawful. Both routes answer its calls alike, so the fault of one is the fault
// of both.
fn both_reports(heap: Global, strip: &Strip<'_>) -> Result<Vec<u8>, AllocError>
    ensures { IfOk result (λ v. PrintsOnly strip.now.bytes.now v.items) }
{
    let money = show_money(heap, strip)?;
    let promise = show(heap, promise_books(heap, strip.rows.as_slice())?, strip)?;
    strip_lines(
        heap,
        money.report.as_slice(),
        promise.report.as_slice(),
        money.ended,
    )
}

// What is printed of a strip: its reports by money and by promise and how its calls ended, or the fault in its rows.
#[tactic(auto, using(crate::proofs::Only::printed_fault))]
pub fn strip_text(heap: Global, strip: &[u8]) -> Result<Vec<u8>, AllocError>
    ensures { IfOk result (λ v. PrintsOnly strip.now v.items) }
{
    match Strip::read(heap, strip)? {
        Ok(strip) => both_reports(heap, &strip),
        Err(fault) => fault_text(heap, fault),
    }
}
