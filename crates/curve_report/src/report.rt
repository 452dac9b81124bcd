ghost use Rattle.std.specs.Prelude.{ℕ, ◌<◌, ◌≤◌, length, IfOk, string_bytes};
ghost use Rattle.curve_report.specs.Lines.{CurveLines, IsOpen, EachOpen, RowsText};
ghost use Rattle.curve_report.specs.Printed.{PrintsOnly};

use crate::lines::{curve_line, rows_line};
use reader::lines::fault_line;
use reader::strip::Strip;
use source::due::{DueBook, DueRow};
use std::alloc::{AllocError, Global};

// The lines of a book's first so many curves.
// Kept: a loop that pushes, since each line wants memory, and for the like lines of cards the proof of a chain did not
// close.
#[tactic(auto, using(crate::proofs::Open::one_more))]
fn curve_lines(heap: Global, book: &DueBook, count: u8) -> Result<String, AllocError>
    requires { (k : ℕ) → k < count → IsOpen book.now.rows.items k }
    ensures { IfOk result (λ s. CurveLines book.now.rows.items count (string_bytes s)) }
{
    let mut text = String::new(heap);
    for curve in 0..count {
        let line = curve_line(heap, book, curve)?;
        text.push_str(line.as_str())?;
    }
    Ok(text)
}

// The lines of all rows, which are curves of one book, and how many there are.
fn rows_text(heap: Global, rows: &[DueRow]) -> Result<String, AllocError>
    requires few { length rows.now ≤ 64 }
    requires open { EachOpen rows.now }
    ensures { IfOk result (λ s. RowsText rows.now (length rows.now) (string_bytes s)) }
{
    let count = rows.len();
    let book = DueBook::of_rows(heap, rows)?;
    // Kept: `as`, since std has no `From` from usize to u8, and there are 64 rows at the most.
    let mut text = curve_lines(heap, &book, count as u8)?;
    let last = rows_line(heap, count)?;
    text.push_str(last.as_str())?;
    Ok(text)
}

// What is printed of a strip whose rows are lawful.
#[tactic(auto, using(crate::proofs::Front::few_rows, crate::proofs::Front::open_rows))]
fn held_rows_text(heap: Global, strip: &Strip<'_>) -> Result<String, AllocError>
    ensures { IfOk result (λ s. PrintsOnly strip.now.bytes.now (string_bytes s)) }
{
    rows_text(heap, strip.rows.as_slice())
}

// What is printed of a strip: a line for each of its curves and how many there are, or its fault.
// Kept: beside the like function of `strip_report`, since the two make texts of two types; one for both would take what
// makes each as a parameter and be no plainer.
#[tactic(auto, using(crate::proofs::Front::printed_fault))]
pub fn curves_text(heap: Global, strip: &[u8]) -> Result<String, AllocError>
    ensures { IfOk result (λ s. PrintsOnly strip.now (string_bytes s)) }
{
    match Strip::read(heap, strip)? {
        Ok(strip) => held_rows_text(heap, &strip),
        Err(fault) => fault_line(heap, fault),
    }
}
