ghost use Rattle.std.specs.Prelude.{◌≡◌, Some, IfOk, string_bytes};
ghost use Rattle.curve_report.specs.Lines.{facts_text, facts_line, CurveLine, IsOpen, rows_line};

use source::cheapest::cheapest;
use source::due::DueBook;
use source::source::Source;
use std::alloc::{AllocError, Global};
use std::fmt;
use std::fmt::{Display, Formatter};

// What is told of a curve: its number, its window, and the earliest of its minutes of least cost with that cost.
#[derive(Clone, Copy)]
struct CurveFacts {
    curve: u8,
    first: u16,
    last: u16,
    minute: u16,
    price: u64,
}

// Words and numbers, in the order of the fields.
impl Display for CurveFacts {
    ghost output = { λ f. Some (facts_text f) };

    fn fmt<W: fmt::Write>(&self, f: &mut Formatter<W>) -> fmt::Result {
        write!(
            f,
            "curve {} first {} last {} cheapest {} cost {}",
            self.curve, self.first, self.last, self.minute, self.price
        )
    }
}

// The line of a curve.
fn facts_line(heap: Global, facts: CurveFacts) -> Result<String, AllocError>
    ensures { IfOk result (λ s. string_bytes s ≡ facts_line facts) }
{
    format!(in heap; "{facts}\n")
}

// The line of an open curve.
// Kept: that it is open is a premise, here and of what hands it on, since whether a curve is open depends on its book.
pub(crate) fn curve_line(heap: Global, book: &DueBook, curve: u8) -> Result<String, AllocError>
    requires { IsOpen book.now.rows.items curve }
    ensures { IfOk result (λ s. CurveLine book.now.rows.items curve (string_bytes s)) }
{
    let (first, last) = book.window(curve).unwrap();
    let (minute, price) = cheapest(book, curve).unwrap();
    let facts = CurveFacts {
        curve,
        first,
        last,
        minute,
        price: price.units(),
    };
    facts_line(heap, facts)
}

// The line that says how many rows there are.
pub(crate) fn rows_line(heap: Global, count: usize) -> Result<String, AllocError>
    ensures { IfOk result (λ s. string_bytes s ≡ rows_line count) }
{
    format!(in heap; "rows {count}\n")
}
