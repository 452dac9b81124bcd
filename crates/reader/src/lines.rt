ghost use Rattle.std.specs.Prelude.{◌≡◌, Some, IfOk, string_bytes};
ghost use Rattle.reader.specs.FaultLine.{fault_words, fault_line, refusal_line};

use crate::faults::Fault;
use route::stop::{Named, Refusal};
use std::alloc::{AllocError, Global};
use std::fmt;
use std::fmt::{Display, Formatter, Write};

// The words of a fault: its number, the byte where its record began, and the stop if one is named.
impl Display for Fault {
    ghost output = { λ fault. Some (fault_words fault) };

    fn fmt<W: Write>(&self, f: &mut Formatter<W>) -> fmt::Result {
        let named = Named(self.cause.stop());
        write!(f, "fault {} byte {}{named}", self.cause.number(), self.byte)
    }
}

// The line of a fault.
pub fn fault_line(heap: Global, fault: Fault) -> Result<String, AllocError>
    ensures { IfOk result (λ s. string_bytes s ≡ fault_line fault) }
{
    format!(in heap; "{fault}\n")
}

// The line of a refusal of a call that stands in no strip.
pub fn refusal_line(heap: Global, refusal: Refusal) -> Result<String, AllocError>
    ensures { IfOk result (λ s. string_bytes s ≡ refusal_line refusal) }
{
    format!(in heap; "fault {refusal}\n")
}
