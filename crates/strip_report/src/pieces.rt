ghost use Rattle.std.specs.Prelude.{◌≡◌, flat_map, IfOk, string_bytes};
ghost use Rattle.strip_report.specs.Printed.{ending};

use reader::faults::Fault;
use reader::lines::fault_line;
use std::alloc::{AllocError, Global};

// Texts, one behind another.
pub(crate) fn put_together(heap: Global, pieces: &[&[u8]]) -> Result<Vec<u8>, AllocError>
    ensures { IfOk result (λ v. v.items ≡ flat_map (λ piece. piece.now) pieces.now) }
{
    pieces.concat(heap)
}

// How a strip's calls ended: these words where there was no fault, or else the fault.
pub(crate) fn ending(
    heap: Global,
    ended: Result<usize, Fault>,
    words: &str,
) -> Result<String, AllocError>
    ensures { IfOk result (λ s. string_bytes s ≡ ending words.now ended) }
{
    match ended {
        Ok(_) => String::from_str(heap, words),
        Err(fault) => fault_line(heap, fault),
    }
}
