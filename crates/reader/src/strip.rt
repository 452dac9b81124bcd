ghost use Rattle.std.specs.Prelude.{◌≡◌, Ok};
ghost use Rattle.reader.specs.Reading.{rows_answer, strip_answer};

use crate::faults::Fault;
use crate::rows::{MOST_ROWS, RowsRead, read_rows};
use source::due::DueRow;
use std::alloc::{AllocError, Global};

// A strip whose rows are lawful: its bytes, its rows, and the byte, counted from 0, where its calls begin.
#[derive(Drop)]
pub struct Strip<'a> {
    pub bytes: &'a [u8],
    pub rows: Vec<DueRow>,
    pub calls: usize,
    ghost held: { strip_answer bytes.now ≡ Ok (rows.items, calls) },
}

impl<'a> Strip<'a> {
    ghost use Rattle.std.specs.Prelude.{IfOk, IfErr, Err};
    ghost use Rattle.reader.specs.Exactly.{Holds, HoldsNone};

    // The strip that holds these rows.
    fn of(bytes: &'a [u8], rows: Vec<DueRow>, calls: usize) -> Strip<'a>
        requires { Holds bytes.now rows.items calls }
        ensures { (result.bytes.now ≡ bytes.now) × (result.rows ≡ rows) × (result.calls ≡ calls) }
    {
        Strip { bytes, rows, calls }
    }

    // Reads a strip's rows, or tells its fault.
    // Kept: two results, since who calls hands a want of memory on by `?` and prints a fault as what is asked for.
    #[tactic(auto, using(crate::proofs::Exact::front_holds, crate::proofs::Exact::holds_none))]
    pub fn read(heap: Global, bytes: &'a [u8]) -> Result<Result<Strip<'a>, Fault>, AllocError>
        ensures same { IfOk result (λ r. IfOk r (λ strip. strip.bytes.now ≡ bytes.now)) }
        ensures rows { IfOk result (λ r. IfOk r (λ strip. Holds bytes.now strip.rows.items strip.calls)) }
        ensures fault { IfOk result (λ r. IfErr r (λ fault. rows_answer bytes.now 64 ≡ Err fault)) }
        ensures none { IfOk result (λ r. IfErr r (λ _. HoldsNone bytes.now)) }
    {
        // Kept: `read_rows` fills a table that is lent, so that it wants no memory.
        let mut table = [DueRow::default(); MOST_ROWS];
        match read_rows(bytes, &mut table) {
            Ok(RowsRead { rows, calls }) => {
                let rows = Vec::from_slice(heap, &table[..rows])?;
                Ok(Ok(Strip::of(bytes, rows, calls)))
            }
            Err(fault) => Ok(Err(fault)),
        }
    }
}
