ghost use Rattle.std.specs.Prelude.{◌≡◌, map, IfOk};
ghost use Rattle.source.specs.Due.{lateness};

use source::due::{DueBook, DueRow};
use source::pairing::Pairing;
use std::alloc::{AllocError, Global};

fn late_rows(heap: Global, rows: &[DueRow]) -> Result<Vec<DueRow>, AllocError>
    ensures { IfOk result (λ v. v.items ≡ map lateness rows.now) }
{
    rows.iter().map(|row| row.lateness()).collect(heap)
}

// The rows by promise: minutes late, then money.
pub(crate) fn promise_books(
    heap: Global,
    rows: &[DueRow],
) -> Result<Pairing<DueBook, DueBook>, AllocError>
    ensures { IfOk result (λ p. (p.first.rows.items ≡ map lateness rows.now) × (p.second.rows.items ≡ rows.now)) }
{
    let late = late_rows(heap, rows)?;
    let money = DueBook::of_rows(heap, rows)?;
    Ok(Pairing {
        first: DueBook::new(late),
        second: money,
    })
}
