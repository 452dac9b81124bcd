ghost use Rattle.std.specs.Prelude.{◌≡◌};
ghost use Rattle.reader.specs.Records.{record_at};

use crate::faults::Cause;
use crate::record::{Record, has_known_bits};
use source::due::DueRow;

// The bits of a row's map.
// Kept: numbers and no enum, since they are the format's own, and a map is shifted by them.
const FIRST: u32 = 0;

const LAST: u32 = 1;

const DUE: u32 = 2;

const EARLY: u32 = 3;

const LATE: u32 = 4;

// The row of the record at a byte, and where the next record begins.
pub(crate) fn read_row(strip: &[u8], at: usize) -> Result<(DueRow, usize), Cause>
    ensures { result ≡ record_at strip.now at }
{
    let mut record = Record::open(strip, at)?;
    if !has_known_bits(record.map) {
        return Err(Cause::RowMap);
    }
    let row = DueRow {
        first: record.field(FIRST)?.map_or(0, u16::from_be_bytes),
        last: record.field(LAST)?.map_or(1440, u16::from_be_bytes),
        due: record.field(DUE)?.map_or(0, u16::from_be_bytes),
        early: record.field(EARLY)?.map_or(0, u16::from_be_bytes),
        late: record.field(LATE)?.map_or(0, u16::from_be_bytes),
    };
    if row.lawful() {
        Ok((row, record.next))
    } else {
        Err(Cause::Unlawful)
    }
}
