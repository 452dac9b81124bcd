ghost use Rattle.std.specs.Prelude.{◌≡◌, length};
ghost use Rattle.reader.specs.Reading.{row_count, past_row, entry_after, rows_from, end_from, rows_answer, rows_of, over_front};
ghost use Rattle.reader.specs.Exactly.{ReadsExactly};

use crate::faults::{Cause, Fault};
use crate::row::read_row;
use source::due::DueRow;

pub(crate) const LONGEST: usize = 4096;

pub(crate) const MOST_ROWS: usize = 64;

// How many rows a strip has, and the byte, counted from 0, where its calls begin.
// Kept: the rows themselves stand in a table that is lent, so that reading them wants no memory.
#[derive(Clone, Copy, PartialEq, Eq, Debug)]
pub struct RowsRead {
    pub rows: usize,
    pub calls: usize,
}

// How many rows the strip has, if it and a table with so much room may hold them.
fn row_count(strip: &[u8], room: usize) -> Result<usize, Fault>
    ensures { result ≡ row_count strip.now room }
{
    let count = usize::from(*strip.first().ok_or(Cause::CutOff.at_start())?);
    if strip.len() > LONGEST || count > MOST_ROWS {
        return Err(Cause::TooLarge.at_start());
    }
    if room < count {
        return Err(Cause::NoRoom.at_start());
    }
    Ok(count)
}

// Reads the record at a byte, so many rows having been read before it, into an entry of the table, and answers where the
// next record begins.
fn read_entry(strip: &[u8], done: usize, at: usize, entry: &mut DueRow) -> Result<usize, Fault>
    ensures answer { result ≡ past_row strip.now done at }
    ensures entry { entry.new ≡ entry_after strip.now at entry.old }
{
    let (row, next) = read_row(strip, at).map_err(|cause| cause.fault(done, at))?;
    *entry = row;
    Ok(next)
}

// Reads records, from byte 1 on, one into each of these entries.
fn fill_rows(strip: &[u8], entries: &mut [DueRow]) -> Result<RowsRead, Fault>
    ensures answer { result ≡ end_from strip.now (length entries.old) 0 1 }
    ensures entries { entries.new ≡ over_front (rows_from strip.now (length entries.old) 1) entries.old }
{
    let mut at = 1;
    for (done, entry) in entries.iter_mut().enumerate() {
        at = read_entry(strip, done, at, entry)?;
    }
    Ok(RowsRead {
        rows: entries.len(),
        calls: at,
    })
}

// Reads a strip's rows into the table's first entries. Where a record is wrong, the rows before it stay written;
// all other entries are as they were.
#[tactic(auto, using(crate::proofs::Tables::front_read, crate::proofs::Exact::front_exact))]
pub fn read_rows(strip: &[u8], table: &mut [DueRow]) -> Result<RowsRead, Fault>
    ensures answer { result ≡ rows_answer strip.now (length table.old) }
    ensures table { table.new ≡ over_front (rows_of strip.now (length table.old)) table.old }
    ensures exact { ReadsExactly strip.now table.old table.new result }
{
    let count = row_count(strip, table.len())?;
    fill_rows(strip, &mut table[..count])
}
