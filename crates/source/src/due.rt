ghost use Rattle.std.specs.Prelude.{◌≡◌, ◌*◌, IfOk};
ghost use Rattle.cost.specs.Amounts.{whole};
ghost use Rattle.source.specs.Meaning.{Lawful};
ghost use Rattle.source.specs.Books.{open_entry};
ghost use Rattle.source.specs.Due.{row_lawful, due_penalty, rated, lateness, due_meaning, DueConvex};

use crate::book::entry;
use crate::source::Source;
use cost::amount::Amount;
use std::alloc::{AllocError, Global};

// A row of the due book: the curve is open from `first` to `last`, and costs by how far a minute lies from `due`.
#[derive(Clone, Copy, PartialEq, Eq, Debug, Default)]
pub struct DueRow {
    pub first: u16,
    pub last: u16,
    pub due: u16,
    pub early: u16,
    pub late: u16,
}

// Row k is curve k; rows from the 65th on are ignored.
#[derive(Drop)]
pub struct DueBook {
    rows: Vec<DueRow>,
}

// What that many minutes cost at a rate; the theorem on due curves rests here.
fn charge(rate: u16, minutes: u16) -> u64
    ensures value { result ≡ rate * minutes }
    ensures convex { DueConvex }
{
    u64::from(rate) * u64::from(minutes)
}

impl DueRow {
    // The same row at other rates.
    fn at_rates(self, early: u16, late: u16) -> DueRow
        ensures { result ≡ rated self early late }
    {
        DueRow {
            early,
            late,
            ..self
        }
    }

    // The same row, by which a minute late costs 1 and a minute early nothing.
    pub fn lateness(self) -> DueRow
        ensures { result ≡ lateness self }
    {
        self.at_rates(0, 1)
    }

    pub fn lawful(&self) -> bool
        ensures { result ≡ row_lawful self.now }
    {
        self.first <= self.last
            && self.last <= 1440
            && self.due <= 1440
            && self.early <= 1000
            && self.late <= 1000
    }

    // What the minute costs by this row, in its window or not; every row's curve is convex.
    pub fn penalty(&self, minute: u16) -> u64
        ensures value { result ≡ due_penalty self.now minute }
        ensures convex { DueConvex }
    {
        if minute < self.due {
            charge(self.early, self.due - minute)
        } else {
            charge(self.late, minute - self.due)
        }
    }
}

impl DueBook {
    pub fn new(rows: Vec<DueRow>) -> DueBook
        ensures { result.rows ≡ rows }
    {
        DueBook { rows }
    }

    // A book of rows that stay where they are.
    pub fn of_rows(heap: Global, rows: &[DueRow]) -> Result<DueBook, AllocError>
        ensures { IfOk result (λ book. book.rows.items ≡ rows.now) }
    {
        Ok(DueBook::new(Vec::from_slice(heap, rows)?))
    }

    // The row of an open curve.
    fn open_row(&self, curve: u8) -> Option<DueRow>
        ensures { result ≡ open_entry row_lawful self.now.rows.items curve }
    {
        // Kept: no `filter`, by which the search through a window takes a branch more at each minute.
        let row = entry(&self.rows, curve)?;
        row.lawful().then_some(row)
    }

    // 2^21: a lawful row costs at most 1000 a minute, over at most 1440 minutes.
    fn highest(&self) -> u64
        ensures value { result ≡ 2097152 }
        ensures lawful { Lawful whole (due_meaning self.now.rows.items) }
    {
        1 << 21
    }
}

impl Source for DueBook {
    type Exact = u64;

    type Kind = Amount;

    ghost meaning = { λ s. due_meaning s.rows.items };

    fn window(&self, curve: u8) -> Option<(u16, u16)> {
        self.open_row(curve).map(|row| (row.first, row.last))
    }

    fn cost(&self, curve: u8, minute: u16) -> Option<Amount> {
        let row = self.open_row(curve)?;
        (row.first..=row.last)
            .contains(&minute)
            .then(|| Amount::new(row.penalty(minute)))
    }

    fn peak(&self) -> u64 {
        self.highest()
    }
}
