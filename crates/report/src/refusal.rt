ghost use Rattle.std.specs.Prelude.{◌≡◌};
ghost use Rattle.report.specs.Refusals.{number};

// Why no report is written.
#[derive(Clone, Copy, PartialEq, Eq, Debug)]
pub enum ReportRefusal {
    // The report is longer than the buffer.
    BufferTooShort,
}

impl ReportRefusal {
    // The number under which the refusal is told.
    // Kept: a number, since it is what others know the refusal by.
    pub fn number(self) -> u8
        ensures { result ≡ number self }
    {
        match self {
            ReportRefusal::BufferTooShort => 6,
        }
    }
}
