ghost use Rattle.std.specs.Prelude.{◌≡◌, None};
ghost use Rattle.cost.specs.Measuring.{measuring};
ghost use Rattle.cost.specs.Targets.{TargetModel, Puts};
ghost use Rattle.cost.specs.Writing.{writing};

// What takes text, one piece after another: each whole where it fits, or else not at all.
pub trait Target {
    ghost model: { TargetModel Self };

    fn put(&mut self, bytes: &[u8]) -> Option<()>
        ensures puts { Puts model bytes.now self.old self.new result }
        ensures stays { result ≡ None → self.new ≡ self.old };
}

// Measures a text: counts its bytes from a place on, up to a size.
#[derive(Clone, Copy, PartialEq, Eq, Debug)]
pub struct Measure {
    pub at: usize,
    pub size: usize,
}

// Writes a text into a buffer that is lent, from a place on.
#[derive(Drop)]
pub struct Writer<'a> {
    pub buf: &'a mut [u8],
    pub at: usize,
}

impl Target for Measure {
    ghost model = { measuring };

    fn put(&mut self, bytes: &[u8]) -> Option<()> {
        let Measure { at, size } = *self;
        let end = at.checked_add(bytes.len())?;
        if end > size {
            return None;
        }
        self.at = end;
        Some(())
    }
}

impl<'a> Target for Writer<'a> {
    ghost model = { writing };

    #[tactic(auto, using(crate::proofs::Bytes::put_range))]
    fn put(&mut self, bytes: &[u8]) -> Option<()> {
        let end = self.at.checked_add(bytes.len())?;
        // Kept: not `get_mut(self.at..end)`, whose contract does not say what the buffer is after the loan.
        if end > self.buf.len() {
            return None;
        }
        self.buf[self.at..end].copy_from_slice(bytes);
        self.at = end;
        Some(())
    }
}
