ghost use Rattle.std.specs.Prelude.{◌≡◌, ℕ, List, ◌++◌, length, decimal};
ghost use Rattle.cost.specs.Targets.{Puts};
ghost use Rattle.cost.specs.Texts.{left, after, laid, spaced};

use crate::pair::Pair;
use crate::target::{Measure, Target, Writer};

// What has a text, which it puts into any target: one that measures it, or one that writes it.
pub trait Text {
    ghost bytes: { Self → List ℕ };

    fn put<T: Target>(&self, target: &mut T) -> Option<()>
        ensures { Puts T.model (bytes self.now) target.old target.new result };

    // The room that the text leaves, if it fits.
    final fn fits(&self, room: usize) -> Option<usize>
        ensures { result ≡ left (length (bytes self.now)) room }
    {
        let mut measure = Measure { at: 0, size: room };
        self.put(&mut measure)?;
        Some(room - measure.at)
    }

    // Writes the text at a place of the buffer and answers the place after it; the buffer stays where the text does not fit.
    final fn write(&self, buf: &mut [u8], at: usize) -> Option<usize>
        ensures place { result ≡ after (length (bytes self.now)) at (length buf.old) }
        ensures bytes { buf.new ≡ laid buf.old at (bytes self.now) }
    {
        let size = buf.len();
        self.put(&mut Measure { at, size })?;
        let mut writer = Writer { buf, at };
        self.put(&mut writer)?;
        Some(writer.at)
    }
}

// Puts a number in decimal.
// Kept: digit by digit, since std prints a number only into a string on the heap or through a formatter, and a crate
// that does it without would be no plainer: one more under every crate, for these few lines.
#[tactic(auto, using(crate::proofs::Pieces::puts_digit, crate::proofs::Pieces::puts_last, crate::proofs::Pieces::puts_front))]
fn put_decimal<T: Target>(n: u64, target: &mut T) -> Option<()>
    ensures { Puts T.model (decimal n) target.old target.new result }
{
    if n >= 10 {
        put_decimal(n / 10, target)?;
    }
    // Kept: `as`, since the digit is less than 10 and std has no `From` from u64 to u8.
    target.put(&[b'0' + (n % 10) as u8])
}

impl Text for u64 {
    ghost bytes = { decimal };

    fn put<T: Target>(&self, target: &mut T) -> Option<()> {
        put_decimal(*self, target)
    }
}

impl Text for usize {
    ghost bytes = { decimal };

    fn put<T: Target>(&self, target: &mut T) -> Option<()> {
        // Kept: `as`, since std has no `From` from usize to u64.
        put_decimal(*self as u64, target)
    }
}

// Fixed words are their own text.
impl<const N: usize> Text for [u8; N] {
    ghost bytes = { λ word. word };

    fn put<T: Target>(&self, target: &mut T) -> Option<()> {
        target.put(self)
    }
}

// One text after another.
impl<A: Text, B: Text> Text for (A, B) {
    ghost bytes = { λ texts. A.bytes texts.0 ++ B.bytes texts.1 };

    #[tactic(auto, using(crate::proofs::Pieces::puts_then, crate::proofs::Pieces::puts_stop))]
    fn put<T: Target>(&self, target: &mut T) -> Option<()> {
        self.0.put(target)?;
        self.1.put(target)
    }
}

// The two parts' texts, with a space between.
impl<A: Text, B: Text> Text for Pair<A, B> {
    ghost bytes = { λ p. spaced (A.bytes p.first) (B.bytes p.second) };

    #[tactic(auto, using(crate::proofs::Pieces::puts_spaced))]
    fn put<T: Target>(&self, target: &mut T) -> Option<()> {
        self.first.put(target)?;
        target.put(b" ")?;
        self.second.put(target)
    }
}
