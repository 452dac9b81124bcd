ghost use Rattle.std.specs.Prelude.{◌≡◌};
ghost use Rattle.source.specs.Meaning.{Lawful};
ghost use Rattle.source.specs.Layers.{pairing};
ghost use Rattle.cost.specs.Pairs.{paired};

use crate::source::Source;
use cost::pair::Pair;

// Two sources side by side: a curve costs the pair of their costs, over the minutes common to both windows.
#[derive(Drop)]
pub struct Pairing<A, B> {
    pub first: A,
    pub second: B,
}

impl<A: Source, B: Source> Pairing<A, B> {
    // The two peaks. The larger of two within 2^40 is within 2^40, so a pairing never has to close its curves.
    fn peaks(&self) -> (u64, u64)
        ensures first { result.0 ≡ (A.Source.meaning self.now.first).peak }
        ensures second { result.1 ≡ (B.Source.meaning self.now.second).peak }
        ensures lawful { Lawful (paired A.Kind.Cost.algebra B.Kind.Cost.algebra) (pairing (A.Source.meaning self.now.first) (B.Source.meaning self.now.second)) }
    {
        (self.first.peak(), self.second.peak())
    }
}

impl<A: Source, B: Source> Source for Pairing<A, B> {
    type Exact = (A::Exact, B::Exact);

    type Kind = Pair<A::Kind, B::Kind>;

    ghost meaning = { λ s. pairing (A.Source.meaning s.first) (B.Source.meaning s.second) };

    fn window(&self, curve: u8) -> Option<(u16, u16)> {
        let (first, last) = self.first.window(curve)?;
        let (from, to) = self.second.window(curve)?;
        let low = first.max(from);
        let high = last.min(to);
        (low <= high).then_some((low, high))
    }

    fn cost(&self, curve: u8, minute: u16) -> Option<Pair<A::Kind, B::Kind>> {
        let first = self.first.cost(curve, minute)?;
        let second = self.second.cost(curve, minute)?;
        Some(Pair { first, second })
    }

    fn peak(&self) -> u64 {
        let (first, second) = self.peaks();
        first.max(second)
    }
}
