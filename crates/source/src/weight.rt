ghost use Rattle.std.specs.Prelude.{◌≡◌};
ghost use Rattle.std.specs.Option.{option_map};
ghost use Rattle.source.specs.Meaning.{Lawful, price_of};
ghost use Rattle.source.specs.Layers.{weight_of, bears, weighted};

use crate::source::Source;
use cost::kind::Cost;

// 2^40: no peak passes it.
const HIGHEST_PEAK: u64 = 1 << 40;

// The weights of the curves 0 to 63.
// Kept: an array, since there are sixty-four, handed over together by value.
#[derive(Drop)]
struct WeightTable {
    entries: [u8; 64],
}

impl WeightTable {
    // The weight of a curve: one over 100 stands as 100, and past the table it is 0.
    fn weight(&self, curve: u8) -> u8
        ensures { result ≡ weight_of self.now.entries curve }
    {
        self.entries
            .get(usize::from(curve))
            .map_or(0, |weight| (*weight).min(100))
    }
}

// A source each of whose curves costs its weight's fold of the cost below.
#[derive(Drop)]
pub struct Weight<S> {
    source: S,
    table: WeightTable,
}

impl<S: Source> Weight<S> {
    pub fn new(source: S, weights: [u8; 64]) -> Weight<S>
        ensures { (result.source ≡ source) × (result.table.entries ≡ weights) }
    {
        Weight {
            source,
            table: WeightTable { entries: weights },
        }
    }

    // Whether 100 times the peak below stays within 2^40; the curves are closed where it does not.
    fn stands(&self) -> bool
        ensures value { result ≡ bears (S.Source.meaning self.now.source).peak }
        ensures below { Lawful S.Kind.Cost.algebra (S.Source.meaning self.now.source) }
        ensures lawful { Lawful S.Kind.Cost.algebra (weighted S.Kind.Cost.algebra self.now.table.entries (S.Source.meaning self.now.source)) }
    {
        let below = self.source.peak();
        100 * below <= HIGHEST_PEAK
    }

    // The cost of a curve at a minute, from the cost below.
    fn weigh(&self, curve: u8, minute: u16, below: Option<S::Kind>) -> Option<S::Kind>
        requires { option_map S.Kind.Cost.exact below ≡ price_of ((S.Source.meaning self.now.source).curve curve) minute }
        ensures { option_map S.Kind.Cost.exact result ≡ price_of ((weighted S.Kind.Cost.algebra self.now.table.entries (S.Source.meaning self.now.source)).curve curve) minute }
    {
        if !self.stands() {
            return None;
        }
        let cost = below?;
        Some(cost.times(self.table.weight(curve)))
    }
}

impl<S: Source> Source for Weight<S> {
    type Exact = S::Exact;

    type Kind = S::Kind;

    ghost meaning = { λ s. weighted S.Kind.Cost.algebra s.table.entries (S.Source.meaning s.source) };

    fn window(&self, curve: u8) -> Option<(u16, u16)> {
        if self.stands() {
            self.source.window(curve)
        } else {
            None
        }
    }

    fn cost(&self, curve: u8, minute: u16) -> Option<S::Kind> {
        self.weigh(curve, minute, self.source.cost(curve, minute))
    }

    fn peak(&self) -> u64 {
        if self.stands() {
            100 * self.source.peak()
        } else {
            0
        }
    }
}
