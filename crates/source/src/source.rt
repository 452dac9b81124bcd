ghost use Rattle.std.specs.Prelude.{◌≡◌};
ghost use Rattle.source.specs.Meaning.{Meaning, Lawful, span_of, price_of};
ghost use Rattle.std.specs.Option.{option_map};

use cost::kind::Cost;

// A penalty source: it has one cost kind and curves 0 to 63, and answers by its meaning. No question alters it.
pub trait Source {
    type Exact;

    type Kind: Cost<Self::Exact>;

    ghost meaning: { Self → Meaning Self.Exact };

    // The first and last minute of a curve, absent where it is closed.
    // Kept: a pair of minutes, since the rules hand them over together so, and the meaning tells a window as first and last.
    fn window(&self, curve: u8) -> Option<(u16, u16)>
        ensures { result ≡ span_of ((meaning self.now).curve curve) };

    // What a minute of a curve costs, absent where the window does not hold it.
    fn cost(&self, curve: u8, minute: u16) -> Option<Self::Kind>
        ensures { option_map Self.Kind.Cost.exact result ≡ price_of ((meaning self.now).curve curve) minute };

    // No cost is larger; with the answer comes the promise that the meaning keeps its bounds and the law.
    fn peak(&self) -> u64
        ensures value { result ≡ (meaning self.now).peak }
        ensures lawful { Lawful Self.Kind.Cost.algebra (meaning self.now) };
}
