ghost use Rattle.std.specs.Prelude.{◌≡◌, ℕ, ◌+◌, ◌^◌, ◌≤◌, List, length, decimal};
ghost use Rattle.cost.specs.Texts.{spaced};
ghost use Rattle.cost.specs.Widths.{len_spaced};
ghost use Rattle.std.proofs.Common.{arith};
ghost use Rattle.std.proofs.lemmas.Fmt.{length-decimal-le};

use crate::amount::Amount;
use crate::kind::Cost;
use crate::pair::Pair;
use crate::text::Text;

// A cost kind with a text for each exact cost.
pub trait Written<E>: Cost<E> {
    // What holds the text of a cost.
    type Figures: Text + Copy;

    ghost text: { E → List ℕ };

    // No cost of a size up to 2^50 has a longer text.
    ghost longest: { ℕ };

    fn to_text(self) -> Self::Figures
        ensures { Self.Figures.bytes result ≡ text (Self.Cost.exact self) };

    ghost short: { (e : E) → Self.Cost.algebra.size e ≤ 2 ^ 50 → length (text e) ≤ longest };
}

impl Written<u64> for Amount {
    type Figures = u64;

    ghost text = { decimal };

    ghost longest = { 16 };

    ghost short = { λ e h. length-decimal-le 16 e (omega arith) (omega arith) (omega arith) };

    fn to_text(self) -> u64 {
        self.units
    }
}

impl<X, Y, K: Written<X>, L: Written<Y>> Written<(X, Y)> for Pair<K, L> {
    type Figures = Pair<K::Figures, L::Figures>;

    ghost text = { λ x. spaced (K.Written.text x.0) (L.Written.text x.1) };

    ghost longest = { K.Written.longest + 1 + L.Written.longest };

    ghost short = { λ e h. omega (arith, len_spaced (K.Written.text e.0) (L.Written.text e.1), K.Written.short e.0 (omega arith), L.Written.short e.1 (omega arith)) };

    fn to_text(self) -> Pair<K::Figures, L::Figures> {
        Pair {
            first: self.first.to_text(),
            second: self.second.to_text(),
        }
    }
}
