ghost use Rattle.std.specs.Prelude.{◌*◌, ◌^◌, ◌≤◌};
ghost use Rattle.std.proofs.Common.{sym, ◌∙◌, arith, mul-le-mul_left};
ghost use Rattle.cost.specs.Pairs.{paired};
ghost use Rattle.std.proofs.Math.Nat.{le-max_left, le-max_right};
ghost use Rattle.cost.specs.Folds.{fold_paired};

use crate::kind::Cost;
use crate::pair::Pair;

impl<X, Y, K: Cost<X>, L: Cost<Y>> Cost<(X, Y)> for Pair<K, L> {
    ghost algebra = { paired K.Cost.algebra L.Cost.algebra };

    ghost exact = { λ p. (K.Cost.exact p.first, L.Cost.exact p.second) };

    ghost sum = { λ p q. (K.Cost.sum p.0 q.0, L.Cost.sum p.1 q.1) };

    ghost multiple = { λ w p. (K.Cost.multiple w p.0, L.Cost.multiple w p.1) };

    ghost summed = { λ p q h i. (K.Cost.summed p.0 q.0 (omega arith) i, L.Cost.summed p.1 q.1 (omega arith) i) };

    ghost multiplied = { λ w p small h.
        let K' = K.Cost.algebra in
        let L' = L.Cost.algebra in
        let hx : w * K'.size p.0 ≤ 2 ^ 50 = omega (arith, mul-le-mul_left w (le-max_left (K'.size p.0) (L'.size p.1))) in
        let hy : w * L'.size p.1 ≤ 2 ^ 50 = omega (arith, mul-le-mul_left w (le-max_right (K'.size p.0) (L'.size p.1))) in
        (λ i. (K.Cost.multiplied w p.0 small hx i, L.Cost.multiplied w p.1 small hy i)) ∙ sym (fold_paired K' L' w p) };

    fn nought() -> Pair<K, L> {
        Pair {
            first: K::nought(),
            second: L::nought(),
        }
    }

    fn plus(self, other: Pair<K, L>) -> Pair<K, L> {
        Pair {
            first: self.first.plus(other.first),
            second: self.second.plus(other.second),
        }
    }

    fn times(self, w: u8) -> Pair<K, L> {
        Pair {
            first: self.first.times(w),
            second: self.second.times(w),
        }
    }

    fn less(self, other: Pair<K, L>) -> bool {
        self.first.less(other.first)
            || !other.first.less(self.first) && self.second.less(other.second)
    }
}
