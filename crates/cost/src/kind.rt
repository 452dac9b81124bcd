ghost use Rattle.std.specs.Prelude.{◌≡◌, ℕ, ◌+◌, ◌*◌, ◌^◌, ◌≤◌};
ghost use Rattle.cost.specs.Algebra.{Algebra, fold};

// A cost kind: values that stand for exact costs E, which obey the laws of `Algebra` and have no upper limit.
pub trait Cost<E>: Copy {
    ghost algebra: { Algebra E };

    // The exact cost that a value stands for.
    ghost exact: { Self → E };

    // What a sum and a w-fold answer, by the kind's own rule past 2^50.
    ghost sum: { E → E → E };

    ghost multiple: { ℕ → E → E };

    fn nought() -> Self
        ensures { exact result ≡ algebra.nought };

    fn plus(self, other: Self) -> Self
        ensures { exact result ≡ sum (exact self) (exact other) };

    fn times(self, w: u8) -> Self
        ensures { exact result ≡ multiple w (exact self) };

    // The comparison is the order of the exact costs.
    // Kept: a method and not `Ord`, since the trait's law is about the exact costs, of which a derive knows nothing.
    fn less(self, other: Self) -> bool
        ensures { result ≡ algebra.less (exact self) (exact other) };

    // The sum is exact while the two sizes add up to at most 2^50, and the w-fold, for w up to 100, while w times the size is at most 2^50.
    ghost summed: { (a b : E) → algebra.size a + algebra.size b ≤ 2 ^ 50 → sum a b ≡ algebra.plus a b };

    ghost multiplied: { (w : ℕ) (a : E) → w ≤ 100 → w * algebra.size a ≤ 2 ^ 50 → multiple w a ≡ fold algebra w a };
}
