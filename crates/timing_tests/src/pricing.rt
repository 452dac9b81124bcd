ghost use Rattle.std.specs.Prelude.{◌≡◌, ℕ};
ghost use Rattle.timing_tests.specs.declared.due.Due.{Due as DueStop};
ghost use Rattle.timing_tests.specs.Dues.{money, promise};

use crate::due::Due;
use cost::amount::Amount;
use cost::kind::Cost;
use cost::pair::Pair;

// What stops with a due minute cost.
pub trait Pricing {
    type Exact;

    type Kind: Cost<Self::Exact>;

    ghost price: { Self → DueStop → ℕ → Self.Exact };

    fn charge(&self, stop: Due, t: u16) -> Self::Kind
        ensures { Self.Kind.Cost.exact result ≡ price self.now stop t };
}

// So much for each minute early, so much for each minute late.
#[derive(Clone, Copy)]
pub struct Money;

fn money_at(stop: Due, t: u16) -> Amount
    ensures { result.units ≡ money stop t }
{
    let rate = if t < stop.due { stop.early } else { stop.late };
    Amount::new(u64::from(rate) * u64::from(t.abs_diff(stop.due)))
}

impl Pricing for Money {
    type Exact = u64;

    type Kind = Amount;

    ghost price = { λ _. money };

    fn charge(&self, stop: Due, t: u16) -> Amount {
        money_at(stop, t)
    }
}

// Minutes late first, then money.
#[derive(Clone, Copy)]
pub struct Promise;

impl Pricing for Promise {
    type Exact = (u64, u64);

    type Kind = Pair<Amount, Amount>;

    ghost price = { λ _. promise };

    fn charge(&self, stop: Due, t: u16) -> Pair<Amount, Amount> {
        Pair {
            first: Amount::new(u64::from(t.saturating_sub(stop.due))),
            second: money_at(stop, t),
        }
    }
}
