ghost use Rattle.std.specs.Prelude.{◌≡◌, Some};
ghost use Rattle.std.specs.Option.{option_map};
ghost use Rattle.source.specs.Meaning.{span_of};
ghost use Rattle.source.specs.Cheapest.{CheapestOf, exactly, better};

use crate::source::Source;
use cost::kind::Cost;

// The best minute so far, or a later one where it costs less; a minute without a cost is passed over.
fn cheaper<E, K: Cost<E>>(best: Option<(u16, K)>, minute: u16, cost: Option<K>) -> Option<(u16, K)>
    ensures { exactly K.Cost.exact result ≡ better K.Cost.algebra (exactly K.Cost.exact best) minute (option_map K.Cost.exact cost) }
{
    let Some(later) = cost else {
        return best;
    };
    let Some((earlier, least)) = best else {
        return Some((minute, later));
    };
    if later.less(least) {
        Some((minute, later))
    } else {
        Some((earlier, least))
    }
}

// Looks through the window of an open curve.
fn scan<S: Source>(source: &S, curve: u8, first: u16, last: u16) -> Option<(u16, S::Kind)>
    requires { span_of ((S.Source.meaning source.now).curve curve) ≡ Some (first, last) }
    ensures { CheapestOf S.Kind.Cost.algebra ((S.Source.meaning source.now).curve curve) (exactly S.Kind.Cost.exact result) }
{
    // With the peak comes the promise that no window is empty.
    let _ = source.peak();
    let mut best = None;
    for minute in first..=last {
        best = cheaper(best, minute, source.cost(curve, minute));
    }
    best
}

// The earliest minute of least cost of a curve, and that cost; absent where the window is.
pub fn cheapest<S: Source>(source: &S, curve: u8) -> Option<(u16, S::Kind)>
    ensures { CheapestOf S.Kind.Cost.algebra ((S.Source.meaning source.now).curve curve) (exactly S.Kind.Cost.exact result) }
{
    let (first, last) = source.window(curve)?;
    scan(source, curve, first, last)
}
