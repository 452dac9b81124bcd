ghost use Rattle.route.specs.Unique.{OneAnswer};

use cost::kind::Cost;

// The theorem that answers and readings are settled by the splices and the source's meaning, for every kind of costs.
pub fn answer_is_one<E, C: Cost<E>>()
    ensures { OneAnswer C.Cost.algebra }
{}
