ghost use Rattle.std.specs.Prelude.{length, ◌++◌};
ghost use Rattle.cost.specs.Targets.{Puts};
ghost use Rattle.report.specs.Reports.{count_line, stop_line, stop_lines};

use cost::target::Target;
use cost::text::Text;
use route::stop::Facts;

// Puts the line of the stop at a place.
fn put_stop<T: Target>(place: usize, facts: &Facts, target: &mut T) -> Option<()>
    ensures { Puts T.model (stop_line place facts.now) target.old target.new result }
{
    let stop = (*b"stop ", place);
    let curve = (*b" curve ", u64::from(facts.curve));
    let minute = (*b" minute ", u64::from(facts.minute));
    (stop, (curve, (minute, *b"\n"))).put(target)
}

// How many stops there are, and the lines of all of them.
#[derive(Clone, Copy)]
pub(crate) struct StopLines<'a> {
    pub(crate) facts: &'a [Facts],
}

impl<'a> Text for StopLines<'a> {
    ghost bytes = { λ lines. count_line (length lines.facts.now) ++ stop_lines 1 lines.facts.now };

    #[tactic(auto, using(crate::proofs::Stops::stops_more, crate::proofs::Stops::stops_full, crate::proofs::Stops::count_full))]
    fn put<T: Target>(&self, target: &mut T) -> Option<()> {
        let count = (*b"stops ", self.facts.len());
        (count, *b"\n").put(target)?;
        for (i, stop) in self.facts.iter().enumerate() {
            put_stop(i + 1, stop, target)?;
        }
        Some(())
    }
}
