ghost use Rattle.std.specs.Prelude.{◌≡◌, ℕ, ◌+◌, ◌<◌, ◌≤◌, not, length, take, ◌≢◌, slice_index};
ghost use Rattle.timing.specs.Timetables.{Feasible};
ghost use Rattle.timing.specs.Marks.{Mark, Marks};
ghost use Rattle.timing.specs.Reach.{reached};
ghost use Rattle.timing.specs.Moving.{block};
ghost use Rattle.timing.specs.Sound.{Sound};
ghost use Rattle.timing.specs.Ready.{Ready};
ghost use Rattle.timing.specs.Narrowing.{Choice, Halves};

use crate::line::Line;
use crate::marked::MarkedLine;
use crate::minutes::{latest_before, price};
use crate::reach::{arrival, soonest, span};
use cost::kind::Cost;

// Whether a is at most b. Equal costs count, so that ties go to the earliest minute.
fn at_most<E, K: Cost<E>>(a: K, b: K) -> bool
    ensures { result ≡ not (K.Cost.algebra.less (K.Cost.exact b) (K.Cost.exact a)) }
{
    !b.less(a)
}

impl<L: Line> MarkedLine<'_, L> {
    // What the stops that move with the next one cost, with that one at minute t and at t + 1.
    #[tactic(auto, using(crate::proofs::Blocks::walk_stops))]
    fn block_cost(&self, t: u16) -> (L::Kind, L::Kind)
        requires { t < 65535 }
        ensures { let K = L.Kind.Cost.algebra in
            let vs = L.visits self.now.line.now in
            let ms = self.now.marks.now in
            Choice K vs ms t → (L.Kind.Cost.exact result.0, L.Kind.Cost.exact result.1) ≡ block K vs ms t }
    {
        let next = self.marks.len();
        let mut here = price(self.line, next, t);
        let mut later = price(self.line, next, t + 1);
        let mut left = latest_before(self.line, next, t);
        for (j, mark) in self.marks.iter().enumerate().rev() {
            if *mark <= left {
                return (here, later);
            }
            here = here.plus(price(self.line, j, left));
            later = later.plus(price(self.line, j, left + 1));
            left = latest_before(self.line, j, left);
        }
        (here, later)
    }

    // Whether ending at minute t costs at most what ending a minute later costs.
    fn rises(&self, t: u16) -> bool
        requires { t < 65535 }
        ensures { let K = L.Kind.Cost.algebra in
            let vs = L.visits self.now.line.now in
            let ms = self.now.marks.now in
            Ready K vs ms → Halves K vs ms t result }
    {
        let (here, later) = self.block_cost(t);
        at_most(here, later)
    }

    // The mark of the next stop, which can be reached at `soonest`: found by halving what is left of its window.
    #[tactic(auto, using(crate::proofs::Marking::between_all, crate::proofs::Marking::between_one))]
    fn mark_from(&self, soonest: u16) -> u16
        ensures { let K = L.Kind.Cost.algebra in
            let vs = L.visits self.now.line.now in
            let ms = self.now.marks.now in
            Ready K vs ms → soonest ≡ reached vs (length ms + 1) → Mark K vs (length ms) result }
    {
        let mut low = soonest;
        let (_, mut high) = span(self.line, self.marks.len());
        // Kept: halved by hand, since `partition_point` searches a slice, and these are minutes.
        while low < high {
            let middle = low + (high - low) / 2;
            if self.rises(middle) {
                high = middle;
            } else {
                low = middle + 1;
            }
        }
        low
    }

    // The mark of the next stop, where `marks` are those of the stops before it.
    pub fn next_mark(&self) -> u16
        ensures { let K = L.Kind.Cost.algebra in
            let vs = L.visits self.now.line.now in
            let ms = self.now.marks.now in
            Ready K vs ms → Mark K vs (length ms) result }
    {
        let n = self.marks.len();
        self.mark_from(soonest(self.line, n, arrival(self.line, n)))
    }
}

// Writes the mark of stop i, which can be reached at `soonest`, behind the marks of the stops before it.
fn write_mark<L: Line>(line: &L, marks: &mut [u16], i: usize, soonest: u16)
    requires { i < length marks.old }
    ensures others { (k : ℕ) → (k ≢ i) → slice_index marks.new k ≡ slice_index marks.old k }
    ensures marked { let K = L.Kind.Cost.algebra in
        let vs = L.visits line.now in
        Sound K vs → Feasible vs → i < length vs → soonest ≡ reached vs (i + 1) → Marks K (take i vs) (take i marks.old) → Marks K (take (i + 1) vs) (take (i + 1) marks.new) }
{
    let front = MarkedLine {
        line,
        marks: &marks[..i],
    };
    // Kept: by its number, since `split_last_mut`, tried, adds a branch that never runs, and wants lemmas on what it puts back.
    marks[i] = front.mark_from(soonest);
}

// Writes the marks of the stops from number `from` on, as far as there is room; the others stay.
pub fn refresh<L: Line>(line: &L, marks: &mut [u16], from: usize)
    ensures before { (k : ℕ) → k < from → slice_index marks.new k ≡ slice_index marks.old k }
    ensures after { (k : ℕ) → length (L.visits line.now) ≤ k → slice_index marks.new k ≡ slice_index marks.old k }
    ensures marked { let K = L.Kind.Cost.algebra in
        let vs = L.visits line.now in
        Sound K vs → Feasible vs → from ≤ length vs → length vs ≤ length marks.old → Marks K (take from vs) (take from marks.old) → Marks K vs (take (length vs) marks.new) }
{
    let mut ready = arrival(line, from);
    // Kept: by number, since each mark is found from all those before it, and an iterator would lend them out.
    for i in from..line.count().min(marks.len()) {
        ready = soonest(line, i, ready);
        write_mark(line, marks, i, ready);
    }
}
