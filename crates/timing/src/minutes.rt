ghost use Rattle.std.specs.Prelude.{◌≡◌, ℕ, ◌+◌, ◌-◌, ◌<◌, ◌≤◌, min, length, slice_index};
ghost use Rattle.timing.specs.Visits.{at};
ghost use Rattle.timing.specs.Timetables.{Timetable, bill};
ghost use Rattle.timing.specs.Minutes.{minutes};
ghost use Rattle.timing.specs.Sound.{Sound};
ghost use Rattle.timing.specs.Charges.{Served, charged};

use crate::line::Line;
use crate::marked::MarkedLine;
use cost::kind::Cost;

// The latest minute of the stop before stop i from which i is still reached at `minute`.
pub(crate) fn latest_before<L: Line>(line: &L, i: usize, minute: u16) -> u16
    ensures { result ≡ minute - (at L.Kind.Cost.algebra (L.visits line.now) i).leg }
{
    minute.saturating_sub(line.leg(i))
}

// The cost of stop j at a minute, and nought where it has none.
pub(crate) fn price<L: Line>(line: &L, j: usize, minute: u16) -> L::Kind
    ensures { let v = at L.Kind.Cost.algebra (L.visits line.now) j in
        v.first ≤ minute → minute ≤ v.last → L.Kind.Cost.exact result ≡ v.price minute }
{
    line.cost(j, minute).unwrap_or(L::Kind::nought())
}

impl<L: Line> MarkedLine<'_, L> {
    // How many stops have a mark.
    #[tactic(auto, using(crate::proofs::Timings::minutes_past, crate::proofs::Timings::charged_none))]
    fn count(&self) -> usize
        ensures count { result ≡ min (length (L.visits self.now.line.now)) (length self.now.marks.now) }
        ensures past { (k : ℕ) → result ≤ k → slice_index (minutes (L.visits self.now.line.now) self.now.marks.now) k ≡ 0 }
        ensures free { let K = L.Kind.Cost.algebra in
            let vs = L.visits self.now.line.now in
            let ms = self.now.marks.now in
            Served K vs ms → charged K vs ms result ≡ K.nought }
    {
        self.line.count().min(self.marks.len())
    }

    // The minute of stop j, where the next stop with a mark is served at minute `next`.
    #[tactic(auto, using(crate::proofs::Timings::minutes_last, crate::proofs::Timings::minutes_step))]
    fn minute_before(&self, j: usize, next: u16) -> u16
        requires { (j < length (L.visits self.now.line.now)) × (j < length self.now.marks.now) }
        ensures { let ts = minutes (L.visits self.now.line.now) self.now.marks.now in
            next ≡ slice_index ts (j + 1) → result ≡ slice_index ts j }
    {
        // Kept: by number, since an iterator would hand the mark over beside its number, and a premise would have to say
        // that they belong together.
        let mark = self.marks[j];
        if j + 1 < self.count() {
            mark.min(latest_before(self.line, j + 1, next))
        } else {
            mark
        }
    }

    // The minute of stop i in the timetable that the marks give: 0 where the stop has no mark.
    // Kept: 0 and no Option, since the promise is an entry of a list, which is 0 past its end.
    pub fn minute(&self, i: usize) -> u16
        ensures { result ≡ slice_index (minutes (L.visits self.now.line.now) self.now.marks.now) i }
    {
        let mut minute = 0;
        for j in (i..self.count()).rev() {
            minute = self.minute_before(j, minute);
        }
        minute
    }

    // The cost of the stops from j on, where those after j cost `total` and j is served at `minute`.
    fn charge(&self, j: usize, minute: u16, total: L::Kind) -> L::Kind
        ensures { let K = L.Kind.Cost.algebra in
            let vs = L.visits self.now.line.now in
            let ms = self.now.marks.now in
            Served K vs ms → j < length vs → minute ≡ slice_index (minutes vs ms) j → L.Kind.Cost.exact total ≡ charged K vs ms (j + 1) → L.Kind.Cost.exact result ≡ charged K vs ms j }
    {
        price(self.line, j, minute).plus(total)
    }

    // The cost of the timetable that the marks give.
    pub fn least(&self) -> L::Kind
        ensures { let K = L.Kind.Cost.algebra in
            let vs = L.visits self.now.line.now in
            let ms = self.now.marks.now in
            Sound K vs → Timetable vs (minutes vs ms) → L.Kind.Cost.exact result ≡ bill K vs (minutes vs ms) }
    {
        let mut total = L::Kind::nought();
        let mut next = 0;
        for j in (0..self.count()).rev() {
            next = self.minute_before(j, next);
            total = self.charge(j, next, total);
        }
        total
    }
}
