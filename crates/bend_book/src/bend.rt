ghost use Rattle.std.specs.Prelude.{◌≡◌, ◌-◌, ◌^◌, ◌≤◌, unsigned_abs};
ghost use Rattle.cost.specs.Amounts.{whole};
ghost use Rattle.source.specs.Meaning.{Lawful};
ghost use Rattle.source.specs.Books.{open_entry};
ghost use Rattle.std.specs.Option.{option_map};
ghost use Rattle.bend_book.specs.Bends.{LastUntil, step_at, lowest_after, own_bends, cost_at, bend_penalty};
ghost use Rattle.bend_book.specs.HeadTest.{head_limits, bend_fits, each_fits, follows, orderly, own_lawful, head_lawful, TestExact};
ghost use Rattle.bend_book.specs.BendBook.{BendConvex, bend_meaning};

use cost::amount::Amount;
use source::book::entry;
use source::source::Source;

// From `minute` on each minute adds `step` to the cost.
#[derive(Clone, Copy, PartialEq, Eq, Debug)]
pub struct Bend {
    pub minute: u16,
    pub step: i16,
}

// A curve from `first` to `last` that costs `start` at first, and whose bends are `count` entries of the book's table, the
// first at entry number `from`.
// Kept: `from` and `count` as numbers, since the rules have heads and bends in two tables.
#[derive(Clone, Copy, PartialEq, Eq, Debug, Default)]
pub struct BendHead {
    pub first: u16,
    pub last: u16,
    pub start: u32,
    pub from: u32,
    pub count: u8,
}

// Head k is curve k; heads from the 65th on are ignored.
#[derive(Drop)]
pub struct BendBook {
    heads: Vec<BendHead>,
    bends: Vec<Bend>,
}

impl Bend {
    // Whether the minute does not pass `last`, and the step lies from -1000 to 1000.
    fn fits(&self, last: u16) -> bool
        ensures { result ≡ bend_fits last self.now }
    {
        self.minute <= last && (-1000..=1000).contains(&self.step)
    }

    // Whether `next` comes at a later minute, with no smaller step.
    fn rises_to(&self, next: &Bend) -> bool
        ensures { result ≡ follows self.now next.now }
    {
        self.minute < next.minute && self.step <= next.step
    }
}

// A head and its own bends.
#[derive(Clone, Copy)]
struct Curve<'a> {
    head: BendHead,
    bends: &'a [Bend],
}

impl Curve<'_> {
    // The last bend whose minute is at most `minute`.
    fn last_until(&self, minute: u16) -> Option<&Bend>
        ensures { LastUntil minute self.now.bends.now (option_map (λ b. b.now) result) }
    {
        self.bends.iter().rev().find(|bend| bend.minute <= minute)
    }

    // The step of the last bend whose minute is at most `minute`, or 0.
    #[tactic(auto, using(crate::proofs::Steps::unmoved, crate::proofs::Steps::moved))]
    fn step_at(&self, minute: u16) -> i16
        ensures { result ≡ step_at self.now.bends.now minute }
    {
        self.last_until(minute).map_or(0, |bend| bend.step)
    }

    // The cost at a minute, below 0 or not, and the least cost from the first minute to it.
    #[tactic(auto, using(crate::proofs::Bent::bend_convex))]
    fn cost_and_lowest(&self, minute: u16) -> (i64, i64)
        ensures cost { result.0 ≡ cost_at self.now.head self.now.bends.now minute }
        ensures lowest { result.1 ≡ lowest_after self.now.head.start self.now.bends.now self.now.head.first (minute - self.now.head.first) }
        ensures bound { unsigned_abs result.0 ≤ 2 ^ 33 }
        ensures convex { BendConvex }
    {
        let mut cost = i64::from(self.head.start);
        let mut lowest = cost;
        for passed in self.head.first..minute {
            cost += i64::from(self.step_at(passed));
            lowest = lowest.min(cost);
        }
        (cost, lowest)
    }

    // The least cost in the window.
    fn lowest(&self) -> i64
        ensures { result ≡ lowest_after self.now.head.start self.now.bends.now self.now.head.first (self.now.head.last - self.now.head.first) }
    {
        let (_, lowest) = self.cost_and_lowest(self.head.last);
        lowest
    }

    fn each_fits(&self) -> bool
        ensures { result ≡ each_fits self.now.head.last self.now.bends.now }
    {
        self.bends.iter().all(|bend| bend.fits(self.head.last))
    }

    // Whether the first bend's minute is the head's, and each other bend follows the one before.
    fn is_orderly(&self) -> bool
        ensures { result ≡ orderly self.now.head.first self.now.bends.now }
    {
        match self.bends {
            [] => true,
            [bend, ..] => bend.minute == self.head.first
                && self.bends.is_sorted_by(|a, b| a.rises_to(b)),
        }
    }

    // Whether the bends are all there, in order and within their limits, and keep every cost of the window at 0 or above.
    fn has_lawful_bends(&self) -> bool
        ensures { result ≡ own_lawful self.now.head self.now.bends.now }
    {
        self.bends.len() == usize::from(self.head.count)
            && self.is_orderly()
            && self.each_fits()
            && self.lowest() >= 0
    }
}

impl BendHead {
    // The head with its bends, as far as the table has them; that the test of a head is exact rests here.
    #[tactic(auto, using(crate::proofs::Exact::test_exact))]
    fn curve<'a>(&self, table: &'a [Bend]) -> Curve<'a>
        ensures head { result.head ≡ self.now }
        ensures bends { result.bends.now ≡ own_bends table.now self.now }
        ensures exact { TestExact }
    {
        // Kept: a cast, since usize has no `From<u32>`, and `try_from` would want an answer for a failure that never comes.
        let rest = table.get(self.from as usize..).unwrap_or_default();
        let bends = rest.get(..usize::from(self.count)).unwrap_or(rest);
        Curve { head: *self, bends }
    }

    // The limits that a head keeps by itself.
    fn in_limits(&self) -> bool
        ensures { result ≡ head_limits self.now }
    {
        self.first <= self.last && self.last <= 1440 && self.start <= 500000 && self.count <= 16
    }

    // Whether the curve is open; the test is true exactly when every condition on a head holds.
    pub fn lawful(&self, table: &[Bend]) -> bool
        ensures value { result ≡ head_lawful table.now self.now }
        ensures exact { TestExact }
    {
        let curve = self.curve(table);
        self.in_limits() && curve.has_lawful_bends()
    }

    // What the minute costs by this head; every lawful head's curve is convex.
    pub fn penalty(&self, table: &[Bend], minute: u16) -> u64
        ensures value { result ≡ bend_penalty table.now self.now minute }
        ensures bound { result ≤ 2 ^ 33 }
        ensures convex { BendConvex }
    {
        let (cost, _) = self.curve(table).cost_and_lowest(minute);
        cost.unsigned_abs()
    }
}

// Kept: the due book has four short methods like these; one struct for both would need a trait with the test and the cost of an entry, its law, and a table that the test reads besides, which is more than it saves.
impl BendBook {
    pub fn new(heads: Vec<BendHead>, bends: Vec<Bend>) -> BendBook
        ensures { (result.heads ≡ heads) × (result.bends ≡ bends) }
    {
        BendBook { heads, bends }
    }

    // The head of an open curve.
    fn open_head(&self, curve: u8) -> Option<BendHead>
        ensures { result ≡ open_entry (head_lawful self.now.bends.items) self.now.heads.items curve }
    {
        entry(&self.heads, curve).filter(|head| head.lawful(&self.bends))
    }

    // 2^21: a lawful head starts at no more than 500000 and adds at most 1000 a minute, over at most 1440 minutes.
    fn highest(&self) -> u64
        ensures value { result ≡ 2097152 }
        ensures lawful { Lawful whole (bend_meaning self.now.bends.items self.now.heads.items) }
    {
        1 << 21
    }
}

impl Source for BendBook {
    type Exact = u64;

    type Kind = Amount;

    ghost meaning = { λ s. bend_meaning s.bends.items s.heads.items };

    fn window(&self, curve: u8) -> Option<(u16, u16)> {
        self.open_head(curve).map(|head| (head.first, head.last))
    }

    fn cost(&self, curve: u8, minute: u16) -> Option<Amount> {
        let head = self.open_head(curve)?;
        (head.first..=head.last)
            .contains(&minute)
            .then(|| Amount::new(head.penalty(&self.bends, minute)))
    }

    fn peak(&self) -> u64 {
        self.highest()
    }
}
