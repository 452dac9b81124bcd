ghost use Rattle.std.specs.Prelude.{◌≡◌, ◌-◌, Some, cond};
ghost use Rattle.route.specs.Refusals.{number, named, named_text, refusal_text};
ghost use Rattle.route.specs.FactsText.{facts_text};
ghost use Rattle.route.specs.Plain.{place};

use std::fmt;
use std::fmt::{Display, Formatter};

// A record of the stop table: which curve the stop has, the minutes of travel before it, and its mark.
#[derive(Clone, Copy, PartialEq, Eq, Debug, Default)]
pub struct Stop {
    pub curve: u8,
    pub leg: u16,
    pub mark: u16,
}

impl Stop {
    // A stop whose mark is still to be found.
    // Kept: 0 and no Option, since every stop of a route has its mark; it is 0 only within a splice.
    pub(crate) fn new(curve: u8, leg: u16) -> Stop
        ensures { result ≡ record { curve = curve; leg = leg; mark = 0 } }
    {
        Stop {
            curve,
            leg,
            mark: 0,
        }
    }
}

// What is told of a stop.
#[derive(Clone, Copy, PartialEq, Eq, Debug, Default)]
pub struct Facts {
    pub curve: u8,
    pub leg: u16,
    pub mark: u16,
    pub minute: u16,
}

// Words and numbers, in the order of the fields.
impl Display for Facts {
    ghost output = { λ f. Some (facts_text f) };

    fn fmt<W: fmt::Write>(&self, f: &mut Formatter<W>) -> fmt::Result {
        write!(
            f,
            "curve {} leg {} mark {} minute {}",
            self.curve, self.leg, self.mark, self.minute
        )
    }
}

// A change of the stop table. Places are counted from 1.
#[derive(Clone, Copy, PartialEq, Eq, Debug)]
pub enum Splice {
    Insert {
        place: usize,
        curve: u8,
        leg_in: u16,
        leg_out: u16,
    },
    Remove {
        place: usize,
        leg: u16,
    },
    Change {
        place: usize,
        curve: u8,
    },
}

// Why a call is refused.
#[derive(Clone, Copy, PartialEq, Eq, Debug)]
pub enum Refusal {
    // The place is none of the route's.
    Place,
    // The route has 64 stops.
    Full,
    // The curve's window is absent.
    Curve,
    // A leg is over 600 minutes.
    Leg,
    // There is no timetable; `stop` is the first stop, counted from 1, up to which none exists.
    NoTimetable { stop: usize },
}

impl Refusal {
    // The number under which a refusal is told.
    // Kept: a number for each case, since it is what is printed and what others know a refusal by.
    pub fn number(&self) -> u8
        ensures { result ≡ number self.now }
    {
        match self {
            Refusal::Place => 1,
            Refusal::Full => 2,
            Refusal::Curve => 3,
            Refusal::Leg => 4,
            Refusal::NoTimetable { .. } => 5,
        }
    }

    // The stop that a refusal names, if any.
    pub fn stop(&self) -> Option<usize>
        ensures { result ≡ named self.now }
    {
        match self {
            Refusal::NoTimetable { stop } => Some(*stop),
            _ => None,
        }
    }

    // Refuses a call where a test speaks against it.
    pub(crate) fn refuse_if(self, test: bool) -> Result<(), Refusal>
        ensures { result ≡ cond test (Err self) (Ok tt) }
    {
        if test { Err(self) } else { Ok(()) }
    }
}

// A stop that is named, if any, as it stands behind a number.
#[derive(Clone, Copy, PartialEq, Eq, Debug)]
pub struct Named(pub Option<usize>);

impl Display for Named {
    ghost output = { λ n. Some (named_text n.0) };

    fn fmt<W: fmt::Write>(&self, f: &mut Formatter<W>) -> fmt::Result {
        match self.0 {
            Some(stop) => write!(f, " stop {stop}"),
            None => Ok(()),
        }
    }
}

// The number, and the stop that is named.
impl Display for Refusal {
    ghost output = { λ r. Some (refusal_text r) };

    fn fmt<W: fmt::Write>(&self, f: &mut Formatter<W>) -> fmt::Result {
        write!(f, "{}{}", self.number(), Named(self.stop()))
    }
}

impl Splice {
    // The place of a splice.
    pub fn place(&self) -> usize
        ensures { result ≡ place self.now }
    {
        match self {
            Splice::Insert { place, .. }
            | Splice::Remove { place, .. }
            | Splice::Change { place, .. } => *place,
        }
    }

    // How many stops lie before the place; their marks stay as they are.
    pub(crate) fn front(&self) -> usize
        ensures { result ≡ place self.now - 1 }
    {
        self.place().saturating_sub(1)
    }
}
