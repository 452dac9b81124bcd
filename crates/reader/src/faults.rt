ghost use Rattle.std.specs.Prelude.{◌≡◌};
ghost use Rattle.reader.specs.Causes.{cause_number, fault_at, at_start, carried};
ghost use Rattle.reader.specs.FaultLine.{stop_in};

use route::stop::Refusal;

// Why a strip was refused.
#[derive(Clone, Copy, PartialEq, Eq, Debug)]
pub enum Cause {
    // the table has fewer rows than the strip
    NoRoom,
    // the strip is empty, or ends before a map or within a field
    CutOff,
    // over 4,096 bytes, or over 64 rows
    TooLarge,
    // a row's map has a bit that stands for no field
    RowMap,
    // a row whose numbers no curve may have
    Unlawful,
    // a call's map has none of the forms of a call
    CallMap,
    // the route refused the call
    Route(Refusal),
}

// The record at fault: how many were read or accepted before it, and the byte, counted from 0, where it begins.
#[derive(Clone, Copy, PartialEq, Eq, Debug)]
pub struct Fault {
    pub cause: Cause,
    pub count: usize,
    pub byte: usize,
}

// A call that the route refused, the count of those accepted before it, and the byte where its record begins.
// Kept: a type beside `Fault`, since its cause can only be the route's: what the route itself answered is promised of it,
// and `?` turns it by `From` into the fault that carries the refusal. No `Fault<C>` over the kind of cause: every
// definition that speaks of a fault would carry the parameter, and only this one call makes the other kind.
#[derive(Clone, Copy, PartialEq, Eq, Debug)]
pub struct RefusedCall {
    pub refusal: Refusal,
    pub count: usize,
    pub byte: usize,
}

impl Cause {
    // The number that is printed for the cause.
    // Kept: a number for each case, since it is what is printed.
    pub fn number(&self) -> u8
        ensures { result ≡ cause_number self.now }
    {
        match self {
            Cause::NoRoom => 6,
            Cause::CutOff => 7,
            Cause::TooLarge => 8,
            Cause::RowMap => 9,
            Cause::Unlawful => 10,
            Cause::CallMap => 11,
            Cause::Route(refusal) => refusal.number(),
        }
    }

    // The stop that the route's refusal names, if that was the cause.
    pub fn stop(&self) -> Option<usize>
        ensures { result ≡ stop_in self.now }
    {
        match self {
            Cause::Route(refusal) => refusal.stop(),
            _ => None,
        }
    }

    // The fault of the record that begins at a byte, so many having been read or accepted before it.
    pub(crate) fn fault(self, count: usize, byte: usize) -> Fault
        ensures { result ≡ fault_at self count byte }
    {
        Fault {
            cause: self,
            count,
            byte,
        }
    }

    // The fault of a strip that is refused as a whole.
    pub(crate) fn at_start(self) -> Fault
        ensures { result ≡ at_start self }
    {
        self.fault(0, 0)
    }
}

// The route's refusal stays whole inside the fault.
impl From<RefusedCall> for Fault {
    ghost from_gives = { λ call fault. fault ≡ carried call };

    fn from(call: RefusedCall) -> Fault {
        Cause::Route(call.refusal).fault(call.count, call.byte)
    }
}
