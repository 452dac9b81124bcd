ghost use Rattle.std.specs.Prelude.{◌≡◌, ◌<◌, ◌≤◌};
ghost use Rattle.route.specs.Calls.{Spliced};
ghost use Rattle.reader.specs.declared.faults.Cause.TheVariants.{CutOff};
ghost use Rattle.reader.specs.CallRecords.{call_at};
ghost use Rattle.reader.specs.Running.{fault_of, read_at, refused_at, begin, advanced, answer_of, Told};
ghost use Rattle.reader.specs.Ran.{CallRan, Ran};

use crate::call::read_call;
use crate::faults::{Cause, Fault, RefusedCall};
use route::stop::{Refusal, Splice};
use route::table::Route;
use source::source::Source;

// How many calls were accepted, and the byte where the next record begins.
// Kept: two fields in a fault too, since specs/ and who prints a fault name them one by one.
#[derive(Clone, Copy, PartialEq, Eq, Debug)]
pub(crate) struct Progress {
    pub(crate) count: usize,
    pub(crate) byte: usize,
}

impl Progress {
    // No call is accepted yet, and the first record begins at a byte.
    fn begin(at: usize) -> Progress
        ensures { result ≡ begin at }
    {
        Progress { count: 0, byte: at }
    }

    // The call of the next record, on a route of so many stops, and where the record after it begins.
    fn read(self, strip: &[u8], stops: usize) -> Result<(Splice, usize), Fault>
        requires { stops ≤ 64 }
        ensures { result ≡ read_at self (call_at strip.now self.byte stops) }
    {
        read_call(strip, self.byte, stops).map_err(|cause| self.fault(cause))
    }

    // The next record is no call.
    fn fault(self, cause: Cause) -> Fault
        ensures { result ≡ fault_of self cause }
    {
        cause.fault(self.count, self.byte)
    }

    // The route refuses the call of the next record.
    fn refused(self, refusal: Refusal) -> RefusedCall
        ensures { result ≡ refused_at self refusal }
    {
        let Progress { count, byte } = self;
        RefusedCall {
            refusal,
            count,
            byte,
        }
    }

    // The call of the next record is accepted.
    fn advanced(self, next: usize) -> Progress
        requires counted { self.count ≤ self.byte }
        requires later { self.byte < next }
        ensures { result ≡ advanced self next }
    {
        Progress {
            count: self.count + 1,
            byte: next,
        }
    }
}

// Makes the call of the next record.
fn apply_call<S: Source>(
    route: &mut Route<S>,
    splice: Splice,
    here: Progress,
) -> Result<(), RefusedCall>
    ensures source { route.new.source ≡ route.old.source }
    ensures spliced { Spliced S.Kind.Cost.algebra (S.Source.meaning route.old.source) route.old.stops splice (answer_of result) route.new.stops }
    ensures told { Told here result }
{
    route.apply(splice).map_err(|refusal| here.refused(refusal))
}

// Reads and makes the call of the next record.
fn run_call<S: Source>(
    route: &mut Route<S>,
    strip: &[u8],
    here: Progress,
) -> Result<Progress, Fault>
    requires { here.count ≤ here.byte }
    ensures source { route.new.source ≡ route.old.source }
    ensures ran { CallRan S.Kind.Cost.algebra (S.Source.meaning route.old.source) strip.now here route.old.stops result route.new.stops }
{
    let (splice, next) = here.read(strip, route.stop_count())?;
    apply_call(route, splice, here)?;
    Ok(here.advanced(next))
}

// The fault of calls that are said to begin at a byte past the strip's end.
fn past_end(at: usize) -> Fault
    ensures { result ≡ fault_of (begin at) CutOff }
{
    Cause::CutOff.fault(0, at)
}

// Runs the calls from a byte of the strip on, and answers how many were accepted. It ends at the first fault; the calls
// accepted before it stand.
pub fn run_calls<S: Source>(route: &mut Route<S>, strip: &[u8], at: usize) -> Result<usize, Fault>
    ensures source { route.new.source ≡ route.old.source }
    ensures ran { Ran S.Kind.Cost.algebra (S.Source.meaning route.old.source) strip.now at route.old.stops result route.new.stops }
{
    if strip.len() < at {
        return Err(past_end(at));
    }
    let mut here = Progress::begin(at);
    // Kept: a `while`, since each record tells where the next one begins; an iterator would carry the same place and be no
    // plainer.
    while here.byte < strip.len() {
        here = run_call(route, strip, here)?;
    }
    Ok(here.count)
}
