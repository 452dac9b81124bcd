ghost use Rattle.std.specs.Prelude.{◌≡◌, ◌≤◌, ok_or};
ghost use Rattle.reader.specs.declared.faults.Cause.TheVariants.{CallMap};
ghost use Rattle.reader.specs.CallRecords.{form_of, absent_place, splice_of, call_at};

use crate::faults::Cause;
use crate::record::{Record, has_known_bits, is_set};
use route::stop::Splice;

// The bits of a call's map. A field follows for each but the last, which says that a stop is taken out.
// Kept: numbers and no enum, since they are the format's own, and a map is shifted by them.
const CURVE: u32 = 0;

const LEG_IN: u32 = 1;

const LEG_OUT: u32 = 2;

const PLACE: u32 = 3;

const OUT: u32 = 4;

// Which splice a call is.
// Kept: an enum of its own, since the form of a call is known before the numbers that make it a `Splice`.
#[derive(Clone, Copy)]
pub(crate) enum Form {
    Inserting,
    Removing,
    Changing,
}

// The form that a map stands for, if any.
impl TryFrom<u8> for Form {
    type Error = Cause;

    ghost try_from_gives = { λ map form. form ≡ ok_or (form_of map) CallMap };

    fn try_from(map: u8) -> Result<Form, Cause> {
        if !has_known_bits(map) {
            return Err(Cause::CallMap);
        }
        match (
            is_set(map, CURVE),
            is_set(map, LEG_IN),
            is_set(map, LEG_OUT),
            is_set(map, OUT),
        ) {
            (true, _, _, false) => Ok(Form::Inserting),
            (false, false, _, true) => Ok(Form::Removing),
            (true, false, false, true) => Ok(Form::Changing),
            _ => Err(Cause::CallMap),
        }
    }
}

impl Form {
    // The place of a call without a field for it, on a route of so many stops.
    // Kept: here and in the two that hand it on a premise, since a number of stops has no other fact than this one, and a
    // type for it would be made and opened at once.
    fn absent_place(self, stops: usize) -> usize
        requires { stops ≤ 64 }
        ensures value { result ≡ absent_place self stops }
    {
        match self {
            Form::Inserting => stops + 1,
            Form::Removing | Form::Changing => stops,
        }
    }

    fn splice(self, curve: u8, leg_in: u16, leg_out: u16, place: usize) -> Splice
        ensures { result ≡ splice_of self curve leg_in leg_out place }
    {
        match self {
            Form::Inserting => Splice::Insert {
                place,
                curve,
                leg_in,
                leg_out,
            },
            Form::Removing => Splice::Remove {
                place,
                leg: leg_out,
            },
            Form::Changing => Splice::Change { place, curve },
        }
    }
}

// The call of the record at a byte, on a route of so many stops, and where the next record begins.
pub(crate) fn read_call(strip: &[u8], at: usize, stops: usize) -> Result<(Splice, usize), Cause>
    requires { stops ≤ 64 }
    ensures { result ≡ call_at strip.now at stops }
{
    let mut record = Record::open(strip, at)?;
    let form = Form::try_from(record.map)?;
    let curve = record.field(CURVE)?.map_or(0, u8::from_be_bytes);
    let leg_in = record.field(LEG_IN)?.map_or(0, u16::from_be_bytes);
    let leg_out = record.field(LEG_OUT)?.map_or(0, u16::from_be_bytes);
    let place = record.field(PLACE)?.map(u8::from_be_bytes);
    let place = place.map_or(form.absent_place(stops), usize::from);
    Ok((form.splice(curve, leg_in, leg_out, place), record.next))
}
