ghost use Rattle.std.specs.Prelude.{◌≡◌, ◌≤◌, ◌/◌, ◌==◌, length};
ghost use Rattle.reader.specs.Records.{stands};

use crate::faults::Cause;

// Whether a bit of a map stands; bit 0 is the least. A map has no bit past the eighth.
#[tactic(auto, using(crate::proofs::Bits::shifted))]
pub(crate) fn is_set(map: u8, bit: u32) -> bool
    ensures { result ≡ stands map bit }
{
    map.checked_shr(bit).unwrap_or(0) % 2 == 1
}

// Whether a map has no bit past the five that a row or a call may have.
pub(crate) fn has_known_bits(map: u8) -> bool
    ensures { result ≡ (map / 32 == 0) }
{
    map / 32 == 0
}

// A record of a strip: a map byte, and then a field for each of its bits that stands, in the order of the bits. The
// fields are taken one after another.
#[derive(Drop)]
pub(crate) struct Record<'a> {
    strip: &'a [u8],
    pub(crate) map: u8,
    // the byte where the next field begins, or the next record after the last one
    pub(crate) next: usize,
    ghost within: { next ≤ length strip.now },
}

impl<'a> Record<'a> {
    ghost use Rattle.reader.specs.Fields.{Opens, Takes};

    // The record whose map is the byte at a place.
    pub(crate) fn open(strip: &'a [u8], at: usize) -> Result<Record<'a>, Cause>
        ensures { Opens strip.now at result }
    {
        let map = *strip.get(at).ok_or(Cause::CutOff)?;
        Ok(Record {
            strip,
            map,
            next: at + 1,
        })
    }

    // Takes the next field: its bytes, of which there are N, or none where its bit does not stand.
    pub(crate) fn field<const N: usize>(&mut self, bit: u32) -> Result<Option<[u8; N]>, Cause>
        ensures { Takes N bit self.old result self.new }
    {
        if !is_set(self.map, bit) {
            return Ok(None);
        }
        let Some(field) = self.strip[self.next..].first_chunk::<N>() else {
            return Err(Cause::CutOff);
        };
        self.next += N;
        Ok(Some(*field))
    }
}
