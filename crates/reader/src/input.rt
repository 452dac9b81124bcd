ghost use Rattle.std.specs.Prelude.{◌≡◌, ℕ, List, ◌<◌, ◌≤◌, length, take, IfOk, IfSome, OnErr};
ghost use Rattle.std.specs.Io.{ReadsAtMost};
ghost use Rattle.std.specs.Io.KnownBytes.{Consumes, IsAtEnd, ReadConsumes};

use crate::rows::LONGEST;
use std::alloc::Global;
use std::io;
use std::io::{ErrorKind, Read};

// One byte more than a strip may have, so that a longer one is seen to be too long.
pub const ENOUGH: usize = LONGEST + 1;

// Fills the buffer from its front until it is full or the input ends, and answers how many bytes came. Of an input
// whose bytes are known: those stand at the buffer's front, and they are all of it where the buffer is not full. After
// an error what came before it stands at the front too, but its length is not told. The rest of the buffer is scratch.
// Nothing says that an input ends, but each turn that is not the last one reads a byte.
#[tactic(auto, using(crate::proofs::Filling::filled_more))]
pub fn read_strip<R: Read>(input: &mut R, buffer: &mut [u8]) -> io::Result<usize>
    ensures within { IfOk result (λ n. n ≤ length buffer.old) }
    ensures bytes { IfOk result (λ n. Consumes (R.remaining input.old) (R.remaining input.new) (take n buffer.new)) }
    ensures all { IfOk result (λ n. n < length buffer.old → IsAtEnd (R.remaining input.new)) }
    ensures kept { OnErr result ((k : ℕ) × (k ≤ length buffer.old) × Consumes (R.remaining input.old) (R.remaining input.new) (take k buffer.new)) }
{
    // Kept: a loop, since `read_exact` fails where the input ends before, and of `io::copy` into a cursor no proof can
    // close: it promises neither the bytes in the slice nor what came before an error.
    let mut filled = 0;
    for _ in 0..buffer.len() {
        let got = input.read(&mut buffer[filled..])?;
        if got == 0 {
            break;
        }
        filled += got;
    }
    Ok(filled)
}

// One read, tried again where a signal interrupts it.
#[tactic(auto, using(crate::proofs::Retrying::read_after, crate::proofs::Retrying::kept_more))]
fn read_once<R: Read>(input: &mut R, buffer: &mut [u8]) -> io::Result<usize>
    ensures bound { ReadsAtMost result buffer.new }
    ensures bytes { ReadConsumes (R.remaining input.old) (R.remaining input.new) result buffer.new }
{
    for _ in 0..u64::MAX {
        match input.read(buffer) {
            Err(error) if error.kind() == ErrorKind::Interrupted => {}
            answer => return answer,
        }
    }
    Err(ErrorKind::Interrupted.into())
}

// The same into a buffer that has room: of a read into none an input may make an error, or wait.
fn read_into_room<R: Read>(input: &mut R, buffer: &mut [u8]) -> io::Result<usize>
    requires room { 0 < length buffer.old }
    ensures bound { ReadsAtMost result buffer.new }
    ensures bytes { ReadConsumes (R.remaining input.old) (R.remaining input.new) result buffer.new }
{
    read_once(input, buffer)
}

// Fills the buffer as `read_strip` does, with the same promises, and reads no more once it is full.
// Kept: beside it, since `read_strip` hands an interruption to its caller, and programs are to read on.
#[tactic(auto, using(crate::proofs::Filling::filled_more))]
fn fill<R: Read>(input: &mut R, buffer: &mut [u8]) -> io::Result<usize>
    ensures within { IfOk result (λ n. n ≤ length buffer.old) }
    ensures bytes { IfOk result (λ n. Consumes (R.remaining input.old) (R.remaining input.new) (take n buffer.new)) }
    ensures all { IfOk result (λ n. n < length buffer.old → IsAtEnd (R.remaining input.new)) }
    ensures kept { OnErr result ((k : ℕ) × (k ≤ length buffer.old) × Consumes (R.remaining input.old) (R.remaining input.new) (take k buffer.new)) }
{
    let mut got = 0;
    for _ in 0..buffer.len() {
        if got == buffer.len() {
            break;
        }
        let more = read_into_room(input, &mut buffer[got..])?;
        if more == 0 {
            break;
        }
        got += more;
    }
    Ok(got)
}

// Reads an input until it ends or a byte more came than a strip may have.
fn read_most<R: Read>(heap: Global, input: &mut R) -> io::Result<Vec<u8>>
    ensures within { IfOk result (λ v. length v.items ≤ 4097) }
    ensures bytes { IfOk result (λ v. Consumes (R.remaining input.old) (R.remaining input.new) v.items) }
    ensures all { IfOk result (λ v. length v.items < 4097 → IsAtEnd (R.remaining input.new)) }
    ensures kept { OnErr result ((bs : List ℕ) × (length bs ≤ 4097) × Consumes (R.remaining input.old) (R.remaining input.new) bs) }
{
    let mut strip = vec![in heap; 0; ENOUGH]?;
    let count = fill(input, strip.as_mut_slice())?;
    strip.truncate(count);
    Ok(strip)
}

// Reads an input to its end, or up to the byte that makes it too long for a strip, and no further. Of an input whose
// bytes are known: those came, and no others are gone from it; after an error, no more than so many are gone.
pub fn read_whole<R: Read>(heap: Global, input: &mut R) -> io::Result<Vec<u8>>
    ensures within { IfOk result (λ v. length v.items ≤ 4097) }
    ensures front { IfOk result (λ v. IfSome (R.remaining input.old) (λ xs. v.items ≡ take 4097 xs)) }
    ensures bytes { IfOk result (λ v. Consumes (R.remaining input.old) (R.remaining input.new) v.items) }
    ensures all { IfOk result (λ v. length v.items < 4097 → IsAtEnd (R.remaining input.new)) }
    ensures kept { OnErr result ((bs : List ℕ) × (length bs ≤ 4097) × Consumes (R.remaining input.old) (R.remaining input.new) bs) }
{
    Ok(read_most(heap, input)?)
}
