// The listing program: a map file on standard input, its listing on standard output. Where input or output fails, it says so on standard error, ends
// with status 1, and lists nothing, or nothing more.
#![tactic(auto)]

ghost use Rattle.std.specs.Prelude.{◌≡◌, ◌≢◌, ◌<◌, ◌≤◌, length, take, IfErr, IfOk, IfSome, OnErr, OnOk};
ghost use Rattle.std.specs.IoError.{error_kind};
ghost use Rattle.std.specs.Io.KnownBytes.{Appends, Consumes, IsAtEnd, Keeps};
ghost use Rattle.listing.specs.Listing.{input_text};
ghost use Rattle.list.specs.Places.{MovedWithin, MovesBytes};

use anyhow::{Context, Result};
use listing::{MAX_INPUT, list_input};
use std::io;
use std::io::{ErrorKind, Read, Write};

// One byte more than the program takes, so that a longer input is told and no further byte is read. A fixed space, since the project takes no heap.
const INPUT: usize = MAX_INPUT + 1;

// More than any listing has: 65,536 bytes hold at most 1,489 plays, whose lines have at most 94 bytes, as the map's has at most 164.
const LISTING: usize = 262144;

// One read behind the place. It moves bytes, up to a place, which is the old place where a signal came first; or nothing is left, of the input or of
// the room.
fn read_some<R: Read>(reader: &mut R, space: &mut [u8], at: usize) -> io::Result<Option<usize>>
    ensures within { IfOk result (MovedWithin (length space.old)) }
    ensures front { take at space.new ≡ take at space.old }
    ensures bytes { IfOk result (MovesBytes at space.new (R.remaining reader.old) (R.remaining reader.new)) }
    ensures err { OnErr result (Keeps (R.remaining reader.old) (R.remaining reader.new)) }
    ensures retried { IfErr result (λ e. error_kind e ≢ ErrorKind.Interrupted) }
{
    if space.len() <= at {
        return Ok(None);
    }
    match reader.read(&mut space[at..]) {
        Ok(0) => Ok(None),
        Ok(count) => Ok(Some(at + count)),
        Err(e) if e.kind() == ErrorKind::Interrupted => Ok(Some(at)),
        Err(e) => Err(e),
    }
}

// Reads until the input ends or the space is full, and returns how many bytes it put at the front of the space. A proved loop has to end, and nothing
// says that an input does: no run uses these turns up, and one that did would count as a failed read.
#[tactic(auto, using(crate::proofs::Fronts::front_grows))]
fn read_input<R: Read>(reader: &mut R, space: &mut [u8]) -> io::Result<usize>
    ensures within { IfOk result (λ count. count ≤ length space.old) }
    ensures bytes { IfOk result (λ count.
        Consumes (R.remaining reader.old) (R.remaining reader.new) (take count space.new)) }
    ensures end { IfOk result (λ count. count < length space.old → IsAtEnd (R.remaining reader.new)) }
    ensures retried { IfErr result (λ e. error_kind e ≢ ErrorKind.Interrupted) }
{
    let mut at = 0;
    for _ in 0..u64::MAX {
        match read_some(reader, space, at)? {
            Some(place) => at = place,
            None => return Ok(at),
        }
    }
    Err(io::Error::from(ErrorKind::TimedOut))
}

// Writes the listing of the input.
fn write_listing<W: Write>(input: &[u8], writer: &mut W) -> Result<()>
    ensures { OnOk result (Appends (W.contents writer.old) (W.contents writer.new) (input_text input.now)) }
{
    let mut space = [0u8; LISTING];
    match list_input(input, &mut space) {
        Some(count) => writer
            .write_all(&space[..count])
            .context("standard output")?,
        // The space is longer than any listing: `listing_told` of listing/proofs/Fits.
        None => unreachable!(),
    }
    Ok(())
}

// Reads the input, and writes its listing.
fn list<R: Read, W: Write>(reader: &mut R, writer: &mut W) -> Result<()>
    ensures { OnOk result (IfSome (R.remaining reader.old) (λ bytes.
        Appends (W.contents writer.old) (W.contents writer.new) (input_text bytes))) }
{
    let mut space = [0u8; INPUT];
    let count = read_input(reader, &mut space).context("standard input")?;
    write_listing(&space[..count], writer)?;
    Ok(())
}

fn main(rt: HostRuntime) -> Result<()> {
    list(&mut rt.stdin(), &mut rt.stdout())
}
