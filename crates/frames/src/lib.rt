// What the program that replays stored answers does with a lent space: its front read from a reader, and two texts held against each other.
#![tactic(auto)]

ghost use Rattle.std.specs.Prelude.{◌≡◌, ◌<◌, ◌≤◌, ◌↔◌, IsTrue, IfSome, None, length, take};
ghost use Rattle.std.specs.Io.{StartsWith};
ghost use Rattle.std.specs.Io.KnownBytes.{Consumes};

use std::io::Read;

// Reads the next bytes to the front of the space, if all are there. Where the reader ends early or fails, some of them may be read.
pub fn read_front<R: Read>(reader: &mut R, space: &mut [u8], count: usize) -> Option<()>
    ensures all { IfSome result (λ _.
        Consumes (R.remaining reader.old) (R.remaining reader.new) (take count space.new)) }
    ensures within { IfSome result (λ _. count ≤ length space.old) }

    // A space that is too short is left alone, and so is the reader.
    ensures short { length space.old < count → result ≡ None }
    ensures short_space { length space.old < count → space.new ≡ space.old }
    ensures short_reader { length space.old < count → reader.new ≡ reader.old }
{
    if space.len() < count {
        return None;
    }
    reader.read_exact(&mut space[..count]).ok()
}

// Whether the text starts with these bytes.
pub fn starts_with(text: &[u8], front: &[u8]) -> bool
    ensures { IsTrue result ↔ StartsWith text.now front.now }
{
    text.starts_with(front)
}
