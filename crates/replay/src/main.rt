// Replays stored answers on the listing. A row of the input is its kind (0 the program's input and 1 a file, both of the table of refusals; 2 an
// accepted file with the Rust's listing), the text that is due and the file, each behind its length, a u32.
#![tactic(auto)]

ghost use Rattle.std.specs.Prelude.{◌≡◌, ◌↔◌, IfOk, IsTrue};

use frames::{read_front, starts_with};
use listing::{list_file, list_input};
use std::io::{Read, Write};
use std::{fmt, io};

// Longer than any text or file of the rows.
const SPACE: usize = 262144;

// What a row replays.
#[derive(Clone, Copy)]
enum Kind {
    RefusedInput,
    RefusedFile,
    Listing,
}

// How many rows of a sort there are, and how many of them agree.
#[derive(Clone, Copy, Default)]
struct Tally {
    agree: u64,
    rows: u64,
}

#[derive(Clone, Copy, Default)]
struct Tallies {
    refusals: Tally,
    listings: Tally,
}

// Where each row is read and listed, over the row before: fixed, since the project takes no heap.
#[derive(Drop)]
struct Spaces {
    due: [u8; SPACE],
    file: [u8; SPACE],
    text: [u8; SPACE],
}

// A row that was read and listed: the text that is due, and the text of its file.
#[derive(Clone, Copy)]
struct Row<'a> {
    due: &'a [u8],
    text: &'a [u8],
}

impl From<u8> for Kind {
    fn from(byte: u8) -> Kind {
        match byte {
            0 => Kind::RefusedInput,
            1 => Kind::RefusedFile,
            _ => Kind::Listing,
        }
    }
}

// The kind of the next row, if there is one.
fn read_kind<R: Read>(reader: &mut R) -> Option<Kind> {
    let mut kind = [0u8; 1];
    read_front(reader, &mut kind, 1)?;
    Some(Kind::from(kind[0]))
}

// Reads a length, and then as many bytes to the front of the space. There are none where the row is cut.
fn read_bytes<'a, R: Read>(reader: &mut R, space: &'a mut [u8]) -> Option<&'a [u8]> {
    let mut length = [0u8; 4];
    read_front(reader, &mut length, 4)?;
    let length = u32::from_le_bytes(length) as usize;
    read_front(reader, space, length)?;
    Some(&space[..length])
}

fn list(kind: Kind, file: &[u8], space: &mut [u8]) -> Option<usize> {
    match kind {
        Kind::RefusedInput => list_input(file, space),
        Kind::RefusedFile | Kind::Listing => list_file(file, space),
    }
}

// Reads one row behind its kind and lists its file. There is none where the row is cut.
fn read_row<'a, R: Read>(reader: &mut R, kind: Kind, spaces: &'a mut Spaces) -> Option<Row<'a>> {
    let Spaces { due, file, text } = spaces;
    let due = read_bytes(reader, due)?;
    let file = read_bytes(reader, file)?;
    let count = list(kind, file, text)?;
    let text = text.get(..count)?;
    Some(Row { due, text })
}

// Says whether a text is the one that is due, and prints both where they differ.
fn compare<W: Write>(writer: &mut W, text: &[u8], due: &[u8]) -> io::Result<bool>
    ensures { IfOk result (λ agrees. IsTrue agrees ↔ (text.now ≡ due.now)) }
{
    if text.len() == due.len() && starts_with(text, due) {
        return Ok(true);
    }
    writer.write_all(b"due:\n")?;
    writer.write_all(due)?;
    writer.write_all(b"\nfound:\n")?;
    writer.write_all(text)?;
    Ok(false)
}

impl Spaces {
    const EMPTY: Spaces = Spaces {
        due: [0; SPACE],
        file: [0; SPACE],
        text: [0; SPACE],
    };
}

impl Tally {
    // No input has so many rows that a count would wrap.
    fn with(self, agrees: bool) -> Tally {
        Tally {
            agree: self.agree.wrapping_add(u64::from(agrees)),
            rows: self.rows.wrapping_add(1),
        }
    }
}

impl fmt::Display for Tally {
    fn fmt<W: fmt::Write>(&self, f: &mut fmt::Formatter<W>) -> fmt::Result {
        let Tally { agree, rows } = *self;
        write!(f, "{agree} of {rows}")
    }
}

impl Tallies {
    fn with(self, kind: Kind, agrees: bool) -> Tallies {
        match kind {
            Kind::RefusedInput | Kind::RefusedFile => Tallies {
                refusals: self.refusals.with(agrees),
                ..self
            },
            Kind::Listing => Tallies {
                listings: self.listings.with(agrees),
                ..self
            },
        }
    }
}

// Replays rows until the input ends, or a row is cut. A proved loop has to end, and nothing says that an input does.
fn replay_all<R: Read, W: Write>(reader: &mut R, writer: &mut W) -> io::Result<Tallies> {
    let mut spaces = Spaces::EMPTY;
    let mut tallies = Tallies::default();
    for _ in 0..u64::MAX {
        let Some(kind) = read_kind(reader) else {
            break;
        };
        let Some(Row { due, text }) = read_row(reader, kind, &mut spaces) else {
            return Ok(tallies.with(kind, false));
        };
        let agrees = compare(writer, text, due)?;
        tallies = tallies.with(kind, agrees);
    }
    Ok(tallies)
}

fn main(rt: HostRuntime) -> io::Result<()> {
    let Tallies { refusals, listings } = replay_all(&mut rt.stdin(), &mut rt.stdout())?;
    println!(rt; "{refusals} rows of the table of refusals and {listings} listings agree")
}
