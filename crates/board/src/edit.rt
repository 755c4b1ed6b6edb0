// Another object at a place of a map.
ghost use Rattle.std.specs.Prelude.{◌≡◌};
ghost use Rattle.board.specs.Place.{written_left};
ghost use Rattle.board.specs.Edit.{object_in, alone_of, edit_of};

use crate::place::{BoardMut, room_for};
use entries::checked::CheckedEntry;
use entries::entry::Entry;
use records::hit_object::HitObject;
use records::mark::Mark;
use records::object_record::read_kind;
use rules::refusal::{Refusal, Rule};

// One object's record and nothing behind it.
#[tactic(auto, using(crate::proofs::Steps::steps, crate::proofs::Alones::by_mark))]
pub fn read_alone(r: &[u8]) -> Result<HitObject, Rule>
    ensures { result ≡ alone_of (object_in r.now) }
{
    if r.len() == 0 {
        return Err(Rule::Mark);
    }
    let (object, size) = read_kind(r, Mark::read(r)?)?;
    if size < r.len() {
        return Err(Rule::Mark);
    }
    Ok(object)
}

// Puts the object of a record at a place of a board for `count` objects.
#[tactic(auto, using(crate::proofs::Steps::steps), unfolding(crate::specs::Edit::edit_of))]
pub fn edit(
    board: &mut [u64],
    starts: &mut [f64],
    count: usize,
    place: usize,
    bytes: &[u8],
) -> Result<(), Refusal>
    ensures { (result, board.new, starts.new) ≡ written_left (edit_of board.old starts.old count place bytes.now) board.old starts.old }
{
    let size = room_for(board, starts, count)?;
    if count <= place {
        return Err(Rule::Place.at(0));
    }
    let object = read_alone(bytes)?;
    let start = object.start_time;
    let entry = CheckedEntry {
        entry: Entry::own(object),
    };
    let mut lent = BoardMut {
        words: board,
        starts,
        size,
        count,
    };
    lent.put_at(place, entry, start)?;
    Ok(())
}
