// The board and the start table of a map file.
#![tactic(auto)]

ghost use Rattle.std.specs.Prelude.{◌≡◌};
ghost use Rattle.numbers.specs.Words.{word_at};
ghost use Rattle.records.specs.Records.{record_read, object_of};
ghost use Rattle.map_file.specs.File.{file_of};
ghost use Rattle.scoring.specs.Scores.{scores_of};
ghost use Rattle.board_build.specs.Build.{built};
ghost use Rattle.board_build.specs.Laying.{LaysRead, read_laid, Lays, objects_laid};

use board::place::room_for;
use entries::entry::Entry;
use entries::words::store;
use map_reader::map::{Map, objects_from};
use records::mark::Mark;
use records::object_record::read_kind;
use rules::refusal::Refusal;
use scoring::plays::check_plays;
use tree::build::fill;

// Lays the object that r starts with, its own entry and its start, and gives its size. The file is accepted: order, counts and bonus are checked.
// The slices and C are lent apart: of a type that holds them, each contract here would say besides that it keeps the same slices, size and count.
#[tactic(auto, using(crate::proofs::ByMark::marked, crate::proofs::ByMark::unmarked))]
fn lay_object(r: &[u8], board: &mut [u64], starts: &mut [f64], cap: usize, place: usize) -> usize
    requires { LaysRead cap place (record_read (object_of r.now (word_at r.now 0 2))) board.old starts.old }
    ensures { (result, board.new, starts.new) ≡ read_laid cap place (record_read (object_of r.now (word_at r.now 0 2))) board.old starts.old }
{
    let Ok(mark) = Mark::read(r) else {
        return 0;
    };
    match read_kind(r, mark) {
        Ok((object, size)) => {
            store(board, cap + place, Entry::own(object));
            starts[place] = object.start_time;
            size
        }
        Err(_) => 0,
    }
}

// The own entries and the starts of a map's objects.
fn lay(file: &[u8], map: Map, board: &mut [u64], starts: &mut [f64], cap: usize)
    requires { Lays cap file.now map board.old starts.old }
    ensures { (board.new, starts.new) ≡ objects_laid cap (file_of file.now) board.old starts.old }
{
    let mut at = objects_from(map.breaks);
    for place in 0..map.objects as usize {
        let r = &file[at..];
        at += lay_object(r, board, starts, cap, place);
    }
}

// Checks a map file, its plays included, and writes its board and start table. A second pass writes, so that a refused file changes nothing.
pub fn build(file: &[u8], board: &mut [u64], starts: &mut [f64]) -> Result<(), Refusal>
    ensures { (result, board.new, starts.new) ≡ built (scores_of (file_of file.now)) board.old starts.old }
{
    let (map, _) = check_plays(file, u64::MAX)?;
    let count = map.objects as usize;
    let size = room_for(board, starts, count)?;
    let cap = size.cap();
    lay(file, map, board, starts, cap);
    fill(board, cap, count);
    Ok(())
}
