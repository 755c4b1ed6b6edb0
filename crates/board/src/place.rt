// Room for a map's board and start table, and an entry and a start put at a place of them.
ghost use Rattle.std.specs.Prelude.{◌≡◌, ◌+◌, ◌*◌, ◌^◌, ◌≤◌, ◌<◌, length};
ghost use Rattle.entries.specs.Entry.{place_words};
ghost use Rattle.board.specs.Place.{Holds, room_for, room_of, put_above, put_place, put_left};

use entries::checked::CheckedEntry;
use entries::entry::Entry;
use records::hit_object::HitObject;
use rules::refusal::Rule;
use tree::put::quick_climb;
use tree::size::Size;

// The board of a map and its start table, with room in both for `count` objects.
#[derive(Clone, Copy)]
pub struct Board<'w, 's> {
    pub words: &'w [u64],
    pub starts: &'s [f64],
    pub size: Size,
    pub count: usize,
    ghost holds: { Holds size count words.now starts.now },
}

// The size of a board for so many objects, where both slices have room for it.
#[tactic(auto, using(crate::proofs::Steps::steps), unfolding(crate::specs::Place::room_for))]
pub fn room_for(board: &[u64], starts: &[f64], count: usize) -> Result<Size, Rule>
    ensures { result ≡ room_of count (room_for board.now starts.now count) }
{
    if (HitObject::MAX_COUNT as usize) < count {
        return Err(Rule::Count);
    }
    let size = Size::new(count);
    if board.len() < Entry::PLACE_WORDS * size.cap() {
        return Err(Rule::Room);
    }
    let numbers = starts.len();
    if numbers < count {
        return Err(Rule::Room);
    }
    Ok(size)
}

// Puts an entry at a place, with what follows from it above, and a start. Nothing is written before the last check. Of any levels and `cap` places,
// and of any place that the start table reaches: a `Board` would ask for those of its count.
#[tactic(auto, using(crate::proofs::Steps::steps), unfolding(crate::specs::Place::put_above))]
pub fn put_at(
    board: &mut [u64],
    starts: &mut [f64],
    levels: usize,
    cap: usize,
    place: usize,
    entry: CheckedEntry,
    start: f64,
) -> Result<(), Rule>
    requires { (place < cap) × (place_words * cap ≤ length board.old) × (place < length starts.old) }
    ensures { (result, board.new, starts.new) ≡ put_left (put_above levels (cap + place) entry place start board.old starts.old) board.old starts.old }
{
    quick_climb(board, levels, cap + place, entry)?;
    starts[place] = start;
    Ok(())
}

// A `Board` to write in.
#[derive(Drop)]
pub(crate) struct BoardMut<'w, 's> {
    pub words: &'w mut [u64],
    pub starts: &'s mut [f64],
    pub size: Size,
    pub count: usize,
    ghost holds: { Holds size count words.now starts.now },
}

impl BoardMut<'_, '_> {
    // At a place below the count.
    #[tactic(auto, unfolding(crate::specs::Place::put_above, crate::specs::Place::put_place))]
    pub(crate) fn put_at(
        &mut self,
        place: usize,
        entry: CheckedEntry,
        start: f64,
    ) -> Result<(), Rule>
        requires { place < self.old.count }
        ensures same_words { self.new.words.ghost_name ≡ self.old.words.ghost_name }
        ensures same_starts { self.new.starts.ghost_name ≡ self.old.starts.ghost_name }
        ensures value { (result, self.new.words.now, self.new.starts.now) ≡ put_left (put_place self.old.size place entry start self.old.words.now self.old.starts.now) self.old.words.now self.old.starts.now }
    {
        let levels = self.size.levels();
        let cap = self.size.cap();
        put_at(self.words, self.starts, levels, cap, place, entry, start)
    }
}
