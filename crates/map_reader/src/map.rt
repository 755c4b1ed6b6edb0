// The map of a file, with the state behind its first objects. What the loop over the objects does not take goes once through the checks of a
// record, which give the number.
ghost use Rattle.std.specs.Prelude.{◌≡◌, ◌≤◌, eqb, length, drop};
ghost use Rattle.numbers.specs.Words.{word_at};
ghost use Rattle.records.specs.Marks.{word_of};
ghost use Rattle.map_reader.specs.Objects.{Small};
ghost use Rattle.map_reader.specs.Map.{objects_from, head_in, is_break, breaks_count, first_start_of, rank_behind, reader_behind, end_in, map_to, objects_of, MapReadOf};

use crate::objects::{Objects, Walked, run};
use map_file::file::{Counts, Rank, Reader, read_record};
use numbers::words::word_at;
use records::beatmap::{BreakCount, BreakPeriod, Settings};
use records::hit_object::HitObject;
use records::map_record;
use records::mark::Mark;
use rules::refusal::{Refusal, Rule};
use std::num::f64_from_bits_with_nan;

// What stands in a map, and where it ends; `passed` is the state behind its first objects.
#[derive(Clone, Copy)]
pub struct Map {
    pub end: usize,
    pub settings: Settings,
    pub breaks: BreakCount,
    pub objects: u64,
    pub first_start: f64,
    pub passed: Objects,
}

// Where the objects behind so many breaks begin.
pub fn objects_from(breaks: BreakCount) -> usize
    ensures { result ≡ objects_from breaks.count }
{
    Settings::SIZE + breaks.count as usize * BreakPeriod::SIZE
}

// The settings that a file starts with.
#[tactic(auto, using(rules::proofs::Steps::steps, crate::proofs::Heads::head_by_mark, crate::proofs::Heads::header_alone), unfolding(crate::specs::Map::head_in))]
fn read_head(s: &[u8]) -> Result<Settings, Rule>
    ensures { result ≡ head_in s.now }
{
    if s.len() == 0 {
        return Err(Rule::Mark);
    }
    if Mark::read(s)? != Mark::Header {
        return Err(Rule::Mark);
    }
    map_record::read_header(s)
}

// Whether r starts with a mark, which a single byte is not.
#[tactic(auto, using(records::proofs::Marks::mark_stands, records::proofs::Marks::mark_other))]
fn starts_with(r: &[u8], mark: Mark) -> bool
    ensures { result ≡ eqb (word_at r.now 0 2) (word_of mark) }
{
    Mark::read(r) == Ok(mark)
}

// A break with good times stands at an offset.
#[tactic(auto, using(map_file::proofs::Steps::rest_is, crate::proofs::Heads::good_read, crate::proofs::Heads::break_past), unfolding(crate::specs::Map::is_break))]
fn is_break(s: &[u8], at: usize) -> bool
    ensures { result ≡ is_break (drop at s.now) }
{
    if s.len() <= at {
        return false;
    }
    let r = &s[at..];
    starts_with(r, Mark::Break) && map_record::read_break(r).is_ok()
}

#[tactic(auto, using(crate::proofs::Heads::breaks_stop, crate::proofs::Heads::breaks_next, crate::proofs::Heads::breaks_end))]
fn count_breaks(s: &[u8]) -> BreakCount
    ensures { result.count ≡ breaks_count s.now }
{
    for count in 0..BreakPeriod::MAX_COUNT {
        let breaks = BreakCount { count };
        if !is_break(s, objects_from(breaks)) {
            return breaks;
        }
    }
    BreakCount {
        count: BreakPeriod::MAX_COUNT,
    }
}

// Each object has its start at the same place.
#[tactic(auto, unfolding(numbers::proofs::Literals::of_bits, numbers::proofs::Literals::of_int))]
fn first_start(s: &[u8], breaks: BreakCount, objects: u64) -> f64
    ensures { result ≡ first_start_of s.now breaks.count objects }
{
    if objects == 0 {
        return 0.0;
    }
    f64_from_bits_with_nan(word_at(s, objects_from(breaks) + 2, 8))
}

// The place in the order of a map's last record.
pub fn rank_behind(breaks: u64, objects: u64) -> Rank
    ensures { result ≡ rank_behind breaks objects }
{
    if 0 < objects {
        return Rank::Object;
    }
    if 0 < breaks {
        return Rank::Break;
    }
    Rank::Header
}

fn reader_behind(settings: Settings, breaks: BreakCount, all: Objects) -> Reader
    ensures { result ≡ reader_behind settings breaks.count all }
{
    Reader {
        at: all.at,
        settings,
        counts: Counts {
            last: Some(rank_behind(breaks.count, all.nested.object_count)),
            breaks: breaks.count,
            objects: all.nested.object_count,
            bonus: all.score.legacy_bonus_score.0,
        },
    }
}

// Behind a map stand its plays or nothing, else a record that is refused.
#[tactic(auto, using(map_file::proofs::Steps::rest_is, rules::proofs::Steps::steps), unfolding(crate::specs::Map::end_in))]
fn check_end(s: &[u8], reader: Reader) -> Result<(), Rule>
    ensures { result ≡ end_in s.now reader }
{
    let at = reader.at;
    if s.len() <= at || starts_with(&s[at..], Mark::Play) {
        return Ok(());
    }
    read_record(&s[at..], reader.counts)?;
    Ok(())
}

// The map that ends where `all` stands.
#[tactic(auto, using(rules::proofs::Steps::steps))]
fn map_to(
    s: &[u8],
    settings: Settings,
    breaks: BreakCount,
    passed: Objects,
    all: Objects,
) -> Result<Map, Refusal>
    ensures { result ≡ map_to s.now settings breaks passed all }
{
    let end = all.at;
    check_end(s, reader_behind(settings, breaks, all)).map_err(|rule| rule.at(end))?;
    let objects = all.nested.object_count;
    Ok(Map {
        end,
        settings,
        breaks,
        objects,
        first_start: first_start(s, breaks, objects),
        passed,
    })
}

#[tactic(auto, using(rules::proofs::Steps::steps))]
fn read_objects(
    s: &[u8],
    settings: Settings,
    breaks: BreakCount,
    passed: u64,
) -> Result<Map, Refusal>
    requires { objects_from breaks.count ≤ length s.now }
    ensures { result ≡ objects_of s.now settings breaks passed }
{
    let limit = passed.min(HitObject::MAX_COUNT);
    let state = run::<Walked>(s, Objects::new(objects_from(breaks)), limit)?;
    let all = run::<Walked>(s, state, HitObject::MAX_COUNT)?;
    map_to(s, settings, breaks, state, all)
}

// More than any map has: as passed objects, all of them.
pub const ALL_OBJECTS: u64 = u64::MAX;

// The map of a file, whatever stands behind it, with the state behind its first `passed` objects.
pub fn read_passed(s: &[u8], passed: u64) -> Result<Map, Refusal>
    ensures { MapReadOf s.now passed result }
{
    let settings = read_head(s)?;
    read_objects(s, settings, count_breaks(s), passed)
}
