// The plays behind a map: the records of a file from the map's end on.
#![tactic(auto)]

ghost use Rattle.std.specs.Prelude.{◌≡◌, length, drop};
ghost use Rattle.map_file.specs.File.{file_of};
ghost use Rattle.play_reader.specs.Plays.{play_in, MapFileOf};
ghost use Rattle.play_reader.specs.View.{last_rank, reader_in, answer_of, simulated_of};

use map_file::file::{Counts, Rank, Reader};
use map_reader::attributes::attributes_of;
use map_reader::map::{ALL_OBJECTS, Map, rank_behind, read_passed};
use play_state::Play;
use records::mark::Mark;
use records::play_record::read_play;
use rules::refusal::{Refusal, Rule};
use simulator::attributes::ScoreAttributes;

// The play that stands at an offset, behind a map or another play.
#[tactic(auto, using(map_file::proofs::Steps::rest_is, rules::proofs::Steps::steps, crate::proofs::Playing::in_none, crate::proofs::Playing::play_alone), unfolding(crate::specs::Plays::play_record))]
pub fn play_at(s: &[u8], at: usize) -> Result<Play, Rule>
    ensures { result ≡ play_in (drop at s.now) }
{
    if s.len() <= at {
        return Err(Rule::Cut);
    }
    let r = &s[at..];
    if Mark::read(r)? != Mark::Play {
        return Err(Rule::Mark);
    }
    read_play(r)
}

// The map of a file behind which only good records of plays stand, each play by its own fields alone.
pub fn read_file(s: &[u8], passed: u64) -> Result<Map, Refusal>
    ensures { MapFileOf s.now passed result }
{
    let map = read_passed(s, passed)?;
    for at in (map.end..s.len()).step_by(Play::SIZE) {
        play_at(s, at).map_err(|rule| rule.at(at))?;
    }
    Ok(map)
}

// The place in the order of a file's last record.
fn last_rank(s: &[u8], map: Map) -> Rank
    ensures { result ≡ last_rank (length s.now) map }
{
    if map.end < s.len() {
        return Rank::Play;
    }
    rank_behind(map.breaks.count, map.objects)
}

// The reader behind a file's last record. Made here and not from `reader_behind` of map_reader, since only the settings, the breaks and the bonus are
// the same: the map keeps its count of objects, and not the state behind them all.
fn reader_in(s: &[u8], map: Map) -> Reader
    ensures { result ≡ reader_in (length s.now) map }
{
    let settings = map.settings;
    Reader {
        at: s.len(),
        settings,
        counts: Counts {
            last: Some(last_rank(s, map)),
            breaks: map.breaks.count,
            objects: map.objects,
            bonus: map.passed.score.legacy_bonus_score.0,
        },
    }
}

// The map file: its settings and counts, or the first refusal.
pub fn read_map(s: &[u8]) -> Result<Reader, Refusal>
    ensures { result ≡ answer_of (file_of s.now) }
{
    let map = read_file(s, ALL_OBJECTS)?;
    Ok(reader_in(s, map))
}

// The score attributes of a file's first `passed` objects.
pub fn simulate(s: &[u8], passed: u64) -> Result<ScoreAttributes, Refusal>
    ensures { result ≡ simulated_of (file_of s.now) passed }
{
    let map = read_file(s, passed)?;
    Ok(attributes_of(s, map))
}
