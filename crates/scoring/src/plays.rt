// The plays of a map file, each checked on the map that stands before it.
ghost use Rattle.std.specs.Prelude.{◌≡◌};
ghost use Rattle.map_file.specs.File.{file_of};
ghost use Rattle.scoring.specs.Scores.{scores_of};
ghost use Rattle.scoring.specs.View.{wanted_after, AfterPlay, passes_as_many, AnyPlaying, Attributed, ScoredOn, checked_of, CheckedFrom, PlaysOf};

use map_reader::attributes::attributes_of;
use map_reader::map::{Map, read_passed};
use marks::{MapFile, mark_before, passed_of};
use play_reader::play_at;
use play_score::{PlayScore, exceeds_map, score_on};
use play_state::Play;
use rules::refusal::{Refusal, Rule};
use simulator::attributes::ScoreAttributes;

// The score of the wanted play, or how many plays stand between it and what was read. No Result, since neither is an error.
#[derive(Clone, Copy)]
pub enum Wanted {
    Ahead(u64),
    Is(PlayScore),
}

impl Wanted {
    // Behind one more play.
    #[tactic(auto, unfolding(crate::specs::View::wanted_after))]
    fn after(self, score: PlayScore) -> Self
        ensures { result ≡ wanted_after self score }
    {
        match self {
            Wanted::Is(_) => self,
            Wanted::Ahead(0) => Wanted::Is(score),
            Wanted::Ahead(ahead) => Wanted::Ahead(ahead - 1),
        }
    }

    // The same for a play that is good and is scored only where it is the wanted one. Not one method over a closure: of one that holds a `&MapFile` the
    // caller does not learn what it returns.
    #[tactic(auto, unfolding(crate::specs::View::wanted_after))]
    fn after_play(self, file: &MapFile, play: Play) -> Self
        ensures { AfterPlay file.now.bytes.now file.now.map play self result }
    {
        match self {
            Wanted::Is(_) => self,
            Wanted::Ahead(0) => file.score_anew(play).map_or(self, Wanted::Is),
            Wanted::Ahead(ahead) => Wanted::Ahead(ahead - 1),
        }
    }
}

// Of so many objects a play passed as many as a count of passed objects does.
fn passes_as_many(play: Play, passed: u64, objects: u64) -> bool
    ensures { result ≡ passes_as_many play passed objects }
{
    passed_of(play, objects) == passed.min(objects)
}

// The plays from an offset on, whatever they passed, from marks: 9 takes no bonus, so that no spinner is walked for it.
#[tactic(auto, using(marks::proofs::Marked::mark_there))]
fn check_any(file: &MapFile, from: usize, former: Wanted) -> Result<Wanted, Refusal>
    requires { AnyPlaying file.now.bytes.now file.now.map from former }
    ensures { CheckedFrom file.now.bytes.now file.now.map from former result }
{
    let s = file.bytes;
    let marks = file.marks();
    let mut wanted = former;
    for at in (from..s.len()).step_by(Play::SIZE) {
        let play = play_at(s, at).map_err(|rule| rule.at(at))?;
        let i = mark_before(file.map.objects, play);
        if exceeds_map(play, file.attributes_from(marks.states[i], play)) {
            return Err(Rule::PlayExceeds.at(at));
        }
        wanted = wanted.after_play(file, play);
    }
    Ok(wanted)
}

// To set marks costs a pass of all objects, and as much again as this many.
const MARKS_COST: usize = 256;

// For so many points of bonus the half spins cost at least as much as an object.
const OBJECT_BONUS: u64 = 4096;

// Whether so many plays cost less from marks than each from the map's first object, for which spinners are walked too. Either way gives the same scores,
// so nothing is promised of it.
fn marks_pay(plays: usize, objects: u64, bonus: u64) -> bool {
    if plays < 2 {
        return false;
    }
    MARKS_COST / (plays - 1) < objects as usize
        || MARKS_COST / (plays - 1) < (bonus / OBJECT_BONUS) as usize
}

// Whether a play, the first of so many, is to be checked from marks.
fn needs_marks(play: Play, passed: u64, map: Map, plays: usize) -> bool {
    if passes_as_many(play, passed, map.objects) {
        return false;
    }
    marks_pay(plays, map.objects, map.passed.score.legacy_bonus_score.0)
}

// A play behind its map, from the attributes of the first objects where it passed as many.
fn score_behind(
    file: &MapFile,
    a: ScoreAttributes,
    passed: u64,
    play: Play,
) -> Result<PlayScore, Rule>
    requires { Attributed file.now.bytes.now passed file.now.map a }
    ensures { ScoredOn file.now.bytes.now passed file.now.map a play result }
{
    if passes_as_many(play, passed, file.map.objects) {
        return score_on(play, a);
    }
    file.score_anew(play)
}

// The plays behind a map, given the attributes of its first objects. Marks are made only where many plays passed other counts than these: then
// `check_any` goes on from the middle of this loop, so that one loop with a step for its parameter would need a third end beside good and refused.
pub fn check_behind(
    file: &MapFile,
    a: ScoreAttributes,
    passed: u64,
    index: u64,
) -> Result<Wanted, Refusal>
    requires { Attributed file.now.bytes.now passed file.now.map a }
    ensures { result ≡ checked_of index (scores_of (file_of file.now.bytes.now)) }
{
    let s = file.bytes;
    let map = file.map;
    let mut wanted = Wanted::Ahead(index);
    for at in (map.end..s.len()).step_by(Play::SIZE) {
        let play = play_at(s, at).map_err(|rule| rule.at(at))?;
        if needs_marks(play, passed, map, (s.len() - at) / Play::SIZE) {
            return check_any(file, at, wanted);
        }
        let score = score_behind(file, a, passed, play).map_err(|rule| rule.at(at))?;
        wanted = wanted.after(score);
    }
    Ok(wanted)
}

// No play of a file has it: where it is asked for, none is scored from marks.
const NO_INDEX: u64 = u64::MAX;

// Reads a file to its end, each play checked in its place, for its map and the attributes of its first objects.
#[tactic(auto, using(crate::proofs::Answers::read_complete, crate::proofs::Answers::read_plays, crate::proofs::Answers::start_plays, crate::proofs::Answers::check_plays))]
pub fn check_plays(s: &[u8], passed: u64) -> Result<(Map, ScoreAttributes), Refusal>
    ensures { PlaysOf s.now passed result }
{
    let map = read_passed(s, passed)?;
    let a = attributes_of(s, map);
    check_behind(&MapFile { bytes: s, map }, a, passed, NO_INDEX)?;
    Ok((map, a))
}
