// A heat: up to 64 plays on one map in one call. Here is what is known before its first play, and the answer of one play; the loop stands with the
// lists that a host lends (`pjp_heat` of the crate `popejoanplum`).
#![tactic(auto)]

ghost use Rattle.std.specs.Prelude.{◌≡◌};
ghost use Rattle.map_file.specs.File.{file_of};
ghost use Rattle.scoring.specs.Scores.{scores_of};
ghost use Rattle.heat.specs.Heat.{counts_bad, start_of, due_of, heat_status_of, passed_of, score_one, one_of};

use host::answer::PlayAnswer;
use host::play::HostPlay;
use host::status::Status;
use play_reader::simulate;
use play_score::{PlayScore, score_given};
use play_state::Play;
use rules::refusal::{Refusal, Rule};
use scoring::score::score_map;
use simulator::attributes::ScoreAttributes;

pub const MAX_PLAYS: usize = 64;

// What is known before the first play: the attributes of all objects, or why the call is refused.
pub type HeatStart = Result<ScoreAttributes, Refusal>;

fn has_bad_counts(plays: usize, outcomes: usize) -> bool
    ensures { result ≡ counts_bad plays outcomes }
{
    (MAX_PLAYS < plays) | (outcomes < plays)
}

// The file, then 15.
#[tactic(auto, using(rules::proofs::Steps::steps))]
pub fn heat_start(file: &[u8], plays: usize, outcomes: usize) -> HeatStart
    ensures { result ≡ start_of (scores_of (file_of file.now)) plays outcomes }
{
    let all = score_map(file)?;
    if has_bad_counts(plays, outcomes) {
        return Err(Rule::Heat.at(0));
    }
    Ok(all)
}

// How many plays get their outcome.
pub fn due(start: HeatStart, plays: usize) -> usize
    ensures { result ≡ due_of start plays }
{
    if start.is_ok() { plays } else { 0 }
}

pub fn heat_status(start: HeatStart) -> Status
    ensures { result ≡ heat_status_of start }
{
    start.map(|_| ()).into()
}

// The attributes of the passed objects: where these are all, they are known; else the file is read again, without the scores of its own plays.
fn passed_of(file: &[u8], all: ScoreAttributes, passed: u64) -> Result<ScoreAttributes, Refusal>
    ensures { result ≡ passed_of (file_of file.now) all passed }
{
    if all.object_count <= passed {
        return Ok(all);
    }
    simulate(file, passed)
}

// The score of one play: from its passed objects on it goes the single call's way.
#[tactic(auto, using(rules::proofs::Steps::steps))]
fn score_one(file: &[u8], start: HeatStart, play: Play) -> Result<PlayScore, Refusal>
    ensures { result ≡ score_one (file_of file.now) start play }
{
    let all = start?;
    let passed = passed_of(file, all, u64::from(play.passed_objects))?;
    Ok(score_given(play, passed)?)
}

// The outcome of one play; of a refused call none is due.
pub fn heat_one(file: &[u8], start: HeatStart, play: HostPlay) -> PlayAnswer
    ensures { result ≡ one_of (file_of file.now) start play }
{
    score_one(file, start, play.into()).into()
}
