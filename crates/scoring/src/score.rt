// The score of a map file, of a play on it, and of a play in it.
ghost use Rattle.std.specs.Prelude.{◌≡◌};
ghost use Rattle.map_file.specs.File.{file_of};
ghost use Rattle.scoring.specs.Scores.{scores_of, map_score_of, given_play_of, listed_play_of};
ghost use Rattle.scoring.specs.View.{listed_by};

use crate::plays::{Wanted, check_behind, check_plays};
use map_reader::attributes::attributes_of;
use map_reader::map::{ALL_OBJECTS, read_passed};
use marks::MapFile;
use play_score::{PlayScore, score_given};
use play_state::Play;
use rules::refusal::Refusal;
use simulator::attributes::ScoreAttributes;

// The attributes of all objects of a map file.
#[tactic(auto, using(rules::proofs::Steps::steps, crate::proofs::Answers::plays_refused, crate::proofs::Answers::map_scored))]
pub fn score_map(s: &[u8]) -> Result<ScoreAttributes, Refusal>
    ensures { result ≡ map_score_of (scores_of (file_of s.now)) }
{
    let (_, a) = check_plays(s, ALL_OBJECTS)?;
    Ok(a)
}

// The score of a play on a map file.
#[tactic(auto, using(rules::proofs::Steps::steps, crate::proofs::Answers::plays_refused, crate::proofs::Answers::play_scored))]
pub fn score_play(s: &[u8], play: Play) -> Result<PlayScore, Refusal>
    ensures { result ≡ given_play_of play (scores_of (file_of s.now)) }
{
    let (_, a) = check_plays(s, u64::from(play.passed_objects))?;
    Ok(score_given(play, a)?)
}

// A play that was asked for, where the file is good.
impl From<Wanted> for Option<PlayScore> {
    ghost from_gives = { λ wanted r. r ≡ listed_by wanted };

    fn from(wanted: Wanted) -> Option<PlayScore> {
        match wanted {
            Wanted::Ahead(_) => None,
            Wanted::Is(score) => Some(score),
        }
    }
}

// The score of the play at an index of a map file, if it has one there. It takes from the check nothing but the play, so that no map is copied.
#[tactic(auto, using(rules::proofs::Steps::steps, crate::proofs::Answers::start_refused, crate::proofs::Answers::read_complete, crate::proofs::Answers::read_attributed, crate::proofs::Answers::read_listed))]
pub fn score_play_at(s: &[u8], index: u64) -> Result<Option<PlayScore>, Refusal>
    ensures { result ≡ listed_play_of index (scores_of (file_of s.now)) }
{
    let map = read_passed(s, ALL_OBJECTS)?;
    let a = attributes_of(s, map);
    let wanted = check_behind(&MapFile { bytes: s, map }, a, ALL_OBJECTS, index)?;
    Ok(wanted.into())
}
