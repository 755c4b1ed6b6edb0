// A play on the passed objects of its map: what it is refused for, and its score.
#![tactic(auto)]

ghost use Rattle.std.specs.Prelude.{◌≡◌};
ghost use Rattle.play_score.specs.PlayRules.{mods_bad, hits_exceed, exceeds, play_score, given_score};

use estimates::calculator::{Estimates, calculate, is_classic};
use estimates::score_state::large_ticks;
use miss_calc::counts::total_hits;
use play_state::{GameMods, OsuHitResults, OsuScoreOrigin, Play, has_unknown_flags};
use records::fields::is_rate;
use rules::refusal::Rule;
use simulator::attributes::{OsuDifficultyAttributes, ScoreAttributes};

// The attributes of the passed objects, and what the play is told of its misses.
#[derive(Clone, Copy)]
pub struct PlayScore {
    pub attributes: ScoreAttributes,
    pub estimates: Estimates,
}

// Flags and clock rate are the only fields of a play struct that can be out of range.
#[tactic(auto, unfolding(crate::specs::PlayRules::mods_bad))]
pub fn has_bad_mods(mods: GameMods) -> bool
    ensures { result ≡ mods_bad mods }
{
    has_unknown_flags(mods.flags) || !is_rate(mods.clock_rate)
}

// Origin 1 counts slider ends and large ticks; the others' hits are capped by the accuracy.
#[tactic(auto, unfolding(crate::specs::PlayRules::hits_exceed))]
fn hits_exceed(hits: OsuHitResults, origin: OsuScoreOrigin, attrs: OsuDifficultyAttributes) -> bool
    ensures { result ≡ hits_exceed hits origin attrs }
{
    !is_classic(origin)
        && (attrs.n_sliders < hits.slider_end_hits
            || large_ticks(attrs) < u64::from(hits.large_tick_hits))
}

// What a play is refused for on the objects that it passed (9). It takes no bonus of theirs.
#[tactic(auto, unfolding(crate::specs::PlayRules::exceeds))]
pub fn exceeds_map(play: Play, a: ScoreAttributes) -> bool
    ensures { result ≡ exceeds play a }
{
    a.object_count < u64::from(total_hits(play.hitresults))
        || a.difficulty.max_combo < play.max_combo
        || hits_exceed(play.hitresults, play.origin, a.difficulty)
}

// The score of a play on the objects that it passed.
#[tactic(auto, using(rules::proofs::Steps::steps), unfolding(crate::specs::PlayRules::play_score))]
pub fn score_on(play: Play, a: ScoreAttributes) -> Result<PlayScore, Rule>
    ensures { result ≡ play_score play a }
{
    if exceeds_map(play, a) {
        return Err(Rule::PlayExceeds);
    }
    Ok(PlayScore {
        attributes: a,
        estimates: calculate(play, a.difficulty),
    })
}

// The score of a given play: 8, then 9.
#[tactic(auto, using(rules::proofs::Steps::steps), unfolding(crate::specs::PlayRules::given_score))]
pub fn score_given(play: Play, a: ScoreAttributes) -> Result<PlayScore, Rule>
    ensures { result ≡ given_score play a }
{
    if has_bad_mods(play.mods) {
        return Err(Rule::PlayField);
    }
    score_on(play, a)
}
