// The record of a play.
ghost use Rattle.std.specs.Prelude.{◌≡◌};
ghost use Rattle.play_state.specs.Play.{hitresults_of};
ghost use Rattle.records.specs.Records.{record_read, play_read, play_of};

use crate::fields;
use numbers::words::word_at;
use play_state::{GameMods, OsuHitResults, OsuScoreOrigin, Play, has_unknown_flags, score_of};
use rules::refusal::Rule;

#[tactic(auto, unfolding(play_state::specs::Play::hitresults_of))]
fn hitresults_of(r: &[u8]) -> OsuHitResults
    ensures { result ≡ hitresults_of r.now }
{
    OsuHitResults {
        large_tick_hits: fields::u32_at(r, 16),
        small_tick_hits: fields::u32_at(r, 20),
        slider_end_hits: fields::u32_at(r, 24),
        n300: fields::u16_at(r, 8),
        n100: fields::u16_at(r, 10),
        n50: fields::u16_at(r, 12),
        misses: fields::u16_at(r, 14),
    }
}

#[tactic(auto, using(rules::proofs::Steps::steps), unfolding(crate::specs::Records::play_of))]
pub fn read_play(r: &[u8]) -> Result<Play, Rule>
    ensures { play_read result ≡ record_read (play_of r.now) }
{
    if r.len() < Play::SIZE {
        return Err(Rule::Cut);
    }
    let origin = OsuScoreOrigin::try_from(word_at(r, 28, 1))?;
    let legacy_total_score = score_of(word_at(r, 29, 1), fields::u32_at(r, 30)).ok_or(
        Rule::PlayField,
    )?;
    let flags = fields::u16_at(r, 34);
    if has_unknown_flags(flags) {
        return Err(Rule::PlayField);
    }
    let clock_rate = fields::rate_at(r, 36).ok_or(Rule::PlayField)?;
    Ok(Play {
        passed_objects: fields::u16_at(r, 2),
        max_combo: fields::u32_at(r, 4),
        hitresults: hitresults_of(r),
        origin,
        legacy_total_score,
        mods: GameMods { flags, clock_rate },
    })
}
