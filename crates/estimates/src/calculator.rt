// Of `OsuPerformanceCalculator`: the combo-based estimate and the effective miss count before its relax part.
ghost use Rattle.std.specs.Prelude.{◌≡◌};
ghost use Rattle.estimates.specs.ComboBased.{broken_of, classic_of, lazer_of, combo_based_of, is_classic_of};
ghost use Rattle.estimates.specs.Effective.{score_based_for, held_of, effective_of, estimates_of};

use crate::score_state::{accuracy, large_ticks};
use miss_calc::counts::{total_hits, total_imperfect_hits};
use miss_calc::legacy_score_miss_calc::{
    OsuLegacyScoreMissCalculator, cap_slider_breaks, full_combo_threshold,
};
use numbers::minmax::{max, min};
use play_state::{OsuHitResults, OsuScoreOrigin, Play};
use simulator::attributes::OsuDifficultyAttributes;

// What a play is told: "Play: index, accuracy, combo-based, score-based (`-` if absent), effective".
#[derive(Clone, Copy, Default)]
pub struct Estimates {
    pub accuracy: f64,
    pub combo_based: f64,
    pub score_based: Option<f64>,
    pub effective: f64,
}

// How often the combo goes into the threshold, or the misses if it reaches it.
#[tactic(auto, unfolding(crate::specs::ComboBased::broken_of, numbers::proofs::Literals::of_bits, numbers::proofs::Literals::of_int, numbers::proofs::Literals::round))]
fn broken_miss_count(threshold: f64, combo: u32, misses: u16) -> f64
    ensures { result ≡ broken_of threshold combo misses }
{
    let reached = f64::from(combo);
    if reached < threshold {
        threshold / max(reached, 1.0)
    } else {
        f64::from(misses)
    }
}

#[tactic(auto, unfolding(crate::specs::ComboBased::classic_of))]
fn classic_miss_count(play: Play, attrs: OsuDifficultyAttributes) -> f64
    ensures { result ≡ classic_of play attrs }
{
    let hits = play.hitresults;
    let broken = broken_miss_count(full_combo_threshold(attrs), play.max_combo, hits.misses);
    let miss_count = min(broken, f64::from(total_imperfect_hits(hits)));
    cap_slider_breaks(miss_count, hits.misses, attrs, play.max_combo)
}

// Dropped slider ends and missed ticks are known here; both differences rest on rule 9.
#[tactic(auto, unfolding(crate::specs::ComboBased::lazer_of))]
fn lazer_miss_count(play: Play, attrs: OsuDifficultyAttributes) -> f64
    ensures { result ≡ lazer_of play attrs }
{
    let hits = play.hitresults;
    let slider_ends_dropped = attrs.n_sliders.saturating_sub(hits.slider_end_hits);
    let large_tick_misses = large_ticks(attrs).saturating_sub(u64::from(hits.large_tick_hits));
    let threshold = f64::from(attrs.max_combo.saturating_sub(slider_ends_dropped));
    let broken = broken_miss_count(threshold, play.max_combo, hits.misses);
    min(broken, (large_tick_misses + u64::from(hits.misses)) as f64)
}

// Origins 0 and 2 use classic slider accuracy.
pub fn is_classic(origin: OsuScoreOrigin) -> bool
    ensures { result ≡ is_classic_of origin }
{
    matches!(
        origin,
        OsuScoreOrigin::Stable | OsuScoreOrigin::WithoutSliderAcc
    )
}

#[tactic(auto, unfolding(crate::specs::ComboBased::combo_based_of))]
pub fn calculate_combo_based_estimated_miss_count(play: Play, attrs: OsuDifficultyAttributes) -> f64
    ensures { result ≡ combo_based_of play attrs }
{
    if attrs.n_sliders == 0 {
        return f64::from(play.hitresults.misses);
    }
    if is_classic(play.origin) {
        classic_miss_count(play, attrs)
    } else {
        lazer_miss_count(play, attrs)
    }
}

#[tactic(auto, unfolding(crate::specs::Effective::score_based_for))]
fn score_based(play: Play, acc: f64, attrs: OsuDifficultyAttributes) -> Option<f64>
    ensures { result ≡ score_based_for play acc attrs }
{
    if !is_classic(play.origin) {
        return None;
    }
    let calculator = OsuLegacyScoreMissCalculator {
        acc,
        max_combo: play.max_combo,
        hitresults: play.hitresults,
        mods: play.mods,
        attrs,
    };
    calculator.calculate(play.legacy_total_score)
}

// From the misses to the judgements.
#[tactic(auto, unfolding(crate::specs::Effective::held_of))]
fn hold(count: f64, hits: OsuHitResults) -> f64
    ensures { result ≡ held_of count hits }
{
    min(
        max(count, f64::from(hits.misses)),
        f64::from(total_hits(hits)),
    )
}

#[tactic(auto, unfolding(crate::specs::Effective::effective_of))]
fn effective_miss_count(combo: f64, score: Option<f64>, hits: OsuHitResults) -> f64
    ensures { result ≡ effective_of combo score hits }
{
    hold(score.unwrap_or(combo), hits)
}

// With no judgement the estimates are 0, and the score-based one is absent.
#[tactic(auto, unfolding(crate::specs::Effective::estimates_of, numbers::proofs::Literals::of_bits, numbers::proofs::Literals::of_int, numbers::proofs::Literals::round))]
pub fn calculate(play: Play, attrs: OsuDifficultyAttributes) -> Estimates
    ensures { result ≡ estimates_of play attrs }
{
    let hits = play.hitresults;
    let acc = accuracy(hits, play.origin, attrs);
    if total_hits(hits) == 0 {
        return Estimates {
            accuracy: acc,
            ..Estimates::default()
        };
    }
    let combo_based = calculate_combo_based_estimated_miss_count(play, attrs);
    let score_based = score_based(play, acc, attrs);
    Estimates {
        accuracy: acc,
        combo_based,
        score_based,
        effective: effective_miss_count(combo_based, score_based, hits),
    }
}
