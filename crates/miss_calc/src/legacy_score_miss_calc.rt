// `OsuLegacyScoreMissCalculator`: how many misses a ScoreV1 score tells of.
ghost use Rattle.std.specs.Prelude.{◌≡◌};
ghost use Rattle.miss_calc.specs.Threshold.{threshold_of, slider_breaks_of, capped_of};
ghost use Rattle.miss_calc.specs.Multiplier.{times_if, score_multiplier_of};
ghost use Rattle.miss_calc.specs.ScoreBased.{combo_portion_of, score_at_combo_of, combo_product_of, combo_per_object_of, maximum_miss_count_of, miss_count_of, score_based_of, broken_miss_count_of};

use crate::counts::{total_hits, total_imperfect_hits};
use numbers::minmax::{max, min};
use play_state::{GameMod, GameMods, OsuHitResults};
use simulator::attributes::OsuDifficultyAttributes;
use square_root::powf_2_5;
use std::num::nearest_u64_to_f64;

// What the estimate leans on: the play's accuracy, combo, hits and modifiers, and the attributes of the passed objects.
#[derive(Clone, Copy)]
pub struct OsuLegacyScoreMissCalculator {
    pub acc: f64,
    pub max_combo: u32,
    pub hitresults: OsuHitResults,
    pub mods: GameMods,
    pub attrs: OsuDifficultyAttributes,
}

// A full combo less a tenth of the sliders: their ends may be dropped without a break.
#[tactic(auto, unfolding(crate::specs::Threshold::threshold_of, numbers::proofs::Literals::of_bits, numbers::proofs::Literals::of_int, numbers::proofs::Literals::round))]
pub fn full_combo_threshold(attrs: OsuDifficultyAttributes) -> f64
    ensures { result ≡ threshold_of attrs }
{
    f64::from(attrs.max_combo) - 0.1 * f64::from(attrs.n_sliders)
}

// Every slider has at least 2 combo, so that each break takes 2 of the combo that is missing.
fn max_possible_slider_breaks(attrs: OsuDifficultyAttributes, combo: u32) -> u32
    ensures { result ≡ slider_breaks_of attrs combo }
{
    (attrs.max_combo.saturating_sub(combo) / 2).min(attrs.n_sliders)
}

// A miss count with at most the possible slider breaks above the misses.
#[tactic(auto, unfolding(crate::specs::Threshold::capped_of))]
pub fn cap_slider_breaks(count: f64, misses: u16, attrs: OsuDifficultyAttributes, combo: u32) -> f64
    ensures { result ≡ capped_of count misses attrs combo }
{
    let possible = max_possible_slider_breaks(attrs, combo);
    let slider_breaks = count - f64::from(misses);
    if slider_breaks > f64::from(possible) {
        (u64::from(misses) + u64::from(possible)) as f64
    } else {
        count
    }
}

#[tactic(auto, unfolding(crate::specs::Multiplier::times_if))]
fn times_if(multiplier: f64, on: bool, factor: f64) -> f64
    ensures { result ≡ times_if multiplier on factor }
{
    if on { multiplier * factor } else { multiplier }
}

#[tactic(auto, unfolding(crate::specs::Multiplier::score_multiplier_of, numbers::proofs::Literals::of_bits, numbers::proofs::Literals::of_int, numbers::proofs::Literals::round))]
fn get_legacy_score_multiplier(mods: GameMods) -> f64
    ensures { result ≡ score_multiplier_of mods }
{
    let rate = mods.clock_rate;
    let (no_fail, hard_rock, double_time) = if mods.has(GameMod::ScoreV2) {
        (1.0, 1.1, 1.2)
    } else {
        (0.5, 1.06, 1.12)
    };
    let nf = times_if(1.0, mods.has(GameMod::NoFail), no_fail);
    let ez = times_if(nf, mods.has(GameMod::Easy), 0.5);
    let slow = times_if(ez, rate < 1.0, 0.3);
    let hd = times_if(slow, mods.has(GameMod::Hidden), 1.06);
    let hr = times_if(hd, mods.has(GameMod::HardRock), hard_rock);
    let fast = times_if(hr, rate > 1.0, double_time);
    let fl = times_if(fast, mods.has(GameMod::Flashlight), 1.12);
    let so = times_if(fl, mods.has(GameMod::SpunOut), 0.9);
    times_if(
        so,
        mods.has(GameMod::Relax) | mods.has(GameMod::Autopilot),
        0.0,
    )
}

// The combo portion of a score follows an arithmetic progression over the objects.
#[tactic(auto, unfolding(crate::specs::ScoreBased::combo_portion_of, numbers::proofs::Literals::of_bits, numbers::proofs::Literals::of_int, numbers::proofs::Literals::round))]
fn combo_portion(per: f64, objects: f64) -> f64
    ensures { result ≡ combo_portion_of per objects }
{
    if per > 0.0 {
        (2.0 * (per - 1.0) + (objects - 1.0) * per) * objects / 2.0
    } else {
        0.0
    }
}

// (combo - 2) × combo, exact.
#[tactic(auto, unfolding(crate::specs::ScoreBased::combo_product_of, numbers::proofs::Literals::of_bits, numbers::proofs::Literals::of_int, numbers::proofs::Literals::round, numbers::proofs::Literals::neg))]
fn combo_product(combo: u32) -> f64
    ensures { result ≡ combo_product_of combo }
{
    if combo == 1 {
        return -1.0;
    }
    nearest_u64_to_f64(u64::from(combo.saturating_sub(2)) * u64::from(combo))
}

impl OsuLegacyScoreMissCalculator {
    #[tactic(auto, unfolding(crate::specs::ScoreBased::score_at_combo_of, numbers::proofs::Literals::of_bits, numbers::proofs::Literals::of_int, numbers::proofs::Literals::round))]
    fn calculate_score_at_combo(self, combo: u32, per: f64, multiplier: f64) -> f64
        ensures { result ≡ score_at_combo_of self combo per multiplier }
    {
        let hits = self.hitresults;
        let estimated_objects = f64::from(combo) / per - 1.0;
        let portion = combo_portion(per, estimated_objects);
        let combo_score = portion * (self.acc * 300.0 / 25.0 * multiplier);
        let successful = total_hits(hits).saturating_sub(u32::from(hits.misses));
        let objects_hit = f64::from(successful) * f64::from(combo)
            / f64::from(self.attrs.max_combo);
        let non_combo_score = (300.0 + self.attrs.nested_score_per_object) * self.acc * objects_hit;
        combo_score + non_combo_score
    }

    // The combo of an object, if it were the same for all: the arithmetic progression reversed.
    #[tactic(auto, unfolding(crate::specs::ScoreBased::combo_per_object_of, numbers::proofs::Literals::of_bits, numbers::proofs::Literals::of_int, numbers::proofs::Literals::round))]
    fn calculate_relevant_score_combo_per_object(self) -> f64
        ensures { result ≡ combo_per_object_of self.attrs }
    {
        let combo_score = self.attrs.maximum_legacy_combo_score
            / (300.0 / 25.0 * self.attrs.legacy_score_base_multiplier);
        let combo = self.attrs.max_combo;
        combo_product(combo) / max(f64::from(combo) + 2.0 * (combo_score - 1.0), 1.0)
    }

    // The harsh combo-based count: the power 2.5 of how often the combo went into a full one. The Rust has it beside the one of the calculator.
    #[tactic(auto, unfolding(crate::specs::ScoreBased::broken_miss_count_of, numbers::proofs::Literals::of_bits, numbers::proofs::Literals::of_int, numbers::proofs::Literals::round))]
    fn broken_miss_count(self) -> f64
        ensures { result ≡ broken_miss_count_of self }
    {
        let threshold = full_combo_threshold(self.attrs);
        let combo = f64::from(self.max_combo);
        if combo < threshold {
            powf_2_5(threshold / max(combo, 1.0))
        } else {
            0.0
        }
    }

    #[tactic(auto, unfolding(crate::specs::ScoreBased::maximum_miss_count_of))]
    fn calculate_maximum_combo_based_miss_count(self) -> f64
        ensures { result ≡ maximum_miss_count_of self }
    {
        let hits = self.hitresults;
        if self.attrs.n_sliders == 0 {
            return f64::from(hits.misses);
        }
        let miss_count = min(
            self.broken_miss_count(),
            f64::from(total_imperfect_hits(hits)),
        );
        cap_slider_breaks(miss_count, hits.misses, self.attrs, self.max_combo)
    }

    // At least one miss, and at most the harsh combo-based count.
    #[tactic(auto, unfolding(crate::specs::ScoreBased::miss_count_of, numbers::proofs::Literals::of_bits, numbers::proofs::Literals::of_int, numbers::proofs::Literals::round))]
    fn miss_count(self, score: u32) -> f64
        ensures { result ≡ miss_count_of self score }
    {
        let score_v1_multiplier = self.attrs.legacy_score_base_multiplier
            * get_legacy_score_multiplier(self.mods);
        let per_object = self.calculate_relevant_score_combo_per_object();
        let maximum_miss_count = self.calculate_maximum_combo_based_miss_count();
        let obtained = self.calculate_score_at_combo(
            self.max_combo,
            per_object,
            score_v1_multiplier,
        );
        let remaining_score = f64::from(score) - obtained;
        if remaining_score <= 0.0 {
            return maximum_miss_count;
        }
        let remaining_combo = self.attrs.max_combo.saturating_sub(self.max_combo);
        let expected = self.calculate_score_at_combo(
            remaining_combo,
            per_object,
            score_v1_multiplier,
        );
        min(max(expected / remaining_score, 1.0), maximum_miss_count)
    }

    // Absent without a score.
    #[tactic(auto, unfolding(crate::specs::ScoreBased::score_based_of, numbers::proofs::Literals::of_bits, numbers::proofs::Literals::of_int, numbers::proofs::Literals::round))]
    pub fn calculate(self, score: Option<u32>) -> Option<f64>
        ensures { result ≡ score_based_of self score }
    {
        let Some(score) = score else {
            return None;
        };
        if self.attrs.max_combo == 0 {
            return Some(0.0);
        }
        Some(self.miss_count(score))
    }
}
