// The attributes of a map's first objects, from their sums and the multiplier.
ghost use Rattle.std.specs.Prelude.{◌≡◌};
ghost use Rattle.rules.specs.Limits.{max_objects};
ghost use Rattle.ruleset.specs.Stars.{SettingsIn};
ghost use Rattle.simulator.specs.Attributes.{difficulty_attributes_of, score_attributes_of, score_attributes_with};
ghost use Rattle.simulator.specs.Limits.{Bounded, Counted};
ghost use Rattle.simulator.specs.View.{times};

use crate::legacy_score::NestedScorePerObject;
use crate::legacy_score_simulator::{LegacyScoreAttributes, OsuLegacyScoreSimulator};
use records::beatmap::Settings;
use ruleset::score_multiplier::{DrainLen, Multiplier, score_multiplier};
use spinner::StandardisedBonusScore;
use std::num::nearest_u64_to_f64;

// What the estimates take.
#[derive(Clone, Copy)]
pub struct OsuDifficultyAttributes {
    pub max_combo: u32,
    pub n_circles: u32,
    pub n_sliders: u32,
    pub n_spinners: u32,
    pub n_repeats: u32,
    pub n_ticks: u32,
    pub nested_score_per_object: f64,
    pub legacy_score_base_multiplier: f64,
    pub maximum_legacy_combo_score: f64,
}

// All values of a map's first objects: the simulator's, and what the estimates take.
#[derive(Clone, Copy)]
pub struct ScoreAttributes {
    pub object_count: u64,
    pub multiplier: u64,
    pub standardised_bonus_score: StandardisedBonusScore,
    pub legacy: LegacyScoreAttributes,
    pub difficulty: OsuDifficultyAttributes,
}

// What a map's passed objects give: their attributes, which are the Rust's, and beside these the most combo that one of them adds.
#[derive(Clone, Copy)]
pub struct PassedValues {
    pub attributes: ScoreAttributes,
    pub largest_gain: u64,
}

#[tactic(auto, unfolding(crate::specs::Attributes::difficulty_attributes_of))]
fn difficulty_attributes(
    score: OsuLegacyScoreSimulator,
    nested: NestedScorePerObject,
    multiplier: Multiplier,
) -> OsuDifficultyAttributes
    requires { Bounded score × Counted max_objects nested }
    ensures { result ≡ difficulty_attributes_of (times multiplier.value score) nested multiplier.value }
{
    OsuDifficultyAttributes {
        max_combo: score.combo as u32,
        n_circles: nested.n_circles as u32,
        n_sliders: nested.n_sliders as u32,
        n_spinners: nested.n_spinners as u32,
        n_repeats: nested.n_repeats as u32,
        n_ticks: nested.amount_of_small_ticks as u32,
        nested_score_per_object: nested.calculate(),
        legacy_score_base_multiplier: multiplier.value as f64,
        maximum_legacy_combo_score: nearest_u64_to_f64(score.combo_score * multiplier.value),
    }
}

// In one with a board's read it takes registers from the loop over entries: 17 more instructions an entry.
#[tactic(auto, unfolding(crate::specs::Attributes::score_attributes_of))]
#[inline(never)]
pub fn score_attributes(
    score: OsuLegacyScoreSimulator,
    nested: NestedScorePerObject,
    multiplier: Multiplier,
) -> ScoreAttributes
    requires { Bounded score × Counted max_objects nested }
    ensures { result ≡ score_attributes_of (times multiplier.value score) nested multiplier.value }
{
    ScoreAttributes {
        object_count: nested.object_count,
        multiplier: multiplier.value,
        standardised_bonus_score: score.standardised_bonus_score,
        legacy: score.finalize(multiplier),
        difficulty: difficulty_attributes(score, nested, multiplier),
    }
}

// With the multiplier from a map's settings and its drain, for the objects that are counted. As a call it would copy the sums and the attributes:
// 35 more instructions for a map or a read.
#[inline(always)]
pub fn score_attributes_with(
    settings: Settings,
    drain: DrainLen,
    score: OsuLegacyScoreSimulator,
    nested: NestedScorePerObject,
) -> ScoreAttributes
    requires { SettingsIn settings × Bounded score × Counted max_objects nested }
    ensures { result ≡ score_attributes_with settings drain.seconds score nested }
{
    let multiplier = score_multiplier(settings, nested.object_count, drain.seconds);
    score_attributes(score, nested, multiplier)
}
