// The running state of ScoreV1, object by object. Its combo points are those of multiplier 1: the multiplier is a factor of each of them.
ghost use Rattle.std.specs.Prelude.{◌≡◌, ◌+◌, ◌-◌, ◌*◌, ◌≤◌};
ghost use Rattle.rules.specs.Limits.{combo_limit, max_objects, max_nested};
ghost use Rattle.simulator.specs.Hits.{hits_of};
ghost use Rattle.simulator.specs.Walk.{walk, fresh};
ghost use Rattle.simulator.specs.Attributes.{bonus_ratio_of, legacy_attributes_of};
ghost use Rattle.simulator.specs.Limits.{Within, Bounded};
ghost use Rattle.simulator.specs.View.{kind_of, times};

use records::hit_object::{HitObjectKind, Slider, Spinner};
use ruleset::hit_result::HitResult;
use ruleset::score_multiplier::Multiplier;
use spinner::{LegacyBonusScore, StandardisedBonusScore};
use std::num::nearest_u64_to_f64;

#[derive(Clone, Copy, Default)]
pub struct OsuLegacyScoreSimulator {
    pub combo: u64,
    pub accuracy_score: u64,
    pub combo_score: u64,
    pub legacy_bonus_score: LegacyBonusScore,
    pub standardised_bonus_score: StandardisedBonusScore,
}

#[derive(Clone, Copy)]
pub struct LegacyScoreAttributes {
    pub accuracy_score: u64,
    pub combo_score: u64,
    pub bonus_score_ratio: f64,
    pub bonus_score: LegacyBonusScore,
    pub max_combo: u64,
}

// For each combo before it ScoreV1 gives the points of a hit divided by this.
const COMBO_DIVISOR: u64 = 25;

// The combo points of a 300 at multiplier 1: 300 / 25 for each combo before it but the first, and none at combo 0.
pub fn combo_points(combo: u64) -> u64
    requires { combo ≤ combo_limit }
    ensures { result ≡ 12 * (combo - 1) }
{
    HitResult::Great.base_score() / COMBO_DIVISOR * combo.saturating_sub(1)
}

impl OsuLegacyScoreSimulator {
    pub fn new() -> Self
        ensures { result ≡ fresh }
    {
        OsuLegacyScoreSimulator::default()
    }

    #[tactic(auto, using(crate::proofs::Objects::walks))]
    pub fn circle(self) -> Self
        requires { Within (max_objects - 1) self }
        ensures { result ≡ walk 1 self (hits_of (kind_of HitObjectKind.Circle)) }
    {
        OsuLegacyScoreSimulator {
            combo: self.combo + 1,
            accuracy_score: self.accuracy_score + HitResult::Great.base_score(),
            combo_score: self.combo_score + combo_points(self.combo),
            ..self
        }
    }

    // The head, the repeats and the tail give 30 each and the ticks 10, all before the 300 at the end.
    #[tactic(auto, using(crate::proofs::Objects::walks))]
    pub fn slider(self, slider: Slider) -> Self
        requires { Within (max_objects - 1) self × (slider.repeats + slider.ticks + 1 ≤ max_nested) }
        ensures { result ≡ walk 1 self (hits_of (kind_of (HitObjectKind.Slider slider))) }
    {
        let big_ticks = slider.repeats + 2;
        let combo = self.combo + big_ticks + slider.ticks;
        OsuLegacyScoreSimulator {
            combo,
            accuracy_score: self.accuracy_score
                + big_ticks * HitResult::LargeTickHit.base_score()
                + slider.ticks * HitResult::SmallTickHit.base_score()
                + HitResult::Great.base_score(),
            combo_score: self.combo_score + combo_points(combo),
            ..self
        }
    }

    // The bonus of the half spins, then the 300 at the end.
    #[tactic(auto, using(crate::proofs::Bonus::legacy_most, crate::proofs::Bonus::standardised_most, crate::proofs::Objects::walks))]
    pub fn spinner(self, spinner: Spinner) -> Self
        requires { Within (max_objects - 1) self }
        ensures { result ≡ walk 1 self (hits_of (kind_of (HitObjectKind.Spinner spinner))) }
    {
        let bonus = spinner::bonus(spinner.duration);
        let legacy_bonus_score = LegacyBonusScore(self.legacy_bonus_score.0 + bonus.legacy.0);
        let standardised_bonus_score = StandardisedBonusScore(
            self.standardised_bonus_score.0 + bonus.standardised.0,
        );
        OsuLegacyScoreSimulator {
            legacy_bonus_score,
            standardised_bonus_score,
            ..self.circle()
        }
    }

    #[tactic(auto, unfolding(crate::specs::Attributes::bonus_ratio_of, numbers::proofs::Literals::of_bits, numbers::proofs::Literals::of_int))]
    fn bonus_score_ratio(self) -> f64
        ensures { result ≡ bonus_ratio_of self }
    {
        if self.legacy_bonus_score.0 == 0 {
            0.0
        } else {
            nearest_u64_to_f64(self.standardised_bonus_score.0)
                / nearest_u64_to_f64(self.legacy_bonus_score.0)
        }
    }

    // The attributes with the multiplier of the map.
    #[tactic(auto, unfolding(crate::specs::Attributes::legacy_attributes_of, crate::specs::Attributes::bonus_ratio_of))]
    pub fn finalize(self, multiplier: Multiplier) -> LegacyScoreAttributes
        requires { Bounded self }
        ensures { result ≡ legacy_attributes_of (times multiplier.value self) }
    {
        LegacyScoreAttributes {
            accuracy_score: self.accuracy_score,
            combo_score: self.combo_score * multiplier.value,
            bonus_score_ratio: self.bonus_score_ratio(),
            bonus_score: self.legacy_bonus_score,
            max_combo: self.combo,
        }
    }
}
