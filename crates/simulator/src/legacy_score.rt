// The nested score: what ScoreV1 gives for the parts of sliders and the turns of spinners, for each object.
ghost use Rattle.std.specs.Prelude.{◌≡◌, ◌≤◌, ◌<◌, ◌^◌, ◌-◌};
ghost use Rattle.rules.specs.Limits.{max_objects, max_nested};
ghost use Rattle.simulator.specs.Nested.{spins_score, spinner_score_of, nested_score_of, counted, no_object};
ghost use Rattle.simulator.specs.Limits.{Counted, nested_count};
ghost use Rattle.simulator.specs.View.{kind_of};

use records::hit_object::{HitObject, HitObjectKind, Slider, Spinner};
use spinner::{HalfSpins, half_spins};
use std::num::nearest_u64_to_f64;

const SPIN_SCORE: u64 = 100;

const BONUS_SPIN_SCORE: u64 = 1000;

// A spinner's full turns, and its bonus turns less half of the full ones.
pub fn score_of_spins(h: HalfSpins) -> u64
    ensures { result ≡ spins_score h.total h.required }
{
    let full_spins = h.total / 2;
    let bonus_spins = (h.total.saturating_sub(h.required + 3) / 2).saturating_sub(full_spins / 2);
    SPIN_SCORE * full_spins + BONUS_SPIN_SCORE * bonus_spins
}

#[tactic(auto, unfolding(crate::specs::Nested::spinner_score_of))]
pub fn calculate_spinner_score(spinner: Spinner) -> u64
    ensures { result ≡ spinner_score_of spinner.duration }
{
    score_of_spins(half_spins(spinner.duration))
}

// The objects by kind, and what the nested score sums over them.
#[derive(Clone, Copy, Default)]
pub struct NestedScorePerObject {
    pub object_count: u64,
    pub n_circles: u64,
    pub n_sliders: u64,
    pub n_spinners: u64,
    pub n_repeats: u64,
    pub amount_of_small_ticks: u64,
    pub spinner_score: u64,
}

impl NestedScorePerObject {
    pub fn new() -> Self
        ensures { result ≡ no_object }
    {
        NestedScorePerObject::default()
    }

    #[tactic(auto, using(crate::proofs::Objects::repeats_kept, crate::proofs::Objects::ticks_kept, crate::proofs::Bonus::nested_legacy, crate::proofs::Bonus::legacy_most), unfolding(crate::specs::Nested::counted))]
    pub fn process_next(self, object: HitObject) -> Self
        requires { Counted (max_objects - 1) self × (nested_count object.kind ≤ max_nested) }
        ensures { result ≡ counted self (kind_of object.kind) }
    {
        let object_count = self.object_count + 1;
        match object.kind {
            HitObjectKind::Circle => NestedScorePerObject {
                object_count,
                n_circles: self.n_circles + 1,
                ..self
            },
            HitObjectKind::Slider(slider) => NestedScorePerObject {
                object_count,
                n_sliders: self.n_sliders + 1,
                n_repeats: self.n_repeats + slider.repeats,
                amount_of_small_ticks: self.amount_of_small_ticks + slider.ticks,
                ..self
            },
            HitObjectKind::Spinner(spinner) => NestedScorePerObject {
                object_count,
                n_spinners: self.n_spinners + 1,
                spinner_score: self.spinner_score + calculate_spinner_score(spinner),
                ..self
            },
        }
    }

    // With no object a quotient of zeros, which is not a number.
    #[tactic(auto, unfolding(crate::specs::Nested::nested_score_of, numbers::proofs::Literals::of_bits, numbers::proofs::Literals::of_int))]
    pub fn calculate(self) -> f64
        requires { Counted max_objects self }
        ensures { result ≡ nested_score_of self }
    {
        // A head and a tail for each slider, and the repeats.
        let amount_of_big_ticks = self.n_sliders * 2 + self.n_repeats;
        let slider_score = amount_of_big_ticks as f64 * 30.0
            + self.amount_of_small_ticks as f64 * 10.0;
        (slider_score + nearest_u64_to_f64(self.spinner_score)) / self.object_count as f64
    }
}
