// `OsuHitResults::accuracy`.
ghost use Rattle.std.specs.Prelude.{◌≡◌, ◌≤◌};
ghost use Rattle.estimates.specs.Accuracy.{quotient_of, weighted, heaviest, large_ticks, accuracy_of, with_slider_acc, without_slider_acc};

use miss_calc::counts::total_hits;
use play_state::{OsuHitResults, OsuScoreOrigin};
use simulator::attributes::OsuDifficultyAttributes;

// The quotient, and 0 where the denominator is as good as 0.
#[tactic(auto, using(crate::proofs::Epsilon::at_epsilon), unfolding(crate::specs::Accuracy::quotient_of, numbers::proofs::Literals::of_bits, numbers::proofs::Literals::of_int, numbers::proofs::Literals::round))]
fn quotient(numerator: f64, denominator: f64) -> f64
    ensures { result ≡ quotient_of numerator denominator }
{
    if (denominator - 0.0).abs() <= f64::EPSILON {
        0.0
    } else {
        numerator / denominator
    }
}

// The judgements, in sixths of a 300.
#[tactic(auto, unfolding(crate::specs::Accuracy::weighted))]
fn weight(h: OsuHitResults) -> f64
    ensures { result ≡ weighted h }
{
    f64::from(6 * u32::from(h.n300) + 2 * u32::from(h.n100) + u32::from(h.n50))
}

#[tactic(auto, unfolding(crate::specs::Accuracy::heaviest))]
fn full_weight(h: OsuHitResults) -> f64
    ensures { result ≡ heaviest h }
{
    f64::from(6 * total_hits(h))
}

// The ticks and repeats of a map's sliders.
pub fn large_ticks(attrs: OsuDifficultyAttributes) -> u64
    ensures { (result ≡ large_ticks attrs) × (result ≤ 8589934590) }
{
    u64::from(attrs.n_ticks) + u64::from(attrs.n_repeats)
}

#[tactic(auto, unfolding(crate::specs::Accuracy::with_slider_acc, numbers::proofs::Literals::of_bits, numbers::proofs::Literals::of_int, numbers::proofs::Literals::round))]
fn with_slider_acc(h: OsuHitResults, attrs: OsuDifficultyAttributes) -> f64
    ensures { result ≡ with_slider_acc h attrs }
{
    let max_large_ticks = large_ticks(attrs);
    let max_slider_ends = u64::from(attrs.n_sliders);
    let slider_end_hits = u64::from(h.slider_end_hits).min(max_slider_ends);
    let large_tick_hits = u64::from(h.large_tick_hits).min(max_large_ticks);
    quotient(
        weight(h) + ((3 * slider_end_hits) as f64 + 0.6 * large_tick_hits as f64),
        full_weight(h) + ((3 * max_slider_ends) as f64 + 0.6 * max_large_ticks as f64),
    )
}

#[tactic(auto, unfolding(crate::specs::Accuracy::without_slider_acc, numbers::proofs::Literals::of_bits, numbers::proofs::Literals::of_int, numbers::proofs::Literals::round))]
fn without_slider_acc(h: OsuHitResults, attrs: OsuDifficultyAttributes) -> f64
    ensures { result ≡ without_slider_acc h attrs }
{
    let max_large_ticks = u64::from(attrs.n_sliders) + large_ticks(attrs);
    let max_small_ticks = attrs.n_sliders;
    let large_tick_hits = u64::from(h.large_tick_hits).min(max_large_ticks);
    let small_tick_hits = h.small_tick_hits.min(max_small_ticks);
    quotient(
        weight(h) + (0.6 * large_tick_hits as f64 + 0.2 * f64::from(small_tick_hits)),
        full_weight(h) + (0.6 * max_large_ticks as f64 + 0.2 * f64::from(max_small_ticks)),
    )
}

#[tactic(auto, unfolding(crate::specs::Accuracy::accuracy_of))]
pub fn accuracy(h: OsuHitResults, origin: OsuScoreOrigin, attrs: OsuDifficultyAttributes) -> f64
    ensures { result ≡ accuracy_of h origin attrs }
{
    // `with_slider_acc` and `without_slider_acc` share one line: their sums stand in another order, with other weights.
    match origin {
        OsuScoreOrigin::Stable => quotient(weight(h), full_weight(h)),
        OsuScoreOrigin::WithSliderAcc => with_slider_acc(h, attrs),
        OsuScoreOrigin::WithoutSliderAcc => without_slider_acc(h, attrs),
    }
}
