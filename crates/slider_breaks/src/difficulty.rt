// Of `util/difficulty`: the two curves of the slider breaks.
ghost use Rattle.std.specs.Prelude.{◌≡◌};
ghost use Rattle.slider_breaks.specs.Difficulty.{reverse_lerp_of, smoothstep_of, logistic_of};

use exponential::exp;
use numbers::minmax::clamp;

// How far x lies on the way from start to end, from 0 to 1.
#[tactic(auto, unfolding(crate::specs::Difficulty::reverse_lerp_of, numbers::proofs::Literals::of_bits, numbers::proofs::Literals::of_int, numbers::proofs::Literals::round))]
pub fn reverse_lerp(x: f64, start: f64, end: f64) -> f64
    ensures { result ≡ reverse_lerp_of x start end }
{
    clamp((x - start) / (end - start), 0.0, 1.0)
}

#[tactic(auto, unfolding(crate::specs::Difficulty::smoothstep_of, numbers::proofs::Literals::of_bits, numbers::proofs::Literals::of_int, numbers::proofs::Literals::round))]
pub fn smoothstep(x: f64, start: f64, end: f64) -> f64
    ensures { result ≡ smoothstep_of x start end }
{
    let t = reverse_lerp(x, start, end);
    t * t * (3.0 - 2.0 * t)
}

// With the most that the Rust takes where none is given, 1.
#[tactic(auto, unfolding(crate::specs::Difficulty::logistic_of, numbers::proofs::Literals::of_bits, numbers::proofs::Literals::of_int, numbers::proofs::Literals::round))]
pub fn logistic(x: f64, midpoint_offset: f64, multiplier: f64) -> f64
    ensures { result ≡ logistic_of x midpoint_offset multiplier }
{
    1.0 / (1.0 + exp(multiplier * (midpoint_offset - x)))
}
