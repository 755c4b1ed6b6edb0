// The slider breaks of a play, estimated from its effective miss count and two factors that come with the call, and what the factors are refused for.
#![tactic(auto)]

ghost use Rattle.std.specs.Prelude.{◌≡◌};
ghost use Rattle.slider_breaks.specs.Given.{is_factor, factors_bad};

use crate::calculator::SliderFactors;
use records::fields::is_within;

pub mod calculator; // the breaks by the Rust's formula
pub mod difficulty; // its two curves

impl SliderFactors {
    pub const MAX: f64 = 10.0;
}

#[tactic(auto, unfolding(crate::specs::Given::is_factor, numbers::proofs::Literals::of_bits, numbers::proofs::Literals::of_int, numbers::proofs::Literals::round))]
fn is_factor(x: f64) -> bool
    ensures { result ≡ is_factor x }
{
    is_within(x, 0.0, SliderFactors::MAX)
}

// Number 14 is given where this is so and nothing else is refused.
#[tactic(auto, unfolding(crate::specs::Given::factors_bad))]
pub fn has_bad_factors(factors: SliderFactors) -> bool
    ensures { result ≡ factors_bad factors }
{
    !is_factor(factors.aim) || !is_factor(factors.speed)
}
