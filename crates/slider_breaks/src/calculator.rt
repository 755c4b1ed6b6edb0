// Of `OsuPerformanceCalculator`: the estimated slider breaks.
ghost use Rattle.std.specs.Prelude.{◌≡◌};
ghost use Rattle.slider_breaks.specs.SliderBreaks.{adjusted_of, both_of, estimated_breaks};

use crate::difficulty::{logistic, smoothstep};
use estimates::calculator::is_classic;
use numbers::minmax::min;
use play_state::Play;

// The Rust's `aim_top_weighted_slider_factor` and `speed_top_weighted_slider_factor`, as a host in C gives them.
#[repr(C)]
#[derive(Clone, Copy)]
pub struct SliderFactors {
    pub aim: f64,
    pub speed: f64,
}

// The Rust's `aim_estimated_slider_breaks` and `speed_estimated_slider_breaks`, as a host in C gets them; none by default. A type of their own, so that
// no factors pass for breaks.
#[repr(C)]
#[derive(Clone, Copy, Default)]
pub struct SliderBreaks {
    pub aim: f64,
    pub speed: f64,
}

// The breaks of one factor from their count, which is at most n100; `step` and `likely` are those of `smoothstep` and `logistic`.
#[tactic(auto, unfolding(crate::specs::SliderBreaks::adjusted_of, numbers::proofs::Literals::of_bits, numbers::proofs::Literals::of_int, numbers::proofs::Literals::round))]
fn adjusted(n100: f64, breaks: f64, step: f64, likely: f64) -> f64
    ensures { result ≡ adjusted_of n100 breaks step likely }
{
    // Scores with more 100s are more likely to have slider breaks.
    let ok_adjustment = (n100 - breaks + 0.5) / n100;
    breaks * step * ok_adjustment * likely
}

// For both factors at once, since neither curve depends on them; `highest` is the passed objects' max combo.
#[tactic(auto, unfolding(crate::specs::SliderBreaks::slider_breaks_of, numbers::proofs::Literals::of_bits, numbers::proofs::Literals::of_int, numbers::proofs::Literals::round))]
pub fn calculate_estimated_slider_breaks(
    play: Play,
    highest: u32,
    effective: f64,
    factors: SliderFactors,
) -> SliderBreaks
    ensures { result ≡ both_of play highest effective factors }
{
    if !is_classic(play.origin) || play.hitresults.n100 == 0 {
        return SliderBreaks::default();
    }
    let n100 = f64::from(play.hitresults.n100);
    let missed_combo_percent = 1.0 - f64::from(play.max_combo) / f64::from(highest);
    let step = smoothstep(effective, 1.0, 2.0);
    let likely = logistic(missed_combo_percent, 0.33, 15.0);
    SliderBreaks {
        aim: adjusted(n100, min(effective * factors.aim, n100), step, likely),
        speed: adjusted(n100, min(effective * factors.speed, n100), step, likely),
    }
}

// An effective count of 0 gives 0, whatever the factors.
#[tactic(auto, unfolding(crate::specs::SliderBreaks::estimated_breaks, numbers::proofs::Literals::of_bits, numbers::proofs::Literals::of_int, numbers::proofs::Literals::round))]
pub fn slider_breaks(
    play: Play,
    highest: u32,
    effective: f64,
    factors: SliderFactors,
) -> SliderBreaks
    ensures { result ≡ estimated_breaks play highest effective factors }
{
    if effective > 0.0 {
        calculate_estimated_slider_breaks(play, highest, effective, factors)
    } else {
        SliderBreaks::default()
    }
}
