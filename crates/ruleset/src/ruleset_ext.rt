// The difficulty stars, by which ScoreV1 multiplies its combo points.
ghost use Rattle.std.specs.Prelude.{◌≡◌};
ghost use Rattle.ruleset.specs.Stars.{ratio_of, stars_of};

use numbers::minmax::clamp;
use numbers::rounding::round_ties_even_i32;
use records::beatmap::Settings;
use std::num::{nearest_i64_to_f64, nearest_u64_to_f64};

#[tactic(auto, using(crate::proofs::Ratios::at_zero, crate::proofs::Ratios::at_other, crate::proofs::Signs::kept), unfolding(numbers::proofs::Literals::of_bits, numbers::proofs::Literals::of_int))]
fn object_to_drain_ratio(object_count: u64, drain_len: i64) -> f64
    ensures { result ≡ ratio_of object_count drain_len }
{
    if drain_len == 0 {
        16.0
    } else {
        clamp(
            nearest_u64_to_f64(object_count) / nearest_i64_to_f64(drain_len) * 8.0,
            0.0,
            16.0,
        )
    }
}

// A count of objects beside a drain, as in the Rust's function of this name.
#[tactic(auto, unfolding(crate::specs::Stars::stars_of, numbers::proofs::Literals::of_bits, numbers::proofs::Literals::of_int))]
pub fn calculate_difficulty_peppy_stars(
    settings: Settings,
    object_count: u64,
    drain_len: i64,
) -> i32
    ensures { result ≡ stars_of settings object_count drain_len }
{
    let drain_rate = f64::from(settings.hp);
    let overall_difficulty = f64::from(settings.od);
    let circle_size = f64::from(settings.cs);
    let ratio = object_to_drain_ratio(object_count, drain_len);
    round_ties_even_i32((drain_rate + overall_difficulty + circle_size + ratio) / 38.0 * 5.0)
}
