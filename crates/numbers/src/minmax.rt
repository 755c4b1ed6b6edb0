// Rust's f64::max, f64::min and f64::clamp. The first two differ in one comparison, and would be longer with a closure for it and the closure's contract.
// std's leave the sign of a zero open, and its `clamp` asks for bounds in order.
#![tactic(auto, unfolding(crate::specs::MinMax::max_of, crate::specs::MinMax::min_of, crate::specs::MinMax::clamp_of))]

ghost use Rattle.std.specs.Prelude.{◌≡◌};
ghost use Rattle.numbers.specs.MinMax.{max_of, min_of, clamp_of};

pub fn max(x: f64, y: f64) -> f64
    ensures { result ≡ max_of x y }
{
    if x.is_nan() {
        y
    } else if x < y {
        y
    } else {
        x
    }
}

pub fn min(x: f64, y: f64) -> f64
    ensures { result ≡ min_of x y }
{
    if x.is_nan() {
        y
    } else if y < x {
        y
    } else {
        x
    }
}

// Two tests in Rust's order: a NaN fails both and stays.
pub fn clamp(x: f64, lo: f64, hi: f64) -> f64
    ensures { result ≡ clamp_of x lo hi }
{
    if x < lo {
        lo
    } else if hi < x {
        hi
    } else {
        x
    }
}
