// Floats to whole numbers, to the nearest with ties to the even one and cut toward zero.
ghost use Rattle.std.specs.Prelude.{◌≡◌, ◌*◌, ◌^◌, ◌<◌, ◌≤◌, min};
ghost use Rattle.std.specs.Float.Ieee as Ieee;
ghost use Rattle.std.specs.Float.Ieee.Nearest.{closest};
ghost use Rattle.numbers.specs.Rounding.{round_ties_even_i32, saturated};

use super::bits::{Parts, Significand, split};

const I32_MAX: u64 = 2147483647;

// 2 ^ 31, the first whole number that no i32 holds.
const I32_LIMIT: u64 = I32_MAX + 1;

// 2 ^ 30: up to this size x is rounded by a sum.
const NEAR: f64 = 1073741824.0;

// 3 * 2 ^ 51. Near it the floats are the whole numbers, so a sum with it is rounded to one, and a tie to an even one.
const WHOLES: f64 = 6755399441055744.0;

const WHOLES_BITS: i64 = 0x4338_0000_0000_0000;

// The whole number nearest to significand / 2 ^ shift, the even one of two that are as near.
fn shift_ties_even(significand: Significand, shift: u64) -> u64
    ensures { result ≡ closest significand.digits (2 ^ shift) }
{
    if shift >= 54 {
        return 0;
    }
    let unit = 1u64 << shift;
    let q = significand.digits >> shift;
    let rest = significand.digits & (unit - 1);
    if rest * 2 < unit {
        return q;
    }
    if unit < rest * 2 {
        return q + 1;
    }
    q + q % 2
}

// The whole number nearest to significand * 2 ^ exponent / 2 ^ 1074, at most 2 ^ 31: more makes no difference to an i32.
fn magnitude(significand: Significand, exponent: u64) -> u64
    requires { 0 < exponent → 2 ^ 52 ≤ significand.digits }
    ensures { result ≡ min (closest (significand.digits * 2 ^ exponent) (2 ^ 1074)) (2 ^ 31) }
{
    if exponent >= 1074 {
        return I32_LIMIT;
    }
    shift_ties_even(significand, 1074 - exponent).min(I32_LIMIT)
}

fn saturate_i32(negative: bool, n: u64) -> i32
    ensures { result ≡ saturated negative n }
{
    if negative {
        -(n.min(I32_LIMIT) as i64) as i32
    } else {
        n.min(I32_MAX) as i32
    }
}

// By the parts of x, for an x of any size.
fn round_parts(x: f64) -> i32
    ensures { result ≡ round_ties_even_i32 x }
{
    match split(x) {
        Parts::NotANumber => 0,
        Parts::Infinite { negative } => saturate_i32(negative, I32_LIMIT),
        Parts::Finite {
            negative,
            significand,
            exponent,
        } => {
            let significand = Significand {
                digits: significand,
            };
            saturate_i32(negative, magnitude(significand, exponent))
        }
    }
}

// Rust's `x.round_ties_even() as i32`. The sum is x rounded, and its bits are as many above those of WHOLES.
pub fn round_ties_even_i32(x: f64) -> i32
    ensures { result ≡ round_ties_even_i32 x }
{
    if (x >= -NEAR) & (x <= NEAR) {
        (f64::to_bits(x + WHOLES) as i64 - WHOLES_BITS) as i32
    } else {
        round_parts(x)
    }
}

// Rust's `x as i32` for an x that is not negative, and 0 for any other: x without its fraction, at most 2 ^ 31 - 1.
// The sum is x rounded, as above; where that is above x, it is one too many.
pub fn cut(x: f64) -> u64
    ensures { (result ≡ Ieee.to_unsigned 31 x) × (result < 2 ^ 31) }
{
    if x > 0.0 {
        if x < 2147483648.0 {
            let sum = x + WHOLES;
            let n = f64::to_bits(sum) - WHOLES_BITS as u64;
            if x < sum - WHOLES { n - 1 } else { n }
        } else {
            I32_MAX
        }
    } else {
        0
    }
}
