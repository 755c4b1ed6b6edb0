// The square root of an f64, rounded once, and the power 2.5 that is made of it.
#![tactic(auto)]

ghost use Rattle.std.specs.Prelude.{◌≡◌, ℕ, ◌+◌, ◌*◌, ◌^◌, ◌<◌, ◌≤◌};
ghost use Rattle.square_root.specs.Roots.{isqrt, rooted, root_of, power_of};

use numbers::bits::{Parts, Significand, split};
use numbers::rounding::cut;
use std::marker::Model;
use std::num::{f64_from_bits_with_nan, nearest_u64_to_f64};

// The whole root of a number, and what its square leaves of the number: at most twice the root, or the root would be higher. Contracts see the number.
#[derive(Drop)]
struct WholeRoot {
    root: u64,
    remainder: u64,
}

impl Model for WholeRoot {
    ghost Value = { ℕ };

    ghost view = { λ r. r.root * r.root + r.remainder };

    ghost invariant = { λ r. r.remainder ≤ r.root * 2 };
}

impl WholeRoot {
    fn root(self) -> u64
        ensures { result ≡ isqrt self }
    {
        self.root
    }

    // One more binary digit of the root, from the next two digits of the number.
    fn next_digit(self, pair: u64) -> WholeRoot
        requires { (self < 2 ^ 120) × (pair < 4) }
        ensures { result ≡ self * 4 + pair }
    {
        let remainder = self.remainder * 4 + pair;
        let trial = self.root * 4 + 1;
        if trial <= remainder {
            WholeRoot {
                root: self.root * 2 + 1,
                remainder: remainder - trial,
            }
        } else {
            WholeRoot {
                root: self.root * 2,
                remainder,
            }
        }
    }

    // More digits x of the root h by one division, from the number's next digits, as (h * p + x)² is h² * p² + h * 2 * x * p + x². The quotient
    // leaves out x², which is at most p² and so at most h * 2 * p: the last digit is right, or one too high.
    fn more_digits(self, p: u64, upper: u64, lower: u64) -> WholeRoot
        requires { (self < 2 ^ 54) × (p ≤ isqrt self * 2) × (p ≤ 2 ^ 27) × (upper < p) × (lower < p) }
        ensures { result ≡ (self * p + upper) * p + lower }
    {
        let twice = self.root * 2;
        let dividend = self.remainder * p + upper;
        let digits = dividend / twice;
        let left = dividend % twice * p + lower;
        let root = self.root * p + digits;
        let square = digits * digits;
        if square <= left {
            return WholeRoot {
                root,
                remainder: left - square,
            };
        }
        WholeRoot {
            root: root - 1,
            remainder: left + root * 2 - 1 - square,
        }
    }
}

// The whole root of m, from two digits of m in each turn.
fn quarter_root(m: u64) -> WholeRoot
    requires { m < 2 ^ 28 }
    ensures { result ≡ m }
{
    let mut root = WholeRoot {
        root: 0,
        remainder: 0,
    };
    for i in (0..14u64).rev() {
        root = root.next_digit((m >> (2 * i)) % 4);
    }
    root
}

// Heron's rule: of a relative error e of y as the root of t about e² / 2 is left.
fn heron(t: f64, y: f64) -> f64 {
    0.5 * (y + t / y)
}

// A number of 53 or 54 binary digits whose root is taken.
#[derive(Clone, Copy)]
struct Radicand {
    m: u64,
    ghost long: { 2 ^ 52 ≤ m },
    ghost short: { m < 2 ^ 54 },
}

impl Radicand {
    // The whole root of m: 14 digits by turns, the other 13 by a division.
    fn half_root_by_digits(self) -> WholeRoot
        ensures { result ≡ self.m }
    {
        quarter_root(self.m >> 26).more_digits(0x2000, (self.m >> 13) % 0x2000, self.m % 0x2000)
    }

    // A guess at the whole root of m. Nothing leans on it but speed: turns that depend on the digits cost more, as no processor foresees them.
    fn guess(self) -> u64
        ensures { result < 2 ^ 31 }
    {
        let t = nearest_u64_to_f64(self.m) / 18014398509481984.0;
        let parabola = 0.2593 + t * (1.052 - t * 0.3163);
        cut(heron(t, heron(t, parabola)) * 134217728.0)
    }

    // The whole root of m: the guess, where it is right.
    fn half_root(self) -> WholeRoot
        ensures { result ≡ self.m }
    {
        let root = self.guess();
        let square = root * root;
        if square <= self.m {
            let remainder = self.m - square;
            if remainder <= root * 2 {
                return WholeRoot { root, remainder };
            }
        }
        self.half_root_by_digits()
    }

    // The whole root of m * 2 ^ 54, a number of up to 108 digits, in 64-bit words.
    fn whole_root(self) -> WholeRoot
        ensures { result ≡ self.m * 2 ^ 54 }
    {
        self.half_root().more_digits(0x800_0000, 0, 0)
    }
}

// A number significand * 2 ^ exponent, with 53 digits in the significand.
#[derive(Clone, Copy)]
struct Normal {
    significand: Significand,
    exponent: u64,
    ghost long: { 2 ^ 52 ≤ significand.digits },
    ghost in_range: { exponent < 2110 },
}

impl Normal {
    // The exponent is raised by 64 first, so that it stays above 0 for a significand of few digits.
    fn new(significand: Significand, exponent: u64) -> Self
        requires { (0 < significand.digits) × (exponent < 2046) }
        ensures { result.significand.digits * 2 ^ result.exponent ≡ significand.digits * 2 ^ (exponent + 64) }
    {
        let shift = 52 - u64::from(significand.digits.ilog2());
        Normal {
            significand: Significand {
                digits: significand.digits << shift,
            },
            exponent: exponent + 64 - shift,
        }
    }

    // √(significand * 2 ^ exponent / 2 ^ 1138). The whole root has 54 digits: the last one rounds, and there is no tie.
    fn root(self) -> f64
        ensures { result ≡ rooted (self.significand.digits * 2 ^ self.exponent * 2 ^ 62) }
    {
        let odd = self.exponent % 2;
        let half = self.exponent / 2;
        let radicand = Radicand {
            m: self.significand.digits << odd,
        };
        let digits = (radicand.whole_root().root() + 1) / 2;
        f64_from_bits_with_nan(((half + 479) << 52) + digits)
    }
}

// The f64 nearest to the exact square root.
pub fn root(v: f64) -> f64
    ensures { result ≡ root_of v }
{
    match split(v) {
        Parts::NotANumber => v,
        Parts::Infinite { negative } => if negative { 0.0 / 0.0 } else { v },
        Parts::Finite {
            negative,
            significand,
            exponent,
        } => {
            if significand == 0 {
                return v;
            }
            if negative {
                return 0.0 / 0.0;
            }
            let significand = Significand {
                digits: significand,
            };
            Normal::new(significand, exponent).root()
        }
    }
}

// The stand-in for Rust's `powf(v, 2.5)`.
#[tactic(auto, unfolding(crate::specs::Roots::power_of))]
pub fn powf_2_5(v: f64) -> f64
    ensures { result ≡ power_of v }
{
    (v * v) * root(v)
}
