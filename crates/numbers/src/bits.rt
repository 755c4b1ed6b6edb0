// Floats taken apart by their bits, for those that compute with them as whole numbers. The bits come from std's function for any float, since
// `f64::to_bits` is not defined at a NaN.
ghost use Rattle.std.specs.Prelude.{◌≡◌, ◌^◌, ◌<◌};
ghost use Rattle.numbers.specs.Bits.{parts_of};

use std::num::f64_to_bits_with_nan;

// A float taken apart. A finite one is significand * 2 ^ exponent of the smallest value, 2 ^ -1074: the significand has 53 digits, or the exponent is 0.
#[derive(Clone, Copy)]
pub enum Parts {
    NotANumber,
    Infinite {
        negative: bool,
    },
    Finite {
        negative: bool,
        significand: u64,
        exponent: u64,
    },
}

// The significand of a finite float, for what computes with it. Not in `Parts`, since their definition would then hold a proof for each value.
#[derive(Clone, Copy)]
pub struct Significand {
    pub digits: u64,
    ghost short: { digits < 2 ^ 53 },
}

// The fields of the bits: the sign, the exponent's 11 bits, and the 52 digits below the leading one, which a field of 0 has not.
pub fn split(v: f64) -> Parts
    ensures { result ≡ parts_of v }
{
    let bits = f64_to_bits_with_nan(v);
    let negative = bits >> 63 != 0;
    let field = (bits >> 52) & 0x7ff;
    let digits = bits & 0xf_ffff_ffff_ffff;
    if field == 0 {
        return Parts::Finite {
            negative,
            significand: digits,
            exponent: 0,
        };
    }
    if field < 0x7ff {
        return Parts::Finite {
            negative,
            significand: digits | 0x10_0000_0000_0000,
            exponent: field - 1,
        };
    }
    if digits == 0 {
        Parts::Infinite { negative }
    } else {
        Parts::NotANumber
    }
}
