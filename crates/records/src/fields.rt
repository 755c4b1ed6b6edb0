// The fields of a record: numbers, and floats, each held to the range of its rule.
ghost use Rattle.std.specs.Prelude.{◌≡◌};
ghost use Rattle.numbers.specs.Words.{word_at};
ghost use Rattle.records.specs.Fields.{within, is_time, is_duration, is_rate, is_setting, time_of, duration_of, rate_of, setting_of};

use numbers::words::word_at;
use std::num::{f32_from_bits_with_nan, f64_from_bits_with_nan};

// Milliseconds, from the negative of this on.
pub const TIME_LIMIT: f64 = 8000000.0;

// Its bits without the sign, which a shift drops with fewer instructions than a mask. So a larger size has larger bits, and an infinity and a NaN have
// larger ones than any number.
const TIME_LIMIT_BITS: u64 = 0x415e_8480_0000_0000 << 1;

pub const DURATION_LIMIT: f64 = 3600000.0;

pub const RATE_LIMIT: f64 = 100.0;

pub const SETTING_LIMIT: f32 = 12.0;

// From `low` to `high`, a NaN in no range. Two comparisons: std's `contains` orders floats by `partial_cmp`, which takes more instructions.
pub fn is_within(x: f64, low: f64, high: f64) -> bool
    ensures { result ≡ within low high x }
{
    (x >= low) & (x <= high)
}

pub fn is_time(x: f64) -> bool
    ensures { result ≡ is_time x }
{
    is_within(x, -TIME_LIMIT, TIME_LIMIT)
}

fn is_duration(x: f64) -> bool
    ensures { result ≡ is_duration x }
{
    is_within(x, 0.0, DURATION_LIMIT)
}

// Its lower end is open, so that `is_within` does not say it.
pub fn is_rate(x: f64) -> bool
    ensures { result ≡ is_rate x }
{
    (x > 0.0) & (x <= RATE_LIMIT)
}

// As `is_within`, of an f32: to widen it first takes 4 more instructions.
pub fn is_setting(x: f32) -> bool
    ensures { result ≡ is_setting x }
{
    (x >= 0.0) & (x <= SETTING_LIMIT)
}

pub(crate) fn u16_at(r: &[u8], at: usize) -> u16
    ensures { result ≡ word_at r.now at 2 }
{
    word_at(r, at, 2) as u16
}

pub(crate) fn u32_at(r: &[u8], at: usize) -> u32
    ensures { result ≡ word_at r.now at 4 }
{
    word_at(r, at, 4) as u32
}

pub fn time_at(r: &[u8], at: usize) -> Option<f64>
    ensures { result ≡ time_of (word_at r.now at 8) }
{
    let bits = word_at(r, at, 8);
    if TIME_LIMIT_BITS < bits << 1 {
        None
    } else {
        Some(f64::from_bits(bits))
    }
}

// The bits by std's function for any, since `f64::from_bits` is not defined at a NaN. So in the two below, which differ in the test: as a closure it
// would take a contract of its own, where each is two lines.
pub fn duration_at(r: &[u8], at: usize) -> Option<f64>
    ensures { result ≡ duration_of (word_at r.now at 8) }
{
    let x = f64_from_bits_with_nan(word_at(r, at, 8));
    is_duration(x).then_some(x)
}

pub fn rate_at(r: &[u8], at: usize) -> Option<f64>
    ensures { result ≡ rate_of (word_at r.now at 8) }
{
    let x = f64_from_bits_with_nan(word_at(r, at, 8));
    is_rate(x).then_some(x)
}

pub fn setting_at(r: &[u8], at: usize) -> Option<f32>
    ensures { result ≡ setting_of (word_at r.now at 4) }
{
    let x = f32_from_bits_with_nan(u32_at(r, at));
    is_setting(x).then_some(x)
}
