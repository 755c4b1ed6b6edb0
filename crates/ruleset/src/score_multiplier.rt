// The length of a map without its breaks, and the multiplier from it.
ghost use Rattle.std.specs.Prelude.{◌≡◌, ◌+◌, ◌*◌, ◌^◌, ◌<◌, ◌≤◌, List, length};
ghost use Rattle.std.specs.Int.Signed.{mag};
ghost use Rattle.rules.specs.Limits.{max_breaks, header_size, break_size};
ghost use Rattle.std.specs.Iterator.{AlwaysYields, UpTo};
ghost use Rattle.records.specs.declared.beatmap.BreakPeriod.{BreakPeriod};
ghost use Rattle.ruleset.specs.Drain.{length_of, breaks_length, breaks_of, break_at, breaks_in, drain_of};
ghost use Rattle.ruleset.specs.Stars.{SettingsIn, multiplier_of};

use crate::ruleset_ext::calculate_difficulty_peppy_stars;
use numbers::rounding::round_ties_even_i32;
use numbers::words::word_at;
use records::beatmap::{BreakCount, BreakPeriod, Settings};
use std::num::f64_from_bits_with_nan;

// The length of a map's breaks in milliseconds, below 0 where they end before their starts.
#[derive(Clone, Copy)]
pub struct BreaksLen {
    pub milliseconds: i64,
    ghost short: { mag milliseconds ≤ 2 ^ 41 },
}

// The seconds from the first to the last start, without the breaks.
#[derive(Clone, Copy)]
pub struct DrainLen {
    pub seconds: i64,
    ghost short: { mag seconds < 2 ^ 42 },
}

// What ScoreV1 multiplies the points of a combo by: the difficulty stars.
#[derive(Clone, Copy)]
pub struct Multiplier {
    pub value: u64,
    ghost small: { value ≤ 7 },
}

// The milliseconds from one time to another, each rounded to a whole number.
pub fn length_between(start: f64, end: f64) -> i64
    ensures { (result ≡ length_of start end) × (mag result < 2 ^ 33) }
{
    i64::from(round_ties_even_i32(end)) - i64::from(round_ties_even_i32(start))
}

// The length of breaks, until the first whose end is not before the last start.
fn len_before<I: Iterator<Item = BreakPeriod> + Drop>(breaks: I, last_start: f64) -> BreaksLen
    requires { I.can_next breaks × UpTo (I.remaining breaks) max_breaks }
    ensures { (periods : List BreakPeriod) → AlwaysYields I.next_gives (λ b. b) breaks periods → result.milliseconds ≡ breaks_length last_start periods }
{
    let mut milliseconds: i64 = 0;
    for period in breaks {
        if period.end_time < last_start {
            milliseconds += length_between(period.start_time, period.end_time);
        } else {
            return BreaksLen { milliseconds };
        }
    }
    BreaksLen { milliseconds }
}

// The length of breaks that are given as start, end, start, end; an odd number at the end is left out.
pub fn break_len(breaks: &[f64], last_start: f64) -> BreaksLen
    requires { length breaks.now ≤ 2 * max_breaks }
    ensures { result.milliseconds ≡ breaks_length last_start (breaks_of breaks.now) }
{
    let periods = breaks.chunks_exact(2).map(|pair| BreakPeriod {
        start_time: pair[0],
        end_time: pair[1],
    });
    len_before(periods, last_start)
}

// The break at a place of a map file, whose records follow the header.
fn break_at(s: &[u8], place: u64) -> BreakPeriod
    requires { place < max_breaks }
    ensures { result ≡ break_at s.now (header_size + break_size * place) }
{
    let at = Settings::SIZE + place as usize * BreakPeriod::SIZE;
    BreakPeriod {
        start_time: f64_from_bits_with_nan(word_at(s, at + 2, 8)),
        end_time: f64_from_bits_with_nan(word_at(s, at + 10, 8)),
    }
}

// The length of the breaks of a map file before the last start.
pub fn break_len_in(s: &[u8], breaks: BreakCount, last_start: f64) -> BreaksLen
    ensures { result.milliseconds ≡ breaks_length last_start (breaks_in s.now breaks.count) }
{
    len_before(
        (0..breaks.count).map(|place| break_at(s, place)),
        last_start,
    )
}

// The seconds from the first to the last start, without the breaks, cut toward zero.
pub fn drain_len(first_start: f64, last_start: f64, breaks: BreaksLen) -> DrainLen
    ensures { result.seconds ≡ drain_of first_start last_start breaks.milliseconds }
{
    DrainLen {
        seconds: (length_between(first_start, last_start) - breaks.milliseconds) / 1000,
    }
}

// Of any count and drain that a double holds, and so of each `DrainLen`.
#[tactic(auto, using(crate::proofs::Stars::seven, crate::proofs::Stars::stars_is))]
pub fn score_multiplier(settings: Settings, object_count: u64, drain_len: i64) -> Multiplier
    requires { SettingsIn settings × (object_count ≤ 2 ^ 53) × (mag drain_len < 2 ^ 53) }
    ensures { result.value ≡ multiplier_of settings object_count drain_len }
{
    Multiplier {
        value: calculate_difficulty_peppy_stars(settings, object_count, drain_len) as u64,
    }
}
