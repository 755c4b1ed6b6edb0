// The record of an object.
ghost use Rattle.std.specs.Prelude.{◌≡◌, ◌≤◌, length};
ghost use Rattle.rules.specs.Limits.{max_nested};
ghost use Rattle.records.specs.Records.{record_read, object_read, nested_view, nested_of, circle_read, circle_of, slider_read, slider_of, spinner_read, spinner_of, object_of};
ghost use Rattle.records.specs.Marks.{word_of};

use crate::fields;
use crate::hit_object::{HitObject, HitObjectKind, Slider, Spinner};
use crate::mark::Mark;
use numbers::words::word_at;
use rules::refusal::Rule;

// The highest item before a list's last, a repeat.
const HIGHEST_INSIDE: u16 = 1;

// The last item of a list, and no other.
const TAIL: u8 = 2;

// No test in the loop and counters of 16 bits, so that the compiler takes many items at a time. An item above 1 leaves a bit in `high`;
// without one, an item is its own count of repeats.
#[tactic(auto, using(crate::proofs::Nested::nested_lists, std::proofs::lemmas::List::take_all))]
fn count_nested(items: &[u8]) -> Option<Slider>
    requires { length items.now ≤ max_nested }
    ensures { result ≡ nested_view (nested_of items.now) }
{
    let (tail, inside) = items.split_last()?;
    let mut ones: u16 = 0;
    let mut high: u16 = 0;
    for &item in inside {
        let item = u16::from(item);
        ones += item & 1;
        high |= item;
    }
    if HIGHEST_INSIDE < high || *tail != TAIL {
        return None;
    }
    let repeats = u64::from(ones);
    let ticks = inside.len() as u64 - repeats;
    Some(Slider { repeats, ticks })
}

// The start of a circle.
#[tactic(auto, using(rules::proofs::Steps::steps), unfolding(crate::specs::Records::circle_of))]
pub fn read_circle(r: &[u8]) -> Result<f64, Rule>
    ensures { circle_read result ≡ record_read (circle_of r.now) }
{
    if r.len() < HitObject::CIRCLE_SIZE {
        return Err(Rule::Cut);
    }
    fields::time_at(r, 2).ok_or(Rule::Range)
}

// The start of a slider, its items and the size of its record.
#[tactic(auto, using(rules::proofs::Steps::steps), unfolding(crate::specs::Records::slider_of))]
pub fn read_slider(r: &[u8]) -> Result<(f64, Slider, usize), Rule>
    ensures { slider_read result ≡ record_read (slider_of r.now) }
{
    if r.len() < HitObject::SLIDER_SIZE {
        return Err(Rule::Cut);
    }
    let start_time = fields::time_at(r, 2).ok_or(Rule::Range)?;
    let count = word_at(r, 10, 2);
    if Slider::MAX_NESTED < count {
        return Err(Rule::Count);
    }
    let end = HitObject::SLIDER_SIZE + count as usize;
    if r.len() < end {
        return Err(Rule::Cut);
    }
    let slider = count_nested(&r[HitObject::SLIDER_SIZE..end]).ok_or(Rule::Nested)?;
    Ok((start_time, slider, end))
}

#[tactic(auto, using(rules::proofs::Steps::steps), unfolding(crate::specs::Records::spinner_of))]
pub fn read_spinner(r: &[u8]) -> Result<(f64, Spinner), Rule>
    ensures { spinner_read result ≡ record_read (spinner_of r.now) }
{
    if r.len() < HitObject::SPINNER_SIZE {
        return Err(Rule::Cut);
    }
    let start_time = fields::time_at(r, 2).ok_or(Rule::Range)?;
    let duration = fields::duration_at(r, 10).ok_or(Rule::Range)?;
    Ok((start_time, Spinner { duration }))
}

// The object of a mark's kind and the size of its record; a mark of no object is refused as unknown. Into each of its callers, so that an edit makes
// no call for it.
#[tactic(auto, unfolding(crate::specs::Records::object_of))]
#[inline(always)]
pub fn read_kind(r: &[u8], mark: Mark) -> Result<(HitObject, usize), Rule>
    ensures { object_read result ≡ record_read (object_of r.now (word_of mark)) }
{
    let (start_time, kind, size) = match mark {
        Mark::Circle => (
            read_circle(r)?,
            HitObjectKind::Circle,
            HitObject::CIRCLE_SIZE,
        ),
        Mark::Slider => {
            let (start_time, slider, size) = read_slider(r)?;
            (start_time, HitObjectKind::Slider(slider), size)
        }
        Mark::Spinner => {
            let (start_time, spinner) = read_spinner(r)?;
            (
                start_time,
                HitObjectKind::Spinner(spinner),
                HitObject::SPINNER_SIZE,
            )
        }
        Mark::Header | Mark::Break | Mark::Play => {
            return Err(Rule::Mark);
        }
    };
    Ok((HitObject { start_time, kind }, size))
}
