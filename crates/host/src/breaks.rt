// The slider breaks of a play beside its values.
ghost use Rattle.std.specs.Prelude.{◌≡◌};
ghost use Rattle.host.specs.Breaks.{with_slider_breaks, added_to, answer_with};

use crate::answer::{HostAttributes, HostEstimates, PlayAnswer};
use play_state::Play;
use rules::refusal::Rule;
use slider_breaks::calculator::{SliderBreaks, SliderFactors, slider_breaks};
use slider_breaks::has_bad_factors;

// The fields of `PlayAnswer`, and the slider breaks: flat, as C has them.
#[repr(C)]
#[derive(Clone, Copy)]
pub struct BreaksAnswer {
    pub status: u8,
    pub offset: usize,
    pub attributes: HostAttributes,
    pub estimates: HostEstimates,
    pub slider_breaks: SliderBreaks,
}

fn with_slider_breaks(answer: PlayAnswer, slider_breaks: SliderBreaks) -> BreaksAnswer
    ensures { result ≡ with_slider_breaks answer slider_breaks }
{
    BreaksAnswer {
        status: answer.status,
        offset: answer.offset,
        attributes: answer.attributes,
        estimates: answer.estimates,
        slider_breaks,
    }
}

// What the factors add to the answer of the same call without them: nothing to a refusal. It starts from that answer, and not from the engine's, so
// that the engine's call has one caller and is compiled into it (docs/DECISIONS.md has how much slower two are).
#[tactic(auto, unfolding(crate::specs::Breaks::added_to, numbers::proofs::Literals::of_bits, numbers::proofs::Literals::of_int))]
pub fn added_by(
    play: Play,
    factors: SliderFactors,
    answer: PlayAnswer,
) -> Result<SliderBreaks, Rule>
    ensures { result ≡ added_to play factors answer }
{
    if answer.status != 0 {
        return Ok(SliderBreaks::default());
    }
    if has_bad_factors(factors) {
        return Err(Rule::Factor);
    }
    let highest = answer.attributes.max_combo;
    let effective = answer.estimates.effective;
    Ok(slider_breaks(play, highest, effective, factors))
}

// What a call with factors answers: the refusal of the same call without them, then 14, then the values.
#[tactic(auto, unfolding(numbers::proofs::Literals::of_bits, numbers::proofs::Literals::of_int))]
pub fn answer_with(answer: PlayAnswer, added: Result<SliderBreaks, Rule>) -> BreaksAnswer
    ensures { result ≡ answer_with answer added }
{
    match added {
        Err(rule) => with_slider_breaks(rule.at(0).into(), SliderBreaks::default()),
        Ok(b) => with_slider_breaks(answer, b),
    }
}
