// The objects of a map, one after the other: each steps the running state.
ghost use Rattle.std.specs.Prelude.{◌≡◌, ◌+◌, ◌-◌, ◌≤◌, ◌<◌, ◌^◌, length, Bool, true, false};
ghost use Rattle.rules.specs.Limits.{max_objects, max_nested};
ghost use Rattle.records.specs.Objects.{spinner as spinnerKind};
ghost use Rattle.simulator.specs.Hits.{hits_of};
ghost use Rattle.simulator.specs.Walk.{walk};
ghost use Rattle.simulator.specs.Limits.{Within, Counted, nested_count};
ghost use Rattle.records.specs.Records.{circle_of, slider_of, spinner_of};
ghost use Rattle.map_reader.specs.Objects.{hit_as, objects_at, Room, Small, next_behind, stepped_by, next_of, ran_of};

use numbers::words::word_at;
use records::hit_object::{HitObject, HitObjectKind, Spinner};
use records::{mark, object_record};
use rules::refusal::{Refusal, Rule};
use simulator::legacy_score::NestedScorePerObject;
use simulator::legacy_score_simulator::OsuLegacyScoreSimulator;

// The running state behind some objects, how many they are, and where the next record begins.
#[derive(Clone, Copy)]
pub struct Objects {
    pub at: usize,
    pub score: OsuLegacyScoreSimulator,
    pub nested: NestedScorePerObject,
    pub last_start: f64,
}

// What a step comes to. With an Option within a Result, or a Result whose error is an Option, the loop takes 2 to 4% more instructions. Behind OverBonus
// only the offset is needed, so that no former state is kept beside the new one.
#[derive(Clone, Copy)]
pub enum Stepped {
    Next(Objects),
    Stop,
    OverBonus,
}

// A spinner's step; `walks` says whether its half spins are walked.
pub trait SpinnerStep {
    ghost walks: { Bool };

    fn step(score: OsuLegacyScoreSimulator, spinner: Spinner) -> OsuLegacyScoreSimulator
        requires { Within (max_objects - 1) score }
        ensures { result ≡ walk 1 score (hits_of (hit_as walks (spinnerKind spinner.duration))) };
}

// With the bonus of the half spins.
pub struct Walked;

impl SpinnerStep for Walked {
    ghost walks = { true };

    fn step(score: OsuLegacyScoreSimulator, spinner: Spinner) -> OsuLegacyScoreSimulator {
        score.spinner(spinner)
    }
}

// Without, as a circle's.
pub struct Unwalked;

impl SpinnerStep for Unwalked {
    ghost walks = { false };

    fn step(score: OsuLegacyScoreSimulator, _spinner: Spinner) -> OsuLegacyScoreSimulator {
        score.circle()
    }
}

impl Objects {
    #[tactic(auto, unfolding(numbers::proofs::Literals::of_bits, numbers::proofs::Literals::of_int))]
    pub fn new(at: usize) -> Self
        ensures { result ≡ objects_at at }
    {
        Objects {
            at,
            score: OsuLegacyScoreSimulator::new(),
            nested: NestedScorePerObject::new(),
            last_start: 0.0,
        }
    }

    // The state behind one object more, which is `size` bytes long.
    #[inline(always)]
    fn behind(self, object: HitObject, size: usize, score: OsuLegacyScoreSimulator) -> Stepped
        requires { Counted (max_objects - 1) self.nested × (nested_count object.kind ≤ max_nested) × (self.at + size < 2 ^ 64) }
        ensures { result ≡ next_behind self object size score }
    {
        Stepped::Next(Objects {
            at: self.at + size,
            score,
            nested: self.nested.process_next(object),
            last_start: object.start_time,
        })
    }

    // Three functions read the three kinds, so that each has the reading and the step of its own in one piece: one for all takes 3 to 4 times the
    // instructions. A trait over the kinds would be longer: four types, each with a reading and a step under contracts of its own, of which only a
    // spinner's step may be refused. Each asks for the room itself: a type that carries it would be made anew for each object, since the specs build
    // Objects.
    #[tactic(auto, using(crate::proofs::Stepping::step_read))]
    fn with_circle(self, r: &[u8]) -> Stepped
        requires { Room self × (self.at + length r.now < 2 ^ 64) }
        ensures { result ≡ stepped_by true self (circle_of r.now) }
    {
        let Ok(start_time) = object_record::read_circle(r) else {
            return Stepped::Stop;
        };
        let score = self.score.circle();
        let kind = HitObjectKind::Circle;
        self.behind(
            HitObject { start_time, kind },
            HitObject::CIRCLE_SIZE,
            score,
        )
    }

    #[tactic(auto, using(crate::proofs::Stepping::step_read, crate::proofs::Stepping::slider_few))]
    fn with_slider(self, r: &[u8]) -> Stepped
        requires { Room self × (self.at + length r.now < 2 ^ 64) }
        ensures { result ≡ stepped_by true self (slider_of r.now) }
    {
        let Ok((start_time, slider, size)) = object_record::read_slider(r) else {
            return Stepped::Stop;
        };
        let score = self.score.slider(slider);
        let kind = HitObjectKind::Slider(slider);
        self.behind(HitObject { start_time, kind }, size, score)
    }

    #[tactic(auto, using(crate::proofs::Stepping::step_read, crate::proofs::Stepping::walk_legacy))]
    fn with_spinner<S: SpinnerStep>(self, r: &[u8]) -> Stepped
        requires { Room self × (self.at + length r.now < 2 ^ 64) }
        ensures { result ≡ stepped_by S.walks self (spinner_of r.now) }
    {
        let Ok((start_time, spinner)) = object_record::read_spinner(r) else {
            return Stepped::Stop;
        };
        let score = S::step(self.score, spinner);
        if HitObject::MAX_BONUS < score.legacy_bonus_score.0 {
            return Stepped::OverBonus;
        }
        let kind = HitObjectKind::Spinner(spinner);
        self.behind(
            HitObject { start_time, kind },
            HitObject::SPINNER_SIZE,
            score,
        )
    }

    // The shortest object has the size of a circle.
    #[tactic(auto, using(map_file::proofs::Steps::rest_is, crate::proofs::Stepping::circle_either, crate::proofs::Stepping::slider_either), unfolding(crate::specs::Objects::next_of, records::specs::Records::object_of))]
    fn with_next<S: SpinnerStep>(self, s: &[u8]) -> Stepped
        requires { Room self × (self.at ≤ length s.now) }
        ensures { result ≡ next_of S.walks s.now self }
    {
        let at = self.at;
        if s.len() < at + HitObject::CIRCLE_SIZE {
            return Stepped::Stop;
        }
        let r = &s[at..];
        let mark = word_at(r, 0, 2);
        if mark == mark::CI {
            return self.with_circle(r);
        }
        if mark == mark::SL {
            return self.with_slider(r);
        }
        if mark == mark::SP {
            return self.with_spinner::<S>(r);
        }
        Stepped::Stop
    }
}

// Reads on until `limit` objects are read, or as far as there are objects, which the state counts. Where spinners are not walked, it has no bonus of
// theirs.
#[tactic(auto, using(crate::proofs::Running::running_less, crate::proofs::Running::running_over, crate::proofs::Running::running_stop, crate::proofs::Running::running_end))]
pub fn run<S: SpinnerStep>(s: &[u8], from: Objects, limit: u64) -> Result<Objects, Refusal>
    requires { Small s.now from × (limit ≤ max_objects) }
    ensures { result ≡ ran_of S.walks (limit - from.nested.object_count) s.now from }
{
    let mut state = from;
    while state.nested.object_count < limit {
        match state.with_next::<S>(s) {
            Stepped::Next(next) => {
                state = next;
            }
            Stepped::Stop => {
                return Ok(state);
            }
            Stepped::OverBonus => {
                return Err(Rule::Bonus.at(state.at));
            }
        }
    }
    Ok(state)
}
