// The states behind some objects of a map, kept, so that any number of passed objects is a few steps from one of them. They have no bonus, so that no
// half spin is walked for them: a play is checked and its misses are estimated without.
#![tactic(auto)]

ghost use Rattle.std.specs.Prelude.{◌≡◌, ◌≤◌, ◌<◌, false};
ghost use Rattle.rules.specs.Limits.{max_objects};
ghost use Rattle.map_reader.specs.Objects.{Small};
ghost use Rattle.marks.specs.Marks.{stride_of, state_or, IsMap, MarksOf, passed_of, mark_before, StateBefore, attributes_from, scored_anew};

use map_reader::attributes::attributes_of;
use map_reader::map::{Map, objects_from};
use map_reader::objects::{Objects, SpinnerStep, Unwalked, Walked, run};
use play_score::{PlayScore, score_on};
use play_state::Play;
use rules::refusal::Rule;
use simulator::attributes::ScoreAttributes;

// As many as there may be, since the project takes no heap.
const MAX_MARKS: usize = 128;

// The i-th is behind i strides of objects.
#[derive(Clone, Copy)]
pub struct Marks {
    pub states: [Objects; MAX_MARKS],
}

// A file and its map.
#[derive(Clone, Copy)]
pub struct MapFile<'a> {
    pub bytes: &'a [u8],
    pub map: Map,
    ghost read: { ∥ IsMap bytes.now map ∥₁ },
}

// The objects from one mark to the next: few enough for MAX_MARKS marks.
fn stride_of(objects: u64) -> u64
    ensures { result ≡ stride_of objects }
{
    objects / MAX_MARKS as u64 + 1
}

// The state behind `count` objects, from one before it.
fn state_at<S: SpinnerStep>(s: &[u8], from: Objects, count: u64) -> Objects
    requires { Small s.now from × (count ≤ max_objects) }
    ensures { result ≡ state_or S.walks s.now from count }
{
    run::<S>(s, from, count).unwrap_or(from)
}

// How many of so many objects a play passed.
pub fn passed_of(play: Play, objects: u64) -> u64
    ensures { result ≡ passed_of objects play }
{
    u64::from(play.passed_objects).min(objects)
}

// The last mark that is not behind the objects that a play passed.
pub fn mark_before(objects: u64, play: Play) -> usize
    ensures { (result ≡ mark_before objects play) × (result < 128) }
{
    (passed_of(play, objects) / stride_of(objects)) as usize
}

impl MapFile<'_> {
    // A call, since in one piece with its caller the states stand a third time on the stack.
    #[inline(never)]
    pub fn marks(&self) -> Marks
        ensures { MarksOf self.now.bytes.now self.now.map result }
    {
        let map = self.map;
        let stride = stride_of(map.objects);
        let mut state = Objects::new(objects_from(map.breaks));
        let mut states = [state; MAX_MARKS];
        let count = (map.objects / stride) as usize + 1;
        // i is the number of the mark, from which its objects are counted.
        for i in 1..count {
            state = state_at::<Unwalked>(self.bytes, state, i as u64 * stride);
            states[i] = state;
        }
        Marks { states }
    }

    // The attributes of a play's passed objects, from a state before it.
    fn attributes_at<S: SpinnerStep>(&self, before: Objects, play: Play) -> ScoreAttributes
        requires { StateBefore S.walks self.now.bytes.now self.now.map play before }
        ensures { result ≡ attributes_from S.walks self.now.bytes.now self.now.map before play }
    {
        let map = self.map;
        let passed = state_at::<S>(self.bytes, before, passed_of(play, map.objects));
        attributes_of(self.bytes, Map { passed, ..map })
    }

    // The attributes of a play's passed objects without their bonus, from a state before it.
    pub fn attributes_from(&self, before: Objects, play: Play) -> ScoreAttributes
        requires { StateBefore false self.now.bytes.now self.now.map play before }
        ensures { result ≡ attributes_from false self.now.bytes.now self.now.map before play }
    {
        self.attributes_at::<Unwalked>(before, play)
    }

    // A play on the map, from its first object.
    pub fn score_anew(&self, play: Play) -> Result<PlayScore, Rule>
        ensures { result ≡ scored_anew self.now.bytes.now self.now.map play }
    {
        let map = self.map;
        let first = Objects::new(objects_from(map.breaks));
        score_on(play, self.attributes_at::<Walked>(first, play))
    }
}
