// One record of the map file, as the code keeps it, and what reading it answers.
use crate::beatmap::{BreakPeriod, Settings};
use crate::hit_object::HitObject;
use play_state::Play;
use rules::refusal::Rule;

#[derive(Clone, Copy)]
pub enum Record {
    Header(Settings),
    Break(BreakPeriod),
    Object(HitObject),
    Play(Play),
}

// A record and its size in bytes.
pub type Read = Result<(Record, usize), Rule>;
