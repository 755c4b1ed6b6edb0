// One record of document 01's map file: its fields and their ranges, and what it is refused for.
#![tactic(auto)]

pub mod beatmap; // settings and breaks
pub mod fields; // floats of a record and their ranges
pub mod hit_object; // circles, sliders, spinners
pub mod map_record; // the records of settings and breaks
pub mod mark; // which record it is
pub mod object_record; // the records of objects
pub mod play_record; // the record of a play
pub mod record; // what reading one record answers
