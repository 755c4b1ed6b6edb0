// The map of a file: its settings, breaks and objects, read in one pass, and the attributes of its first objects.
#![tactic(auto)]

pub mod attributes; // the attributes of the passed objects
pub mod map; // where a map ends, and what stands in it
pub mod objects; // the running state behind a map's first objects
