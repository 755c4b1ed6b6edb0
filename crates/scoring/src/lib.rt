// Scores of a map file and of its plays, with the checks that a play meets on its map.
#![tactic(auto)]

pub mod plays; // the plays of a file, each checked on the map
pub mod score; // the calls
