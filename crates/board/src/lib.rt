// The board of a map: built from its file, edited object by object, and read at any passed count in a few steps.
#![tactic(auto)]

pub mod edit; // another object at a place
pub mod place; // room for a map, and an entry and a start at a place
pub mod read; // a play on the first objects
pub mod search; // what a read finds of the first places
