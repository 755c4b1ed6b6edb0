// Numbers for the other crates: little-endian words, the parts of floats, Rust's max, min and clamp, its roundings to whole numbers.
// Every public function is total, and its contract names the definition of specs/ that its result equals.
#![tactic(auto)]

pub mod bits;
pub mod minmax;
pub mod rounding;
pub mod words;
