// What crosses to a host in C or Rust: numbers and #[repr(C)] structs by value, in place of the enums and nested structs of the engine.
#![tactic(auto)]

pub mod answer; // the values of a map and of a play
pub mod breaks; // the slider breaks of a play beside its values
pub mod map; // what a map file holds
pub mod play; // a play as a host gives it
pub mod status; // what a call that writes answers
