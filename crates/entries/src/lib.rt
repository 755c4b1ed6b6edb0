// The entries of the board: what a run of objects adds up to, a word for each sum.
#![tactic(auto)]

pub mod checked;
pub mod entry;
pub mod values;
pub mod words;
