// Accuracy, and the estimates of how many notes a play missed. Every function is total; the differences of counts, which the Rust takes in u32,
// rest on rule 9 of document 01 and are 0 where it does not hold.
#![tactic(auto)]

pub mod calculator; // the combo-based estimate and the effective miss count
pub mod score_state; // accuracy
