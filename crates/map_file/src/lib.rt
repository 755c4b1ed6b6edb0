// The records of a map file in their order: their counts and limits, and all checks of one record behind others.
#![tactic(auto)]

pub mod file; // the order of the records, the checks of one
