// The segment tree of entries in a lent slice of words: entry e above 2e and 2e + 1, the own entries of the places at its bottom.
#![tactic(auto)]

pub mod build;
pub mod combine;
pub mod first;
pub mod put;
pub mod size;
