// The multiplier of ScoreV1: the base scores of hits, the length of a map without its breaks, and the difficulty stars.
#![tactic(auto)]

pub mod hit_result;
pub mod ruleset_ext;
pub mod score_multiplier;
