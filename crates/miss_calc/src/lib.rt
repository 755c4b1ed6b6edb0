// How many misses a ScoreV1 score tells of, and the counts of a play that the estimates share.
#![tactic(auto)]

pub mod counts; // how many hits a play has
pub mod legacy_score_miss_calc; // the score-based estimate
