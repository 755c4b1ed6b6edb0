// ScoreV1 of a map's first objects: the points and the combo of every hit, and the attributes that the estimates take.
#![tactic(auto)]

pub mod attributes; // what goes to the estimates
pub mod legacy_score; // the nested score
pub mod legacy_score_simulator; // the running state
