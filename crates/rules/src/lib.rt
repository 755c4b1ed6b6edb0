// What every other crate cites of documents 01 and 02: their rules, with the numbers that callers get, and in specs their limits, each under one name.
#![tactic(auto)]

pub mod refusal; // the rules, and what a refused call answers
