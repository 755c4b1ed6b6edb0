// The demands on the engine, as theorems: proofs/Demands.antt is the counterpart of docs/DEMANDS.md.

#![tactic(auto)]
