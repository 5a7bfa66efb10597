// Demand 3: what reading, check and populate promise together, as one statement (specs/Guarantee)
// with one proof (proofs/Guarantee). No code.

#![tactic(auto)]
