// The rounds are complete: whatever solution of its limits is taken for the sizes of a well-formed
// diagram's sets, the population made from it meets the constraints and has just these sizes. The
// statements stand in specs/Laws. No code.

#![tactic(auto)]
