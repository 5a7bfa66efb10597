// The rounds are sound: the sizes of every valid population of a well-formed diagram are a solution
// of its limits, so that no round brings an upper bound below them. The statements stand in
// specs/Laws. No code.

#![tactic(auto)]
