// Upper bounds of sizes that limit one another, lowered in rounds (document 000, 4.2). The
// definitions stand in specs/Limits, the words of the laws in Notions, the laws in Laws, with their
// proofs in proofs/Laws: the rounds end in the greatest solution, or no solution is above the lower
// bounds. No code.

#![tactic(auto)]
