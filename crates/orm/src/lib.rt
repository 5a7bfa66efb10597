// Document 01 as definitions, a file of specs/ for each of its subjects and in its order, each
// definition with the sentence that it states. WellFormed and Meaning say the same of diagrams and
// populations as propositions. proofs/Cases holds theorems by computation, the marked cases
// first; proofs/Laws the laws of single definitions. What only these speak of stands in Sample,
// Ranges, Climbs and Inside. No code.

#![tactic(auto)]
