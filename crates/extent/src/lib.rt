// How large what document 01 defines can get: the number of cells (specs/Cells) and the length of
// the program's output (specs/Output). No code.

#![tactic(auto)]
