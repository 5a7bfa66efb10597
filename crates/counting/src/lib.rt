// Lists and their members: how many are different, how often one occurs, how many numbers pass a
// test, and what bounds these counts. Definitions stand in specs/Lists, Totals and Distinct, the
// vocabulary of the laws in Terms and Index, the laws in proofs/Laws. No code.

#![tactic(auto)]
