// The even enumeration of tuples of members of some sets (document 000, 4.3, with document 01's
// shift). The definitions stand in specs/Pairing and Multiples, the words of the laws in Notions and
// Divisors, the laws in proofs/Laws, over sizes in general: tuples differ, and each set's members are
// spread evenly over them. No code.

#![tactic(auto)]
