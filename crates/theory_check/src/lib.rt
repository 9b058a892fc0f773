// The judgement of a tree (document 01, section 3) says yes exactly for a well-formed tree in the sense of crate
// `theory_tree`: the proofs are in proofs/, and there is no code.
#![tactic(auto)]
