// A leaf that divides, and all that follows above it, leaves a well-formed tree (document 01, sections 3 and 5): its laws
// are in proofs/, and it has no code.
#![tactic(auto)]
