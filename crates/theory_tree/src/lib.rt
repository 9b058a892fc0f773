// The tree as a value (document 01, section 3): its theory is in specs/ and proofs/, and has no code.
#![tactic(auto)]
