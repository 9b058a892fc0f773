// What the stores of the edits do to pages as values (document 01, sections 2 and 5): its laws are in proofs/,
// and it has no code.
#![tactic(auto)]
