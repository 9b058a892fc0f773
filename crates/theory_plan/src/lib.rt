// What an insertion or a stamp plans on a well-formed tree, and what its leaf will hold (document 01, sections 3 and 5):
// its laws are in proofs/, and it has no code.
#![tactic(auto)]
