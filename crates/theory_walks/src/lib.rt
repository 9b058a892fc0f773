// What the reading walks answer on a well-formed tree (document 01, sections 3 to 5): the descent, the walk along the
// chain, lookup, the conflict test and the climb. The theorems are in proofs/, and there is no code.
#![tactic(auto)]
