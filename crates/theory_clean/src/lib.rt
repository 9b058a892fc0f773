// What remove and vacuum do to a well-formed tree (document 01, sections 3 and 5): the rows of its leaves change in place, and
// it stays well-formed. The theorems are in proofs/, and there is no code.
#![tactic(auto)]
