// What the calls mean (demands 1 and 3; document 01, sections 3 to 6): statements in specs/, their proofs in proofs/, no code.
#![tactic(auto)]
