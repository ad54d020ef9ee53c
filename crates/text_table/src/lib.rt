// A table of texts with what the translation gives. No code: the rows in specs/, the proof by computation in proofs/.
#![tactic(auto)]
