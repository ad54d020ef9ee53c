// The meaning of a text over its names. No code: definitions in specs/, theorems in proofs/.
#![tactic(auto)]
