// The names and constants of a text: what each name may be, in text order. No code: definitions in specs/, theorems in proofs/.
#![tactic(auto)]
