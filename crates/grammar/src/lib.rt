// The grammar of a text, its abstract text, and the machine that reads it byte by byte. No code: definitions in specs/, theorems in proofs/.
#![tactic(auto)]
