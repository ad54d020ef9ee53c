// A text as a sheet: the records that it is translated to, and the expression that they say. No code: definitions in specs/, theorems in
// proofs/.
#![tactic(auto)]
