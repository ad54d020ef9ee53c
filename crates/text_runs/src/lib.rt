// A text translated by one call and run by another: the outputs are those of the text's meaning. No code: promises in specs/, theorems in
// proofs/.
#![tactic(auto)]
