// The meaning of picoELLA: one cycle, a run, the rules of the paper, and their laws. No code: definitions in specs/, theorems in proofs/.
#![tactic(auto)]
