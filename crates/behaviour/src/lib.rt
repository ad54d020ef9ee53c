// One cycle of a sheet: the value of its circuit and the sheet after it. Definitions in specs/, laws in proofs/.
#![tactic(auto)]
