// The language picoELLA: types, patterns, expressions and the static semantics, on an abstract tree. Definitions only, in specs/.
#![tactic(auto)]
