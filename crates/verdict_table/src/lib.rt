// The table of verdicts. No code: sheets with their verdicts in specs/, and one proof by computation.
#![tactic(auto)]
