// What the check finds in the sheet of a text: definitions and theory, no code.
#![tactic(auto)]
