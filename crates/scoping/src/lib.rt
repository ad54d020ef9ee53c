// What a token of a legal text does to the names in scope, and whether a name is declared once and before its use, in scope, and of the right
// kind.
//
// Each token is met in a state of the grammar's machine, and the state with the class of the token's first
// byte says everything: the next state (the tables of `recognizer`), which rule a name keeps to and what the token does to the names in scope
// (`tables`, from the rows of `state_rules` in `name_rules`). `resolving` finds the tokens by `lexer`; a `Scope` holds the names (`scopes`),
// and has a method for a name and one for any other token, each with what the scope is afterwards (`notes`).
#![tactic(auto)]

pub mod notes;
pub mod scopes;
pub mod tables;
