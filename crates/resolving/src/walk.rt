// The walk over the tokens of a text.
use crate::numbering::NameNumbers;
use recognizer::machine::Machine;
use scoping::scopes::Scope;

// Between two tokens: where the machine stands, the names in scope, and the numbers of those that are declared.
#[derive(Drop)]
pub struct Walk<'a> {
    pub machine: Machine,
    pub scope: Scope<'a>,
    pub numbers: NameNumbers,
}
