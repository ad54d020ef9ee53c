// The names of a legal text: its first bad name, or where all are good the instructions that its tokens say.
//
// The text is walked token by token (`tokens`), and between two tokens stands a `Walk`. What a token says (`sayings`, by the
// table in `tables`) goes onto the code (`code`), with its names as numbers (`numbering`).
#![tactic(auto)]

pub mod code;
pub mod numbering;
pub mod sayings;
pub mod tables;
pub mod tokens;
pub mod walk;

ghost use Rattle.std.specs.Prelude.{List, ◌≤◌, length};
ghost use Rattle.grammar.specs.Tokens.{Token};
ghost use Rattle.grammar.specs.Source.{Text};
ghost use Rattle.grammar.specs.Legal.{Reading, text_bytes};
ghost use Rattle.resolving.specs.Walked.{TextResolved};

use instructions::code::Code;
use lexer::skip_blanks;
use numbering::NameNumbers;
use recognizer::machine::Machine;
use scoping::scopes::Scope;
use walk::Walk;

// The place of the first bad name of a text.
#[derive(Clone, Copy, Debug, PartialEq, Eq)]
pub struct BadName {
    pub place: usize,
}

// The walk over a text, which leaves its instructions in the code.
pub fn resolve(text: &[u8], code: &mut Code) -> Result<(), BadName>
    requires { length text.now ≤ text_bytes }
    ensures { (ts : List Token) (t : Text) → Reading text.now ts t → TextResolved text.now t code.new result }
{
    code.truncate(0);
    let mut walk = Walk {
        machine: Machine::new(),
        scope: Scope::new(text),
        numbers: NameNumbers::new(),
    };
    let mut start = skip_blanks(text, 0);
    while start < text.len() {
        let end = walk.take_token(start, code)?;
        start = skip_blanks(text, end);
    }
    Ok(())
}
