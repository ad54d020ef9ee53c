// Instructions that are said, one after the other.
ghost use Rattle.std.specs.Prelude.{[], ◌∷◌};
ghost use Rattle.instructions.specs.Instruction.{instruction_of};
ghost use Rattle.instructions.specs.Said.{number_of};
ghost use Rattle.resolving.specs.Said.{CodeSaid};

use instructions::code::Code;
use instructions::{INSTRUCTIONS, Instruction, Op};

// One instruction more; none where the code is full, which no text fills.
pub fn say(code: &mut Code, op: Op, first: u16, second: u16)
    ensures { CodeSaid code.old (instruction_of (number_of op) first second ∷ []) code.new }
{
    if code.len() < INSTRUCTIONS {
        code.push(Instruction { op, first, second });
    }
}
