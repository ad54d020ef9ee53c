// The pattern of an IF goes behind its branches.
ghost use Rattle.std.specs.Prelude.{◌≡◌, List, ◌∷◌, ◌++◌, ◌+◌, ◌-◌, ◌≤◌, length, take, drop};
ghost use Rattle.instructions.specs.Instruction.{Instruction as SaidInstruction, close};
ghost use Rattle.instructions.specs.Assembly.{pattern_onto, patterns_below};
ghost use Rattle.grammar.specs.Legal.{text_bytes};

use instructions::code::Code;
use instructions::{Instruction, Op};

// How many stand before the last of the patterns that wait.
fn pattern_start(waiting: &Code) -> usize
    ensures { (result ≤ length waiting.now) × (patterns_below waiting.now ≡ drop (length waiting.now - result) waiting.now) × ((C : List SaidInstruction) → pattern_onto waiting.now C ≡ take (length waiting.now - result) waiting.now ++ C) }
{
    for k in (0..waiting.len()).rev() {
        if waiting.get(k).op == Op::BeginPattern {
            return k;
        }
    }
    0
}

// The instructions from one number on go onto the code.
fn move_onto(waiting: &Code, from: usize, code: &mut Code)
    requires { (from ≤ length waiting.now) × (length code.old + length waiting.now ≤ text_bytes) }
    ensures { code.new ≡ take (length waiting.now - from) waiting.now ++ code.old }
{
    for k in from..waiting.len() {
        code.push(waiting.get(k));
    }
}

// The end of an IF.
pub fn close_if(code: &mut Code, waiting: &mut Code)
    requires { length code.old + length waiting.old ≤ text_bytes }
    ensures { (code.new ≡ close ∷ pattern_onto waiting.old code.old) × (waiting.new ≡ patterns_below waiting.old) }
{
    let start = pattern_start(waiting);
    move_onto(waiting, start, code);
    code.push(Instruction {
        op: Op::Close,
        first: 0,
        second: 0,
    });
    waiting.truncate(start);
}
