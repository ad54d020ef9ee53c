// Instructions, one after the other, the last on top.
ghost use Rattle.std.specs.Prelude.{◌≡◌, ◌∷◌, [], ◌+◌, ◌-◌, ◌<◌, ◌≤◌, length, drop};
ghost use Rattle.grammar.specs.Sizes.{text_table};
ghost use Rattle.instructions.specs.Said.{said};
ghost use Rattle.instructions.specs.Code.{from_bottom};

use crate::{INSTRUCTIONS, Instruction, Op};
use std::marker::Model;

// So many instructions, each in three tables. One table of whole ones, which needs a fifth more
// bytes, was tried and is slower: 127 µs against 98 for thirty instructions and their assembly.
#[derive(Drop)]
pub struct Code {
    ops: [Op; INSTRUCTIONS],
    firsts: [u16; INSTRUCTIONS],
    seconds: [u16; INSTRUCTIONS],
    len: usize,
}

// Clauses see the instructions, the last first.
impl Model for Code {
    ghost use Rattle.std.specs.Prelude.{List, ◌≤◌};
    ghost use Rattle.grammar.specs.Sizes.{text_table};
    ghost use Rattle.instructions.specs.Instruction.{Instruction as SaidInstruction};
    ghost use Rattle.instructions.specs.Code.{instructions_held};

    ghost Value = { List SaidInstruction };

    ghost view = { λ c. instructions_held c.ops c.firsts c.seconds c.len };

    ghost invariant = { λ c. c.len ≤ text_table };
}

impl Code {
    pub fn new() -> Self
        ensures { result ≡ [] }
    {
        Code {
            ops: [Op::DeclareType; INSTRUCTIONS],
            firsts: [0; INSTRUCTIONS],
            seconds: [0; INSTRUCTIONS],
            len: 0,
        }
    }

    pub fn len(&self) -> usize
        ensures { (result ≡ length self.now) × (length self.now ≤ text_table) }
    {
        self.len
    }

    // The instruction with so many before it.
    pub fn get(&self, k: usize) -> Instruction
        requires { k < length self.now }
        ensures { said result ≡ from_bottom k self.now }
    {
        Instruction {
            op: self.ops[k],
            first: self.firsts[k],
            second: self.seconds[k],
        }
    }

    // One instruction more.
    pub fn push(&mut self, instruction: Instruction)
        requires { length self.old < text_table }
        ensures { self.new ≡ said instruction ∷ self.old }
    {
        let last = self.len;
        self.ops[last] = instruction.op;
        self.firsts[last] = instruction.first;
        self.seconds[last] = instruction.second;
        self.len = last + 1;
    }

    // The first n instructions alone.
    pub fn truncate(&mut self, n: usize)
        requires { n ≤ length self.old }
        ensures { self.new ≡ drop (length self.old - n) self.old }
    {
        self.len = n;
    }
}
