// The types of the constants that are being read, the last on top; 0 for none, and for a bracket
// that is open.
ghost use Rattle.std.specs.Prelude.{◌≡◌, [], ◌∷◌, ◌≤◌, ◌<◌, length};
ghost use Rattle.instructions.specs.Assembly.{outermost, pair_closed, top_constant};
ghost use Rattle.grammar.specs.Legal.{text_bytes};
ghost use Rattle.grammar.specs.Sizes.{text_table};

use crate::types::constant_pair;
use instructions::INSTRUCTIONS;
use instructions::types::DeclaredTypes;
use std::marker::Model;

#[derive(Drop)]
pub struct ConstantTypes {
    numbers: [u16; INSTRUCTIONS],
    len: usize,
}

// Clauses see the numbers, the last first.
impl Model for ConstantTypes {
    ghost use Rattle.std.specs.Prelude.{ℕ, List, ◌≤◌};
    ghost use Rattle.grammar.specs.Sizes.{text_table};
    ghost use Rattle.ordering.specs.Numbers.{held_numbers};

    ghost Value = { List ℕ };

    ghost view = { λ c. held_numbers c.numbers c.len };

    ghost invariant = { λ c. c.len ≤ text_table };
}

impl ConstantTypes {
    pub fn new() -> Self
        ensures { result ≡ [] }
    {
        ConstantTypes {
            numbers: [0; INSTRUCTIONS],
            len: 0,
        }
    }

    // One number more.
    pub fn push(&mut self, number: u16)
        requires { length self.old < text_table }
        ensures { self.new ≡ number ∷ self.old }
    {
        let last = self.len;
        self.numbers[last] = number;
        self.len = last + 1;
    }

    pub fn clear(&mut self)
        ensures { self.new ≡ [] }
    {
        self.len = 0;
    }

    // The last number, or 0.
    pub fn top(&self) -> u16
        ensures { result ≡ top_constant self.now }
    {
        if self.len == 0 {
            0
        } else {
            self.numbers[self.len - 1]
        }
    }

    // The outermost constant's place.
    pub fn outer_place(&self, old: u16, new: u16) -> u16
        ensures { result ≡ outermost self.now old new }
    {
        if self.len == 0 { new } else { old }
    }

    // The end of a pair: its type stands for the bracket and the two parts.
    pub fn close_pair(&mut self, types: &DeclaredTypes)
        requires { length types.now ≤ text_bytes }
        ensures { self.new ≡ pair_closed types.now self.old }
    {
        if self.len < 3 {
            self.len = 0;
            return;
        }
        let bracket = self.len - 3;
        let first = self.numbers[bracket + 1];
        let second = self.numbers[bracket + 2];
        self.numbers[bracket] = constant_pair(types, first, second);
        self.len = bracket + 1;
    }
}
