// The stack of the emission: numbers, where the parts of an expression end, and indices that wait.
ghost use Rattle.std.specs.Prelude.{◌≡◌, [], ◌∷◌, ◌≤◌, ◌<◌, length};
ghost use Rattle.instructions.specs.Emission.{top};
ghost use Rattle.emitting.specs.Slots.{slot_of, popped, Unwaited};
ghost use Rattle.grammar.specs.Sizes.{text_table};

use instructions::INSTRUCTIONS;
use records::Kind;
use std::marker::Model;

// The number of a record or a type, where the parts of an expression end, or an index that waits.
#[derive(Clone, Copy, Debug, PartialEq, Eq)]
pub enum Slot {
    Number(u16),
    Barrier,
    FirstWaits,
    SecondWaits,
}

#[derive(Drop)]
pub struct Stack {
    slots: [Slot; INSTRUCTIONS],
    len: usize,
}

// Clauses see the slots, the top one first.
impl Model for Stack {
    ghost use Rattle.std.specs.Prelude.{List, ◌≤◌};
    ghost use Rattle.instructions.specs.Emission.{Slot as EmissionSlot};
    ghost use Rattle.grammar.specs.Sizes.{text_table};
    ghost use Rattle.emitting.specs.Slots.{held_slots};

    ghost Value = { List EmissionSlot };

    ghost view = { λ s. held_slots s.slots s.len };

    ghost invariant = { λ s. s.len ≤ text_table };
}

impl Stack {
    pub fn new() -> Self
        ensures { result ≡ [] }
    {
        Stack {
            slots: [Slot::Number(0); INSTRUCTIONS],
            len: 0,
        }
    }

    // A slot more.
    pub fn push(&mut self, slot: Slot)
        requires { length self.old < text_table }
        ensures { self.new ≡ slot_of slot ∷ self.old }
    {
        let last = self.len;
        self.slots[last] = slot;
        self.len = last + 1;
    }

    // The number so many slots below the top, 0 for none.
    pub fn below(&self, n: usize) -> u16
        ensures { result ≡ top (popped n self.now) }
    {
        if self.len <= n {
            return 0;
        }
        match self.slots[self.len - n - 1] {
            Slot::Number(number) => number,
            _ => 0,
        }
    }

    // So many slots less.
    pub fn pop(&mut self, n: usize)
        ensures { self.new ≡ popped n self.old }
    {
        self.len = self.len.saturating_sub(n);
    }

    // The kind of the index that waits on top, which waits no more.
    pub fn pop_waiting(&mut self) -> Option<Kind>
        ensures { Unwaited result self.old self.new }
    {
        if self.len == 0 {
            return None;
        }
        let kind = match self.slots[self.len - 1] {
            Slot::FirstWaits => Kind::First,
            Slot::SecondWaits => Kind::Second,
            _ => return None,
        };
        self.len -= 1;
        Some(kind)
    }
}
