// The stack of the states that wait.
ghost use Rattle.std.specs.Prelude.{◌≡◌, ◌<◌, [], ◌∷◌, length};
ghost use Rattle.grammar.specs.Sizes.{text_table, state_count};
ghost use Rattle.recognizer.specs.Coded.{state_of, Popped, Topped};

use crate::numbers::CONTEXTS;
use std::marker::Model;

// The states that wait, by their numbers, the last on top: one byte for each.
#[derive(Drop)]
pub struct ContextStack {
    depth: usize,
    states: [u8; CONTEXTS],
}

// Clauses see the states, the last first.
impl Model for ContextStack {
    ghost use Rattle.std.specs.Prelude.{List};
    ghost use Rattle.grammar.specs.Rows.{State};

    ghost Value = { List State };

    ghost use Rattle.recognizer.specs.Coded.{stack_of, Waiting};

    ghost view = { λ s. stack_of s.depth s.states };

    ghost invariant = { λ s. Waiting s.depth s.states };
}

impl ContextStack {
    // An empty stack: no text has more open contexts than bytes.
    pub fn new() -> ContextStack
        ensures { result ≡ [] }
    {
        ContextStack {
            depth: 0,
            states: [0; CONTEXTS],
        }
    }

    // One state more.
    pub fn push(&mut self, state: u8)
        requires room { length self.old < text_table }
        requires few { state < state_count }
        ensures { self.new ≡ state_of state ∷ self.old }
    {
        self.states[self.depth] = state;
        self.depth += 1;
    }

    // The state on top, if one waits.
    pub fn top(&self) -> Option<u8>
        ensures { Topped self.now result }
    {
        if self.depth == 0 {
            None
        } else {
            Some(self.states[self.depth - 1])
        }
    }

    // The same, which then waits no more.
    pub fn pop(&mut self) -> Option<u8>
        ensures { Popped self.old result self.new }
    {
        let top = self.top();
        if top.is_some() {
            self.depth -= 1;
        }
        top
    }
}
