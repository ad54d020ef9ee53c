// The machine that reads a text.
ghost use Rattle.std.specs.Prelude.{◌≡◌, ◌≤◌, ◌<◌, true, [], length};
ghost use Rattle.grammar.specs.Sizes.{text_table, state_count};
ghost use Rattle.grammar.specs.Rows.{start};
ghost use Rattle.grammar.specs.Machine.{no_word, back, on_byte, can_end, ends};
ghost use Rattle.recognizer.specs.Coded.{state_of, word_of, follows, after_lead, standing, live_at, Topped, Stepped};
ghost use Rattle.recognizer.specs.Classes.{class_index};

use crate::classes::Class;
use crate::contexts::ContextStack;
use crate::numbers::{BACK, DONE, NAME_LETTERS};
use crate::tables::{LETTERS, NEXTS, WAITS, WORDS};
use std::marker::Model;

// The machine in the midst of a text: its state, the states that wait, and the word that is being
// read. States and words are numbers (numbers.rt).
#[derive(Drop)]
pub struct Machine {
    state: u8,
    word: u8,
    stack: ContextStack,
}

// Clauses see where the machine of `grammar` stands.
impl Model for Machine {
    ghost use Rattle.std.specs.Prelude.{◌<◌};
    ghost use Rattle.grammar.specs.Sizes.{state_count};
    ghost use Rattle.recognizer.specs.Coded.{Standing, standing, state_of, word_of};

    ghost Value = { Standing };

    ghost view = { λ m. standing (state_of m.state) m.stack (word_of m.word) };

    ghost invariant = { λ m. (m.state < state_count) × (m.word < 60) };
}

impl Machine {
    // The machine before a text.
    pub fn new() -> Machine
        ensures { result ≡ standing start [] no_word }
    {
        Machine {
            state: 0,
            word: 0,
            stack: ContextStack::new(),
        }
    }

    // Its state as the row of a table.
    pub fn row(&self) -> usize
        ensures few { result < state_count }
        ensures told { state_of result ≡ self.now.state }
    {
        usize::from(self.state)
    }

    // The state that waits on top, as a number, if one waits.
    pub fn top(&self) -> Option<u8>
        ensures { Topped self.now.waiting result }
    {
        self.stack.top()
    }

    // Back to the state that waits, with a word; under the last one the text's expression is
    // complete.
    fn resume(&mut self, word: u8)
        requires { word < 60 }
        ensures { live_at self.new ≡ back self.old.waiting (word_of word) }
    {
        self.state = self.stack.pop().unwrap_or(DONE);
        self.word = word;
    }

    // A byte that begins a token: the next state and one, the state that waits and one, and the
    // word that is begun.
    fn take_row(&mut self, next: u8, waits: u8, word: u8) -> bool
        requires room { length self.old.waiting < text_table }
        requires row { (next ≤ 48) × (waits ≤ state_count) × (word < 60) }
        ensures { Stepped (follows next waits word self.old.waiting) self.old result self.new }
    {
        if next == 0 {
            return false;
        }
        if next == BACK {
            self.resume(word);
            return true;
        }
        if waits != 0 {
            self.stack.push(waits - 1);
        }
        self.state = next - 1;
        self.word = word;
        true
    }

    // A byte of a class that a token can begin with; the word that was being read is done with.
    pub fn begin(&mut self, class: Class) -> bool
        requires room { length self.old.waiting < text_table }
        requires lead { class_index class < 18 }
        ensures { Stepped (after_lead (class_index class) self.old.state self.old.waiting) self.old result self.new }
    {
        let row = self.row();
        let column = class.index();
        self.take_row(NEXTS[row][column], WAITS[row][column], WORDS[row][column])
    }

    // A byte where a word can end.
    fn follow(&mut self, b: u8) -> bool
        requires room { length self.old.waiting < text_table }
        requires ended { can_end self.old.word ≡ true }
        ensures { Stepped (on_byte b self.old.state self.old.waiting self.old.word) self.old result self.new }
    {
        let class = Class::of(b);
        if class.is_blank() {
            self.word = 0;
            return true;
        }
        if self.word == 0 || !class.is_letter() {
            return class.is_lead() && self.begin(class);
        }
        // A name goes on, and a whole keyword does not.
        if !class.is_small_letter() || NAME_LETTERS <= self.word {
            return false;
        }
        self.word += 1;
        true
    }

    // One byte of the text: the letter that a keyword awaits, or what its class says.
    pub fn step(&mut self, b: u8) -> bool
        requires { length self.old.waiting < text_table }
        ensures { Stepped (on_byte b self.old.state self.old.waiting self.old.word) self.old result self.new }
    {
        let letter = LETTERS[usize::from(self.word)];
        if letter == 0 {
            return self.follow(b);
        }
        if b != letter {
            return false;
        }
        self.word += 1;
        true
    }

    // Whether a whole text has been read.
    pub fn is_done(&self) -> bool
        ensures { result ≡ ends (live_at self.now) }
    {
        LETTERS[usize::from(self.word)] == 0 && self.state == DONE
    }
}
