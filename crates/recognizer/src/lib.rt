// Reads a text byte by byte: a state, a stack of the states that wait, one byte for each, and what is left of the word that is being read.
// There is no recursion: a text of 65,535 open brackets is read like any other.
// States, classes of bytes and words are numbers; `grammar` has the machine that they stand for.
#![tactic(auto)]

pub mod classes;
mod contexts;
pub mod machine;
pub mod numbers;
pub mod tables;

ghost use Rattle.grammar.specs.Walk.{PlaceTold};
ghost use Rattle.recognizer.specs.Coded.{illegal};

use machine::Machine;
use numbers::TEXT_BYTES;

// The first byte after which no continuation is legal, 65,535 at the latest, or the length of a text
// that ends early; none of a text that keeps to the grammar.
pub fn first_illegal(text: &[u8]) -> Option<usize>
    ensures { PlaceTold text.now (illegal result) }
{
    let read = &text[..text.len().min(TEXT_BYTES)];
    let mut machine = Machine::new();
    for (i, &b) in read.iter().enumerate() {
        if !machine.step(b) {
            return Some(i);
        }
    }
    if text.len() <= TEXT_BYTES && machine.is_done() {
        None
    } else {
        Some(read.len())
    }
}
