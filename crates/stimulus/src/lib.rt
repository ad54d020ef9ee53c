// The stimulus: whether it has whole cycles (code 8), and leaves within their counts (code 9).
#![tactic(auto)]

ghost use Rattle.std.specs.Prelude.{◌≡◌, ◌<◌, length};
ghost use Rattle.picoella.specs.Language.{bounds, leaves};
ghost use Rattle.records.specs.Trees.{type_at, TypeRecord};
ghost use Rattle.answers.specs.Answers.{lowest};
ghost use Rattle.answers.specs.Searches.{found};
ghost use Rattle.stimulus.specs.Tests.{not_whole, above};
ghost use Rattle.stimulus.specs.Holding.{Held};
ghost use Rattle.stimulus.specs.Holding.{HeldToOne};
ghost use Rattle.answers.specs.Results.{answer_of};

use accepted::fill_bounds;
use answers::{Answer, Code, Refusal};
use records::{VALUE_BYTES, WORD_A};
use verdict::Checked;

// The most bytes of a stimulus.
pub const STIMULUS_BYTES: usize = 65535;

// Whether a stimulus of so many bytes is too long or not whole cycles of w bytes.
fn not_whole(all: usize, w: usize) -> bool
    requires { 0 < w }
    ensures { result ≡ not_whole all w }
{
    STIMULUS_BYTES < all || all % w != 0
}

// The first byte above its leaf's count.
fn find_above(bounds: &[u8], stim: &[u8]) -> Option<usize>
    requires { 0 < length bounds.now }
    ensures { found result ≡ lowest (above bounds.now stim.now) (length stim.now) }
{
    let w = bounds.len();
    for (i, &byte) in stim.iter().enumerate() {
        if bounds[i % w] < byte {
            return Some(i);
        }
    }
    None
}

// The first byte of a stimulus above its leaf's count, where a cycle takes w bytes of type t.
fn first_above(checked: &Checked, t: usize, w: usize, stim: &[u8]) -> Option<usize>
    requires { TypeRecord checked.now.sheet t × (w ≡ leaves (type_at checked.now.sheet t)) }
    ensures { found result ≡ lowest (above (bounds (type_at checked.now.sheet t)) stim.now) (length stim.now) }
{
    let mut counts = [0; VALUE_BYTES];
    fill_bounds(checked, t, &mut counts[..w]);
    find_above(&counts[..w], stim)
}

// Codes 8 and 9 for a checked sheet, and else the number of cycles.
pub fn check_stimulus(checked: &Checked, stim: &[u8]) -> Answer
    ensures { Held checked.now.sheet stim.now (answer_of result) }
{
    let t = checked.sheet.word(0, WORD_A);
    let w = checked.widths[t] as usize;
    if not_whole(stim.len(), w) {
        return Err(Refusal {
            code: Code::WrongStimulus,
            place: 0,
        });
    }
    if let Some(i) = first_above(checked, t, w, stim) {
        return Err(Refusal {
            code: Code::WrongInput,
            place: i as u32,
        });
    }
    Ok((stim.len() / w) as u32)
}

// Codes 8 and 9 for one cycle of a checked sheet's input, and else that one cycle.
pub fn check_one_cycle(checked: &Checked, stim: &[u8]) -> Answer
    ensures { HeldToOne checked.now.sheet stim.now (answer_of result) }
{
    let t = checked.sheet.word(0, WORD_A);
    if stim.len() != checked.widths[t] as usize {
        return Err(Refusal {
            code: Code::WrongStimulus,
            place: 0,
        });
    }
    check_stimulus(checked, stim)
}
