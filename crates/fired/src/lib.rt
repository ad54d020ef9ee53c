// Which alternative fired: for one cycle a word for each record, at an IF the record of the alternative.
#![tactic(auto)]

ghost use Rattle.std.specs.Prelude.{◌≡◌};
ghost use Rattle.records.specs.Words.{count};
ghost use Rattle.answers.specs.Results.{answer_of};
ghost use Rattle.behaviour.specs.Firing.{fired};
ghost use Rattle.fired.specs.Telling.{ToldFired};
ghost use Rattle.fired.specs.TellingCycle.{TellingFired, FiredAnswered};

use answers::{Answer, Code, Refusal, packed};
use records::{Sheet, VALUE_BYTES, overwrite};
use stepper::look;
use stimulus::check_one_cycle;
use values::Room;
use verdict::{Checked, check};

// The words of one cycle, with room of its own; the output is not told.
fn tell_fired(checked: &Checked, input: &[u8], words: &mut [u16])
    requires { TellingFired checked.now.sheet (count checked.now.sheet) checked.now.widths checked.now.output_type input.now words.old }
    ensures { words.new ≡ fired checked.now.sheet input.now }
{
    let mut room = Room::new();
    let mut out = [0; VALUE_BYTES];
    let wo = checked.widths[checked.output_type] as usize;
    let sheet = &checked.sheet;
    let current = Sheet::of(sheet.bytes(), sheet.records());
    look(
        sheet,
        &checked.widths,
        &mut room,
        input,
        &current,
        &mut out[0..wo],
        true,
    );
    let many = words.len();
    overwrite(words, &room.fired[..many]);
}

// The call on an accepted sheet: codes 8, 9 and 16, the lowest first, and then the words.
fn fired_accepted(checked: &Checked, stim: &[u8], words: &mut [u16]) -> Answer
    ensures { FiredAnswered checked.now.sheet stim.now words.old (answer_of result) words.new }
{
    check_one_cycle(checked, stim)?;
    let records = checked.sheet.records();
    if words.len() != records {
        return Err(Refusal {
            code: Code::WrongWords,
            place: records as u32,
        });
    }
    tell_fired(checked, stim, words);
    Ok(0)
}

// The answer of the call.
fn fired_answer(sheet: &[u8], stim: &[u8], words: &mut [u16]) -> Answer
    ensures { FiredAnswered sheet.now stim.now words.old (answer_of result) words.new }
{
    let checked = check(sheet)?;
    fired_accepted(&checked, stim, words)
}

// Which alternative fired: the answer's code and place in one number.
pub fn fired_of(sheet: &[u8], stim: &[u8], words: &mut [u16]) -> u64
    ensures { ToldFired sheet.now stim.now words.old result words.new }
{
    packed(fired_answer(sheet, stim, words))
}
