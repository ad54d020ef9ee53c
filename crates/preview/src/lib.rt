// The preview: the outputs of one cycle, without taking it.
#![tactic(auto)]

ghost use Rattle.std.specs.Prelude.{◌≡◌};
ghost use Rattle.records.specs.Words.{count};
ghost use Rattle.answers.specs.Results.{answer_of};
ghost use Rattle.behaviour.specs.Cycle.{output};
ghost use Rattle.preview.specs.Preview.{Previewed};
ghost use Rattle.preview.specs.Showing.{Showing, PreviewAnswered};

use answers::{Answer, Code, Refusal, packed};
use records::Sheet;
use stepper::look;
use stimulus::check_one_cycle;
use values::Room;
use verdict::{Checked, check};

// The outputs of one cycle, with room of its own.
fn show(checked: &Checked, input: &[u8], out: &mut [u8])
    requires { Showing checked.now.sheet (count checked.now.sheet) checked.now.widths input.now out.old }
    ensures { out.new ≡ output checked.now.sheet input.now }
{
    let mut room = Room::new();
    let sheet = &checked.sheet;
    let current = Sheet::of(sheet.bytes(), sheet.records());
    look(
        sheet,
        &checked.widths,
        &mut room,
        input,
        &current,
        out,
        false,
    );
}

// The preview of an accepted sheet: codes 8 to 10, the lowest first, and then the outputs.
fn preview_accepted(checked: &Checked, stim: &[u8], out: &mut [u8]) -> Answer
    ensures { PreviewAnswered checked.now.sheet stim.now out.old (answer_of result) out.new }
{
    check_one_cycle(checked, stim)?;
    let needed = checked.widths[checked.output_type] as usize;
    if out.len() != needed {
        return Err(Refusal {
            code: Code::WrongOutputLength,
            place: needed as u32,
        });
    }
    show(checked, stim, out);
    Ok(0)
}

// The answer of the preview.
fn preview_answer(sheet: &[u8], stim: &[u8], out: &mut [u8]) -> Answer
    ensures { PreviewAnswered sheet.now stim.now out.old (answer_of result) out.new }
{
    let checked = check(sheet)?;
    preview_accepted(&checked, stim, out)
}

// The preview: the answer's code and place in one number.
pub fn preview(sheet: &[u8], stim: &[u8], out: &mut [u8]) -> u64
    ensures { Previewed sheet.now stim.now out.old result out.new }
{
    packed(preview_answer(sheet, stim, out))
}
