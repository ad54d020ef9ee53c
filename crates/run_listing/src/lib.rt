// What sheetrun prints of a sheet and a stimulus, from their run.
#![tactic(auto)]

ghost use Rattle.std.specs.Prelude.{◌≤◌, length};
ghost use Rattle.run_listing.specs.Printout.{RunTold};
ghost use Rattle.run_listing.specs.Telling.{told_code, told_place, told_type, told_width, told_length};
ghost use Rattle.run_listing.specs.Lengths.{OutputsMeasured};
ghost use Rattle.rooms.specs.Rooms.{most_output};
ghost use Rattle.records.specs.Limits.{most_leaves};

use answers::Refusal;
use simulator::{leaves_of, run_accepted};
use stimulus::STIMULUS_BYTES;
use verdict::{Checked, check};

// What is to be listed of a run that is not refused: its cycles, the record of the output type, the
// leaves of a line, and the length of the outputs.
#[derive(Clone, Copy)]
pub struct Listed {
    pub cycles: u32,
    pub output_type: u64,
    pub width: usize,
    pub length: usize,
}

// The length of the outputs for a stimulus of so many bytes; of one that is refused, none.
fn outputs_length(input: usize, output: usize, all: usize) -> usize
    requires { output ≤ most_leaves }
    ensures { OutputsMeasured input output all result }
{
    if input == 0 || STIMULUS_BYTES < all {
        return 0;
    }
    all / input * output
}

// The same as `tell`, of a checked sheet.
fn tell_accepted(
    checked: &Checked,
    stim: &[u8],
    out: &mut [u8],
    next: &mut [u8],
) -> Result<Listed, Refusal>
    requires { (most_output ≤ length out.old) × (length checked.now.sheet ≤ length next.old) }
    ensures { RunTold checked.now.sheet stim.now (told_code result) (told_place result) (told_type result) (told_width result) (told_length result) out.new next.new }
{
    let leaves = leaves_of(checked);
    let length = outputs_length(leaves.input, leaves.output, stim.len());
    let long = checked.sheet.bytes().len();
    let cycles = run_accepted(checked, stim, &mut out[..length], &mut next[..long])?;
    Ok(Listed {
        cycles,
        output_type: leaves.output_type as u64,
        width: leaves.output,
        length,
    })
}

// Runs a sheet on a stimulus, in room for the longest outputs and for the sheet after it, and tells
// what is to be listed. The sheet is checked once.
pub fn tell(sheet: &[u8], stim: &[u8], out: &mut [u8], next: &mut [u8]) -> Result<Listed, Refusal>
    requires { (most_output ≤ length out.old) × (length sheet.now ≤ length next.old) }
    ensures { RunTold sheet.now stim.now (told_code result) (told_place result) (told_type result) (told_width result) (told_length result) out.new next.new }
{
    match check(sheet) {
        Ok(checked) => tell_accepted(&checked, stim, out, next),
        Err(fault) => {
            let refusal = Refusal::from(fault);
            Err(refusal)
        }
    }
}
