// Reports the changes in the outputs of sheet.bin on stim.bin, or prints only the refusal (docs/SHEETS.md, "Shift report").
#![tactic(auto)]

ghost use Rattle.std.specs.Prelude.{◌≤◌, ◌≡◌, length};
ghost use Rattle.rooms.specs.Rooms.{sheet_room};
ghost use Rattle.report.specs.Reported.{reported};

use program_io::read_inputs;
use report::tell_report;
use rooms::{output_room, sheet_room, stimulus_room, text_room};

// Prints what is reported of a sheet and a stimulus. Where nobody can read it nothing is done about
// that.
fn print_report(out: &impl Print, sheet: &[u8], stim: &[u8], text: &[u8])
    requires { text.now ≡ reported sheet.now stim.now }
{
    let _ = out.write_all(text);
}

fn report_files(out: &impl Print, sheet: &[u8], stim: &[u8])
    requires { length sheet.now ≤ sheet_room }
{
    let mut output = output_room();
    let mut next = sheet_room();
    let mut buffer = text_room();
    let end = tell_report(sheet, stim, &mut output, &mut next, &mut buffer);
    print_report(out, sheet, stim, &buffer[..end]);
}

fn main(rt: HostRuntime) {
    let mut sheet = sheet_room();
    let mut stim = stimulus_room();
    let Some(got) = read_inputs(&rt, &mut sheet, &mut stim) else {
        return;
    };
    report_files(&rt, &sheet[..got.sheet], &stim[..got.stim]);
}
