// Replays record.bin, the recorded outputs of sheet.bin on stim.bin, and says whether they agree or
// where they first differ, or prints only the refusal (docs/SHEETS.md, "Replaying a record").
#![tactic(auto)]

ghost use Rattle.std.specs.Prelude.{◌≤◌, ◌≡◌, length};
ghost use Rattle.rooms.specs.Rooms.{sheet_room};
ghost use Rattle.replay_line.specs.ReplayLine.{replay_printed};

use listing::LINE_BYTES;
use program_io::{read_inputs, read_named, refuse_file, unopened_file};
use replay_line::tell_replay;
use rooms::{record_room, sheet_room, stimulus_room};
use std::fs::File;
use std::rt::Files;

// Prints what is found of a sheet, a stimulus and a record. Where nobody can read it nothing is done
// about that.
fn print_line(out: &impl Print, sheet: &[u8], stim: &[u8], recorded: &[u8], text: &[u8])
    requires { text.now ≡ replay_printed sheet.now stim.now recorded.now }
{
    let _ = out.write_all(text);
}

fn replay_files(out: &impl Print, sheet: &[u8], stim: &[u8], recorded: &[u8])
    requires { length sheet.now ≤ sheet_room }
{
    let mut next = sheet_room();
    let mut line = [0u8; LINE_BYTES];
    let end = tell_replay(sheet, stim, recorded, &mut next, &mut line);
    print_line(out, sheet, stim, recorded, &line[..end]);
}

// The third file, after the other two.
fn read_record(rt: &(impl Files<File = File> + Print), sheet: &[u8], stim: &[u8])
    requires { length sheet.now ≤ sheet_room }
{
    let mut recorded = record_room();
    let Some(n) = read_named(rt, b"record.bin", &mut recorded) else {
        refuse_file(rt, unopened_file(true, true));
        return;
    };
    replay_files(rt, sheet, stim, &recorded[..n]);
}

fn main(rt: HostRuntime) {
    let mut sheet = sheet_room();
    let mut stim = stimulus_room();
    let Some(got) = read_inputs(&rt, &mut sheet, &mut stim) else {
        return;
    };
    read_record(&rt, &sheet[..got.sheet], &stim[..got.stim]);
}
