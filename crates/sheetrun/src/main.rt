// Runs sheet.bin on stim.bin: writes next.bin and prints the listing, or prints only the refusal
// (docs/SHEETS.md, "Listing").
#![tactic(auto)]

ghost use Rattle.std.specs.Prelude.{◌≤◌, ◌≡◌, ◌++◌, length, take};
ghost use Rattle.listing.specs.Lines.{listing, refused_line};
ghost use Rattle.printing.specs.Pieces.{text_from};
ghost use Rattle.printing.specs.PutLines.{text_after};
ghost use Rattle.run_listing.specs.Printout.{printed, run_sheet};
ghost use Rattle.rooms.specs.Rooms.{sheet_room};

use listing::Outputs;
use printing::{first_piece, next_piece, put_refusal};
use program_io::{read_inputs, replace};
use rooms::{output_room, sheet_room, stimulus_room, text_room};
use run_listing::tell;
use std::fs::File;
use std::rt::Files;

// Writes the sheet after the last cycle. Where next.bin can't be written, nothing is done about it:
// the listing is printed nevertheless.
fn write_next(files: &impl Files<File = File>, sheet: &[u8], stim: &[u8], next: &[u8])
    requires { next.now ≡ run_sheet sheet.now stim.now }
{
    replace(files, b"next.bin", b"next.bin.new", next);
}

// The same from room that the sheet fills the front of.
fn keep_next(files: &impl Files<File = File>, sheet: &[u8], stim: &[u8], room: &[u8])
    requires { (length sheet.now ≤ length room.now) × (take (length sheet.now) room.now ≡ run_sheet sheet.now stim.now) }
{
    write_next(files, sheet, stim, &room[..sheet.len()]);
}

// Writes the first piece of what is printed of a sheet and a stimulus.
fn write_first(
    out: &impl Print,
    sheet: &[u8],
    stim: &[u8],
    outputs: Outputs<'_>,
    text: &[u8],
    next: Option<usize>,
)
    requires { printed sheet.now stim.now ≡ text.now ++ text_after outputs.width outputs.leaves.now next }
{
    let _ = out.write_all(text);
}

// Writes a piece more, of what is left from cycle k on.
fn write_more(out: &impl Print, outputs: Outputs<'_>, k: usize, text: &[u8], next: Option<usize>)
    requires { text_from outputs.width k outputs.leaves.now ≡ text.now ++ text_after outputs.width outputs.leaves.now next }
{
    let _ = out.write_all(text);
}

// Prints the listing of a sheet and a stimulus, piece by piece, of outputs whose type is at record t.
fn print_listing(out: &impl Print, sheet: &[u8], stim: &[u8], t: u64, outputs: Outputs<'_>)
    requires { listing t outputs.width outputs.leaves.now ≡ printed sheet.now stim.now }
{
    let mut buffer = text_room();
    let begun = first_piece(&mut buffer, t, outputs);
    let mut next = begun.next;
    write_first(out, sheet, stim, outputs, &buffer[..begun.end], next);
    while let Some(k) = next {
        let piece = next_piece(&mut buffer, outputs, k);
        next = piece.next;
        write_more(out, outputs, k, &buffer[..piece.end], next);
    }
}

// Writes all that is printed of a sheet and a stimulus.
fn write_line(out: &impl Print, sheet: &[u8], stim: &[u8], line: &[u8])
    requires { line.now ≡ printed sheet.now stim.now }
{
    let _ = out.write_all(line);
}

// Prints the line of a refused run.
fn print_refusal(out: &impl Print, sheet: &[u8], stim: &[u8], code: u64, place: u64)
    requires { refused_line code place ≡ printed sheet.now stim.now }
{
    let mut buffer = text_room();
    let end = put_refusal(&mut buffer, code, place);
    write_line(out, sheet, stim, &buffer[..end]);
}

// next.bin is written first, so that it is there also where nobody reads what is printed.
fn run_files(rt: &(impl Files<File = File> + Print), sheet: &[u8], stim: &[u8])
    requires { length sheet.now ≤ sheet_room }
{
    let mut out = output_room();
    let mut next = sheet_room();
    match tell(sheet, stim, &mut out, &mut next) {
        Ok(listed) => {
            keep_next(rt, sheet, stim, &next);
            let outputs = Outputs {
                leaves: &out[..listed.length],
                width: listed.width,
            };
            print_listing(rt, sheet, stim, listed.output_type, outputs);
        }
        Err(refusal) => {
            let place = u64::from(refusal.place);
            print_refusal(rt, sheet, stim, refusal.code.number(), place);
        }
    }
}

fn main(rt: HostRuntime) {
    let mut sheet = sheet_room();
    let mut stim = stimulus_room();
    let Some(got) = read_inputs(&rt, &mut sheet, &mut stim) else {
        return;
    };
    run_files(&rt, &sheet[..got.sheet], &stim[..got.stim]);
}
