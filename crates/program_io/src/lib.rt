// Files for programs: a file read whole or past its limit, the line of a file that cannot be
// opened, and a file replaced.
#![tactic(auto)]

ghost use Rattle.std.specs.Prelude.{◌≡◌, IfOk, IfSome, MatchResult};
ghost use Rattle.printing.specs.Pieces.{no_file_line, unopened_file};
ghost use Rattle.program_io.specs.Files.{Counts, Ended};

use listing::LINE_BYTES;
use printing::put_no_file;
use std::fs::{File, OpenOptions};
use std::io::{ErrorKind, Read, Seek, Write};
use std::rt::Files;
use std::{fs, io, str};

// Reads a file to its end, or until the buffer is full, and gives how many bytes were read. A loop
// of reads, since the library's `read_to_end` takes a Vec and a program's memory is fixed.
fn read_file(file: &mut File, buffer: &mut [u8]) -> io::Result<usize>
    ensures { IfOk result (λ n. Counts n buffer.new) }
{
    let mut n = 0;
    while n < buffer.len() {
        let got = file.read(&mut buffer[n..])?;
        if got == 0 {
            break;
        }
        n += got;
    }
    Ok(n)
}

// The file, if the call that opens it gave a descriptor. 0 is one too, where standard input was
// closed.
fn opened(file: io::Result<File>) -> Option<File>
    ensures { MatchResult file (λ f. result ≡ Some f) (λ _. result ≡ None) }
{
    file.ok()
}

// A path as text, which is how the library takes it. Another path opens nothing.
fn path_text(path: &[u8]) -> io::Result<&str> {
    str::from_utf8(path).map_err(|_| io::Error::from(ErrorKind::InvalidInput))
}

// Opens a file to be read.
fn open_read(files: &impl Files<File = File>, path: &[u8]) -> io::Result<File> {
    fs::open(files, path_text(path)?)
}

// Opens a file and reads it, to its end or until the buffer is full, and gives how many bytes were
// read: a buffer of one byte more than a limit tells a longer file.
pub fn read_named(files: &impl Files<File = File>, path: &[u8], buffer: &mut [u8]) -> Option<usize>
    ensures { IfSome result (λ n. Counts n buffer.new) }
{
    let mut file = opened(open_read(files, path))?;
    read_file(&mut file, buffer).ok()
}

// Writes the line for a file that could not be opened. Where nobody can read it nothing is done
// about that.
fn write_no_file(out: &impl Print, place: u64, line: &[u8])
    requires { line.now ≡ no_file_line place }
{
    let _ = out.write_all(line);
}

// Prints the line for a file that could not be opened, from its place among the files of a program:
// 1 for the first.
pub fn refuse_file(out: &impl Print, place: u64) {
    let mut line = [0u8; LINE_BYTES];
    let end = put_no_file(&mut line, place);
    write_no_file(out, place, &line[..end]);
}

// The files of a program, by their places: one that cannot be opened is refused by its place.
#[derive(Clone, Copy)]
enum Input {
    Sheet = 1,
    Stimulus = 2,
    Record = 3,
}

// The place of the file that could not be opened: the sheet's, or where that was opened the
// stimulus's, or where both were the record's.
pub fn unopened_file(sheet: bool, stim: bool) -> u64
    ensures { result ≡ unopened_file sheet stim }
{
    let file = match (sheet, stim) {
        (false, _) => Input::Sheet,
        (true, false) => Input::Stimulus,
        (true, true) => Input::Record,
    };
    file as u64
}

// The lengths of the sheet and of the stimulus.
#[derive(Clone, Copy)]
pub struct Inputs {
    pub sheet: usize,
    pub stim: usize,
}

// Reads sheet.bin and stim.bin; of the first that cannot be opened it prints the refusal.
pub fn read_inputs(
    rt: &(impl Files<File = File> + Print),
    sheet: &mut [u8],
    stim: &mut [u8],
) -> Option<Inputs>
    ensures { IfSome result (λ got. Counts got.sheet sheet.new × Counts got.stim stim.new) }
{
    let Some(sheet) = read_named(rt, b"sheet.bin", sheet) else {
        refuse_file(rt, unopened_file(false, false));
        return None;
    };
    let Some(stim) = read_named(rt, b"stim.bin", stim) else {
        refuse_file(rt, unopened_file(true, false));
        return None;
    };
    Some(Inputs { sheet, stim })
}

// The bytes of a path that the system reads at most, with the 0 at its end.
const PATH_MAX: usize = 4096;

// The last byte of a path that the system reads.
const PATH_END: usize = PATH_MAX - 1;

// A path as the system reads it, ended by a 0.
fn c_path(path: &[u8]) -> [u8; PATH_MAX]
    ensures { Ended result }
{
    let mut name = [0u8; PATH_MAX];
    let end = path.len().min(PATH_END);
    name[..end].copy_from_slice(&path[..end]);
    name[PATH_END] = 0;
    name
}

// The bytes of such a path before its end.
fn before_end(name: &[u8; PATH_MAX]) -> &[u8]
    requires { Ended name.now }
{
    let end = name.iter().position(|&b| b == 0).unwrap_or(PATH_END);
    &name[..end]
}

// Whether a link has this name.
fn is_link(files: &impl Files, path: &[u8]) -> bool {
    let name = c_path(path);
    let Ok(text) = path_text(before_end(&name)) else {
        return false;
    };
    match fs::symlink_metadata(files, text) {
        Ok(found) => found.is_symlink(),
        Err(_) => false,
    }
}

// Whether a new file may take the name of one that was opened: it is no pipe and no link leads to
// it.
fn is_plain(files: &impl Files, file: &mut File, path: &[u8]) -> bool {
    file.stream_position().is_ok() && !is_link(files, path)
}

// Whether nothing has the name, after it could not be opened.
fn is_free(files: &impl Files, why: ErrorKind, path: &[u8]) -> bool {
    why == ErrorKind::NotFound && !is_link(files, path)
}

fn may_take(files: &impl Files, old: &mut io::Result<File>, path: &[u8]) -> bool {
    match old {
        Ok(file) => is_plain(files, file, path),
        Err(e) => is_free(files, e.kind(), path),
    }
}

// Opens a file to be read and written where it stands.
fn open_update(files: &impl Files<File = File>, path: &[u8]) -> io::Result<File> {
    let text = path_text(path)?;
    OpenOptions::new().read(true).write(true).open(files, text)
}

// Makes a file, unless something has the name.
fn create(files: &impl Files<File = File>, path: &[u8]) -> io::Result<File> {
    let text = path_text(path)?;
    OpenOptions::new()
        .write(true)
        .create_new(true)
        .open(files, text)
}

// Opens a file to be written, and empties or makes it.
fn open_overwrite(files: &impl Files<File = File>, path: &[u8]) -> io::Result<File> {
    fs::create(files, path_text(path)?)
}

// Takes a file away. Where it can't be, nothing is done about that.
fn unlink(files: &impl Files, path: &[u8]) {
    if let Ok(text) = path_text(path) {
        let _ = fs::remove_file(files, text);
    }
}

// Gives one file the name of another.
fn rename(files: &impl Files, from: &[u8], to: &[u8]) -> io::Result<()> {
    fs::rename(files, path_text(from)?, path_text(to)?)
}

// Writes all of a new file and closes it. A full disk may show only as the file reaches it, so that
// is waited for.
fn write_whole(mut file: File, bytes: &[u8]) -> io::Result<()> {
    file.write_all(bytes)?;
    file.sync_all()
}

// Writes the new file and gives it the name. Where not all of it can be written it goes again, and
// what had the name keeps it.
fn write_new(files: &impl Files, made: File, path: &[u8], beside: &[u8], bytes: &[u8]) {
    if write_whole(made, bytes).is_err() || rename(files, beside, path).is_err() {
        unlink(files, beside);
    }
}

// A file to be written where it stands: the one that was opened, or else, where it may not be read,
// or is missing and a link leads to it, one that is found empty.
fn in_place(files: &impl Files<File = File>, old: io::Result<File>, path: &[u8]) -> Option<File> {
    match old {
        Ok(file) => Some(file),
        Err(_) => opened(open_overwrite(files, path)),
    }
}

// Writes over the front of a file and cuts it after that. Where nothing can be written the file
// stays, and where it can't be cut nothing is done about that.
fn write_over(mut file: File, bytes: &[u8]) {
    let _ = file.write_all(bytes);
    if let Ok(end) = file.stream_position() {
        if end > 0 {
            let _ = file.set_len(end);
        }
    }
}

// Replaces a file: by a new one that is written beside it and takes its name, so that it is
// replaced whole or, as where the disk is full, stays. What a link leads to, a pipe, and a file in
// a folder that may not be written are written where they stand.
pub fn replace(files: &impl Files<File = File>, path: &[u8], beside: &[u8], bytes: &[u8]) {
    let mut old = open_update(files, path);
    if may_take(files, &mut old, path) {
        unlink(files, beside);
        match create(files, beside) {
            Ok(made) => return write_new(files, made, path, beside, bytes),
            Err(e) if e.kind() == ErrorKind::StorageFull => return,
            Err(_) => {}
        }
    }
    if let Some(file) = in_place(files, old, path) {
        write_over(file, bytes);
    }
}
