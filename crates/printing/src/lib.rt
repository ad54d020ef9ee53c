// Text in pieces of one buffer: a call's result, and the line of a file that cannot be opened.
#![tactic(auto)]

ghost use Rattle.std.specs.Prelude.{◌≡◌, ℕ, List, true, ◌≤◌, ◌*◌, length};
ghost use Rattle.listing.specs.Wrote.{TextPut, line_bytes};
ghost use Rattle.listing.specs.Lines.{listing, refused_line};
ghost use Rattle.listing.specs.Seen.{written};
ghost use Rattle.printing.specs.Pieces.{no_file_line, told_text, text_from, Pieced};
ghost use Rattle.printing.specs.PutLines.{PuttingLines, PutLines, IsPiece};

use answers::Code;
use listing::{LINE_BYTES, Outputs, Text};

// A piece of text in the front of a buffer, up to `end`, and the cycle at which the next one begins,
// if this is not the last.
#[derive(Clone, Copy)]
pub struct Piece {
    pub end: usize,
    pub next: Option<usize>,
}

// The lines from cycle k on, as many as surely have room, and after the last of them their count.
// It gives the cycle that comes next.
fn put_rest(text: &mut Text<'_>, outputs: Outputs<'_>, k: usize) -> Option<usize>
    requires { PuttingLines (written text.old) outputs.width k outputs.leaves.now }
    ensures { PutLines (written text.old) outputs.entry.width k outputs.entry.leaves.now (written text.new) result }
{
    let after = k + text.put_lines(k, outputs.width, outputs.from_cycle(k));
    if text.left() < LINE_BYTES {
        return Some(after);
    }
    text.put_cycles(after);
    None
}

// The first piece of a listing, whose outputs have the type at record t.
pub fn first_piece(buffer: &mut [u8], t: u64, outputs: Outputs<'_>) -> Piece
    requires { 2 * line_bytes ≤ length buffer.old }
    ensures { IsPiece (listing t outputs.entry.width outputs.entry.leaves.now) outputs.entry.width outputs.entry.leaves.now buffer.new result.end result.next }
{
    let mut text = Text::new(buffer);
    text.put_type(t);
    let next = put_rest(&mut text, outputs, 0);
    Piece {
        end: text.len(),
        next,
    }
}

// A piece more, from cycle k on.
pub fn next_piece(buffer: &mut [u8], outputs: Outputs<'_>, k: usize) -> Piece
    requires room { line_bytes ≤ length buffer.old }
    requires inside { k * outputs.width ≤ length outputs.leaves.now }
    ensures { IsPiece (text_from outputs.entry.width k outputs.entry.leaves.now) outputs.entry.width outputs.entry.leaves.now buffer.new result.end result.next }
{
    let mut text = Text::new(buffer);
    let next = put_rest(&mut text, outputs, k);
    Piece {
        end: text.len(),
        next,
    }
}

// The line of a refusal: the one piece of what is told of a refused run.
pub fn put_refusal(buffer: &mut [u8], code: u64, place: u64) -> usize
    requires { line_bytes ≤ length buffer.old }
    ensures line { TextPut buffer.old 0 (refused_line code place) buffer.new result }
    ensures piece { (t w : ℕ) (outputs : List ℕ) → (code ≡ 0 → ⊥) → Pieced (told_text code place t w outputs) w outputs buffer.new result 0 0 true }
{
    let mut text = Text::new(buffer);
    text.put_refused(code, place);
    text.len()
}

// The line for a file that could not be opened, from its place among the files of a program: 1 for the first.
pub fn put_no_file(buffer: &mut [u8], place: u64) -> usize
    requires { line_bytes ≤ length buffer.old }
    ensures { TextPut buffer.old 0 (no_file_line place) buffer.new result }
{
    put_refusal(buffer, Code::NoFile.number(), place)
}
