// The rooms that programs read files into and put outputs into.
#![tactic(auto)]

ghost use Rattle.std.specs.Prelude.{◌≡◌, length};
ghost use Rattle.rooms.specs.Rooms.{most_output, record_room, sheet_room, stimulus_room, text_room};

use records::{SHEET_BYTES, VALUE_BYTES};
use stimulus::STIMULUS_BYTES;

// The longest sheet and a byte more.
const SHEET_ROOM: usize = SHEET_BYTES + 1;

// The longest stimulus and a byte more.
const STIMULUS_ROOM: usize = STIMULUS_BYTES + 1;

// What is printed in one piece.
const TEXT_ROOM: usize = 65536;

// The longest output: a value for each byte of the longest stimulus.
const OUTPUT_ROOM: usize = STIMULUS_BYTES * VALUE_BYTES;

// The longest record and a byte more.
const RECORD_ROOM: usize = OUTPUT_ROOM + 1;

// The five differ in a constant. They stay, since each promises its length by the name that clauses
// give it, and `long_sheet_cut` is refused by that.

// A longer file is refused for its length and not cut.
pub fn sheet_room() -> [u8; SHEET_ROOM]
    ensures { sheet_room ≡ length result }
{
    [0; SHEET_ROOM]
}

pub fn stimulus_room() -> [u8; STIMULUS_ROOM]
    ensures { stimulus_room ≡ length result }
{
    [0; STIMULUS_ROOM]
}

pub fn text_room() -> [u8; TEXT_ROOM]
    ensures { text_room ≡ length result }
{
    [0; TEXT_ROOM]
}

pub fn output_room() -> [u8; OUTPUT_ROOM]
    ensures { most_output ≡ length result }
{
    [0; OUTPUT_ROOM]
}

pub fn record_room() -> [u8; RECORD_ROOM]
    ensures { record_room ≡ length result }
{
    [0; RECORD_ROOM]
}
