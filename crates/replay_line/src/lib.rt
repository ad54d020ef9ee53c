// What sheetreplay prints of a sheet, a stimulus and recorded outputs, from their replay.
#![tactic(auto)]

ghost use Rattle.std.specs.Prelude.{◌≤◌, length};
ghost use Rattle.listing.specs.Wrote.{line_bytes};
ghost use Rattle.replay_line.specs.ReplayLine.{LineTold};

use answers::{code_of, place_of};
use listing::Text;
use replay::replay;

// Replays, in room for the sheet after the last cycle, and writes the line to be printed to the
// front of a buffer. It gives the end.
pub fn tell_replay(
    sheet: &[u8],
    stim: &[u8],
    recorded: &[u8],
    next: &mut [u8],
    line: &mut [u8],
) -> usize
    requires { (length sheet.now ≤ length next.old) × (line_bytes ≤ length line.old) }
    ensures { LineTold sheet.now stim.now recorded.now line.new result }
{
    let long = sheet.len();
    let told = replay(sheet, stim, recorded, &mut next[0..long]);
    let result = told.result;
    let mut text = Text::new(line);
    if result != 0 {
        let code = code_of(result);
        let place = place_of(result);
        text.put_refused(code, place);
        return text.len();
    }
    if told.differs != 0 {
        text.put_numbers_line(b"cycle ", told.cycle, b" leaf ", told.leaf);
        return text.len();
    }
    text.put_word_line(b"agrees ", told.cycle);
    text.len()
}
