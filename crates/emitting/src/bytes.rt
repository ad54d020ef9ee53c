// The records of a sheet put into its bytes, the last first.
ghost use Rattle.std.specs.Prelude.{◌≡◌, ◌+◌, ◌-◌, ◌*◌, ◌≤◌, length, drop, replicate};
ghost use Rattle.records.specs.SheetOf.{word_then};
ghost use Rattle.emitting.specs.Emitting.{RecordPut, record_numbered, record_of};

use records::{Kind, RECORD_BYTES, WORDS};

fn put_word(sheet: &mut [u8], at: usize, word: u16)
    requires { at + 2 ≤ length sheet.old }
    ensures { (drop at sheet.new ≡ word_then word (drop (at + 2) sheet.old)) × (length sheet.new ≡ length sheet.old) }
{
    sheet[at..at + 2].copy_from_slice(&word.to_le_bytes());
}

// A record before the one at the cursor, by the number of its kind; its number.
pub fn put_numbered(sheet: &mut [u8], cursor: u16, kind: u16, words: [u16; 5]) -> u16
    requires { 12 * cursor ≤ length sheet.old }
    ensures { RecordPut sheet.old sheet.new cursor (record_numbered kind words) result }
{
    if cursor == 0 {
        return 0;
    }
    let [next, a, b, c, d] = words;
    let record = [kind, next, a, b, c, d];
    let start = RECORD_BYTES * usize::from(cursor - 1);
    for k in (0..WORDS).rev() {
        put_word(sheet, start + 2 * k, record[k]);
    }
    cursor - 1
}

// The same by its kind.
pub fn put_record(sheet: &mut [u8], cursor: u16, kind: Kind, words: [u16; 5]) -> u16
    requires { 12 * cursor ≤ length sheet.old }
    ensures { RecordPut sheet.old sheet.new cursor (record_of kind words) result }
{
    put_numbered(sheet, cursor, kind.number(), words)
}

// Zeros from a place to the end.
pub fn clear_from(sheet: &mut [u8], start: usize)
    requires { start ≤ length sheet.old }
    ensures { (drop start sheet.new ≡ replicate (length sheet.old - start) 0) × (length sheet.new ≡ length sheet.old) }
{
    sheet[start..].fill(0);
}
