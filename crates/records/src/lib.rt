// Reading a sheet: words, kinds, sorts, and whether a word is what the table asks. The numbers of
// the format have their names here and in `kinds`.
#![tactic(auto)]

ghost use Rattle.std.specs.Prelude.{◌≡◌, length};
ghost use Rattle.records.specs.Limits.{most_records};

mod kinds;
mod says;
mod sheet;
mod words;

pub use kinds::{Ask, Kind, Sort};
pub use sheet::Sheet;
pub use words::{offset, records_in};

// The sheet: records of 12 bytes, each six words.
pub const RECORD_BYTES: usize = 12;

pub const RECORDS: usize = 4096;

pub const SHEET_BYTES: usize = RECORDS * RECORD_BYTES;

pub const WORD_KIND: usize = 0;

pub const WORD_NEXT: usize = 1;

pub const WORD_A: usize = 2;

pub const WORD_B: usize = 3;

pub const WORD_C: usize = 4;

pub const WORD_D: usize = 5;

pub const WORDS: usize = 6;

// Limits.
pub const MOST_CONSTRUCTORS: usize = 255;

pub const MOST_NAMES: usize = 64;

pub const MOST_LEAVES: u8 = 64;

// The room of a value: a byte a leaf.
pub const VALUE_BYTES: usize = MOST_LEAVES as usize;

// The room of the names in scope, a value each.
pub const ENVIRONMENT: usize = MOST_NAMES * VALUE_BYTES;

pub const MOST_DEPTH: u8 = 64;

pub const MOST_NESTING: u8 = 3;

// The width of each record's type.
pub type WidthTable = [u8; RECORDS];

// Room for a table of widths.
pub fn no_widths() -> WidthTable
    ensures { length result ≡ most_records }
{
    [0; RECORDS]
}

// Copies a slice over another of its length. A loop, since the library's method calls `memmove`,
// which a host of the calls need not have.
pub fn overwrite<T: Copy>(to: &mut [T], from: &[T])
    requires { length to.old ≡ length from.now }
    ensures { to.new ≡ from.now }
{
    for i in 0..from.len() {
        to[i] = from[i];
    }
}
