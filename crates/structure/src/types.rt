// The leaf counts of types, and what type records may not be: code 5.
ghost use Rattle.std.specs.Prelude.{◌≡◌, ℕ, ◌+◌, min, ◌≤◌, ◌<◌, List, None};
ghost use Rattle.records.specs.Words.{count};
ghost use Rattle.records.specs.Written.{Written};
ghost use Rattle.records.specs.Limits.{most_records, past_leaves};
ghost use Rattle.structure.specs.LeafTable.{LeavesCounted};
ghost use Rattle.structure.specs.PairIndex.{Indexed};
ghost use Rattle.structure.specs.Rules.{wrong_type};
ghost use Rattle.answers.specs.Answers.{lowest};
ghost use Rattle.answers.specs.Searches.{found};

use crate::pairs::PairIndex;
use records::{Kind, MOST_LEAVES, RECORDS, Sheet, WORD_A, WORD_B, WidthTable};

// The entry of a table of leaf counts for a type that has more leaves than it may.
const TOO_WIDE: u8 = MOST_LEAVES + 1;

// A table of leaf counts with no count in it. It stays an array, as the calls that C makes keep it among their fixed memory.
pub fn no_leaves() -> WidthTable
    ensures { (s : List ℕ) → LeavesCounted s 0 result }
{
    [0; RECORDS]
}

// The sum, and 65 where it is more.
pub fn capped_sum(x: u8, y: u8) -> u8
    requires { (x ≤ past_leaves) × (y ≤ past_leaves) }
    ensures { result ≡ min past_leaves (x + y) }
{
    (x + y).min(TOO_WIDE)
}

// Adds record rec to a table that has the leaf counts of the types below it.
fn count_type(sheet: &Sheet, rec: usize, table: &mut WidthTable)
    requires { (rec < count sheet.now) × Written sheet.now × LeavesCounted sheet.now rec table.old }
    ensures { LeavesCounted sheet.now (rec + 1) table.new }
{
    match sheet.kind(rec) {
        Kind::FlatType => table[rec] = 1,
        Kind::PairType => {
            let a = sheet.word(rec, WORD_A);
            let b = sheet.word(rec, WORD_B);
            table[rec] = capped_sum(table[a], table[b]);
        }
        _ => {}
    }
}

// Fills an empty table with the leaf counts of all types.
pub fn count_types(sheet: &Sheet, table: &mut WidthTable)
    requires { Written sheet.now × LeavesCounted sheet.now 0 table.old }
    ensures { LeavesCounted sheet.now (count sheet.now) table.new }
{
    for rec in 0..sheet.records() {
        count_type(sheet, rec, table);
    }
}

// Whether a pair type has the parts of a lower one, or over 64 leaves: code 5. The index of the pair types below rec gets rec.
fn wrong_type(sheet: &Sheet, rec: usize, table: &WidthTable, index: &mut PairIndex) -> bool
    requires { (rec < count sheet.now) × (rec < most_records) × LeavesCounted sheet.now (count sheet.now) table.now × Indexed sheet.now rec index.old }
    ensures { (result ≡ wrong_type sheet.now rec) × Indexed sheet.now (rec + 1) index.new }
{
    let lower = index.note(sheet, rec);
    sheet.kind(rec) == Kind::PairType && (MOST_LEAVES < table[rec] || lower.is_some())
}

// The lowest type record that is wrong: code 5. Where there is none, an empty index then has all
// pair types. A loop of its own, as its test adds to the index, and that of `lowest_record` changes nothing.
pub fn first_wrong_type(sheet: &Sheet, table: &WidthTable, index: &mut PairIndex) -> Option<usize>
    requires { LeavesCounted sheet.now (count sheet.now) table.now × Indexed sheet.now 0 index.old }
    ensures { (found result ≡ lowest (wrong_type sheet.now) (count sheet.now)) × (result ≡ None → Indexed sheet.now (count sheet.now) index.new) }
{
    for rec in 0..sheet.records() {
        if wrong_type(sheet, rec, table, index) {
            return Some(rec);
        }
    }
    None
}
