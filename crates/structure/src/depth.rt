// How deep each expression lies, and in how many feedbacks' defining parts: code 6.
ghost use Rattle.std.specs.Prelude.{◌≡◌, ℕ, List, cond, ◌+◌, min, ◌≤◌, ◌<◌};
ghost use Rattle.records.specs.Words.{count};
ghost use Rattle.records.specs.Limits.{most_records};
ghost use Rattle.records.specs.Says.{namings};
ghost use Rattle.records.specs.Written.{Written, WellNamed};
ghost use Rattle.structure.specs.Rules.{of_defining_part, too_deep};
ghost use Rattle.structure.specs.NamerTable.{NamingsHeld};
ghost use Rattle.structure.specs.DepthTable.{Placed, Placing};
ghost use Rattle.answers.specs.Answers.{lowest};
ghost use Rattle.answers.specs.Searches.{found};

use crate::naming::{Naming, NamingTable};
use crate::search::lowest_record;
use records::{Kind, MOST_DEPTH, MOST_NESTING, RECORDS, Sheet, Sort, WORD_B};

// What is noted for what lies deeper, or in more feedbacks, than it may.
const PAST_DEPTH: u8 = MOST_DEPTH + 1;

const PAST_NESTING: u8 = MOST_NESTING + 1;

// The nesting of what a word names, where that of its record is x.
fn nested(sheet: &Sheet, naming: Naming, x: u8) -> u8
    requires { (naming.by < count sheet.now) × (x ≤ 4) }
    ensures { result ≡ cond (of_defining_part sheet.now (record { by = naming.by; at = naming.at })) (min 4 (x + 1)) x }
{
    if naming.at == WORD_B && sheet.kind(naming.by) == Kind::Feedback {
        return (x + 1).min(PAST_NESTING);
    }
    x
}

// How deep each record lies, and in how many feedbacks' defining parts.
#[derive(Clone, Copy)]
pub struct Placements {
    depths: [u8; RECORDS],
    nestings: [u8; RECORDS],
}

impl Placements {
    // Only the header is placed.
    pub fn new() -> Placements
        ensures { (s : List ℕ) → Placed s 1 result.depths result.nestings }
    {
        Placements {
            depths: [0; RECORDS],
            nestings: [0; RECORDS],
        }
    }

    // Places all records after the header. The tables are filled in place, as a `NamingTable` is.
    pub fn place_all(&mut self, sheet: &Sheet, table: &NamingTable)
        requires { Written sheet.now × WellNamed sheet.now × NamingsHeld (namings sheet.now) table.now × Placed sheet.now 1 self.old.depths self.old.nestings }
        ensures { Placed sheet.now (count sheet.now) self.new.depths self.new.nestings }
    {
        for rec in 1..sheet.records() {
            self.place(sheet, rec, table);
        }
    }

    // Where all records of a sheet lie.
    pub fn of(sheet: &Sheet, table: &NamingTable) -> Placements
        requires { Written sheet.now × WellNamed sheet.now × NamingsHeld (namings sheet.now) table.now }
        ensures { Placed sheet.now (count sheet.now) result.depths result.nestings }
    {
        let mut placed = Placements::new();
        placed.place_all(sheet, table);
        placed
    }

    // Adds record rec to the depths and nestings of the records below it.
    fn place(&mut self, sheet: &Sheet, rec: usize, table: &NamingTable)
        requires { Placing sheet.now (count sheet.now) rec table.now self.old.depths self.old.nestings × (rec < count sheet.now) }
        ensures { Placed sheet.now (rec + 1) self.new.depths self.new.nestings }
    {
        if let Some(naming) = table.namer(rec) {
            let nesting = self.nestings[naming.by];
            self.depths[rec] = (self.depths[naming.by] + 1).min(PAST_DEPTH);
            self.nestings[rec] = nested(sheet, naming, nesting);
        }
    }

    // Whether an expression lies too deep, or in over three feedbacks: code 6.
    fn too_deep(&self, sheet: &Sheet, rec: usize) -> bool
        requires { (rec < count sheet.now) × (rec < most_records) × Placed sheet.now (count sheet.now) self.now.depths self.now.nestings }
        ensures { result ≡ too_deep sheet.now rec }
    {
        sheet.kind(rec).sort() == Sort::Expressions
            && (MOST_DEPTH < self.depths[rec] || MOST_NESTING < self.nestings[rec])
    }

    pub fn first_too_deep(&self, sheet: &Sheet) -> Option<usize>
        requires { Placed sheet.now (count sheet.now) self.now.depths self.now.nestings }
        ensures { found result ≡ lowest (too_deep sheet.now) (count sheet.now) }
    {
        lowest_record(sheet, 0, |rec| self.too_deep(sheet, rec))
    }
}
