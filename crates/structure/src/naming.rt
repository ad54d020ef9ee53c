// Which words name each record: code 4.
ghost use Rattle.std.specs.Prelude.{◌≡◌, ℕ, ◌+◌, ◌*◌, ◌<◌, ◌⊎◌, List, [], ◌∷◌, ◌++◌, get_or, MatchOption};
ghost use Rattle.records.specs.Words.{count};
ghost use Rattle.records.specs.Limits.{most_records};
ghost use Rattle.records.specs.Kinded.{ask_meant};
ghost use Rattle.records.specs.Says.{Naming as SaidNaming, names, namings, namings_in};
ghost use Rattle.answers.specs.Answers.{lowest};
ghost use Rattle.answers.specs.Searches.{found};
ghost use Rattle.structure.specs.Rules.{wrong_naming};
ghost use Rattle.structure.specs.NamerTable.{summary, named_several, ByWords, NamingsAdded, NamingsHeld};
ghost use Rattle.structure.specs.NamerEntries.{entry_of, FitsEntry, NamingNoted};

use crate::search::lowest_record;
use records::{Ask, RECORDS, Sheet, WORD_D, WORD_NEXT, WORDS};
use std::marker::Model;

// A word that names a record: the record that it stands in, and its number there.
#[derive(Clone, Copy, Debug, PartialEq, Eq)]
pub struct Naming {
    pub by: usize,
    pub at: usize,
}

// How a record is named.
#[derive(Clone, Copy, Debug, PartialEq, Eq)]
enum Named {
    Nowhere,
    // Well, and first by this word; several words d share a pattern.
    Well(Naming),
    Badly,
}

// In 16 bits a record that is well named is this number times the record that first names it, plus one more than the word's number.
const NAMER_STEP: usize = 8;

const NAMED_BADLY: u16 = 65535;

impl From<u16> for Named {
    ghost from_gives = { λ entry named. (entry_of named ≡ entry) × FitsEntry named };

    fn from(entry: u16) -> Named {
        match entry {
            0 => Named::Nowhere,
            NAMED_BADLY => Named::Badly,
            _ => {
                let word = usize::from(entry) - 1;
                Named::Well(Naming {
                    by: word / NAMER_STEP,
                    at: word % NAMER_STEP,
                })
            }
        }
    }
}

impl Named {
    fn entry(self) -> u16
        requires { FitsEntry self }
        ensures { result ≡ entry_of self }
    {
        match self {
            Named::Nowhere => 0,
            Named::Well(first) => (NAMER_STEP * first.by + first.at + 1) as u16,
            Named::Badly => NAMED_BADLY,
        }
    }

    // How a record is named that one word more names.
    fn with(self, naming: Naming) -> Named
        requires { FitsEntry self × (naming.by < most_records) × (naming.at < 6) }
        ensures summed { (ns : List SaidNaming) → ByWords ns → entry_of self ≡ summary ns → entry_of result ≡ summary (ns ++ (record { by = naming.by; at = naming.at } ∷ [])) }
        ensures fits { FitsEntry result }
    {
        match self {
            Named::Nowhere => Named::Well(naming),
            Named::Well(first) if naming.at == WORD_D && first.at == naming.at => self,
            _ => Named::Badly,
        }
    }
}

// How each record is named, in 16 bits each.
#[derive(Clone, Copy)]
pub struct NamingTable {
    entries: [u16; RECORDS],
}

impl Model for NamingTable {
    ghost Value = { List ℕ };

    ghost view = { λ n. n.entries };

    ghost inverse = { λ entries. record { entries = entries } };
}

impl NamingTable {
    // Nothing is named.
    pub fn new() -> NamingTable
        ensures { NamingsHeld (λ _. []) result }
    {
        NamingTable {
            entries: [0; RECORDS],
        }
    }

    // Fills an empty table with what the records of a sheet name. It is filled in place: one that
    // is handed back filled stands on the stack twice.
    pub fn note_all(&mut self, sheet: &Sheet)
        requires { NamingsHeld (λ _. []) self.old }
        ensures { NamingsHeld (namings sheet.now) self.new }
    {
        for q in 0..sheet.records() {
            self.note_record(sheet, q);
        }
    }

    // What the records of a sheet name.
    pub fn of(sheet: &Sheet) -> NamingTable
        ensures { NamingsHeld (namings sheet.now) result }
    {
        let mut table = NamingTable::new();
        table.note_all(sheet);
        table
    }

    // Adds what the words of record q name.
    fn note_record(&mut self, sheet: &Sheet, q: usize)
        requires { (q < count sheet.now) × (q < most_records) }
        ensures { NamingsAdded (λ r. namings_in sheet.now r q 5) self.old self.new }
    {
        let asks = sheet.kind(q).asks();
        for at in WORD_NEXT..WORDS {
            self.note(asks[at], sheet.word(q, at), Naming { by: q, at });
        }
    }

    // Adds what a word with rec in it names, by what is asked of it.
    fn note(&mut self, ask: Ask, rec: usize, naming: Naming)
        requires { (naming.by < most_records) × (naming.at < 6) }
        ensures { NamingNoted (names (ask_meant ask)) rec naming.by naming.at self.old self.new }
    {
        if ask.names() && rec < RECORDS {
            self.entries[rec] = Named::from(self.entries[rec]).with(naming).entry();
        }
    }

    // The word that names a record, the first where several share a pattern, if it is well named.
    pub fn namer(&self, rec: usize) -> Option<Naming>
        requires { rec < most_records }
        ensures { MatchOption result ((get_or self.now rec 0 ≡ 0) ⊎ (get_or self.now rec 0 ≡ named_several)) (λ naming. (get_or self.now rec 0 ≡ 8 * naming.by + naming.at + 1) × (naming.at < 8) × (get_or self.now rec 0 < named_several)) }
    {
        match Named::from(self.entries[rec]) {
            Named::Well(first) => Some(first),
            Named::Nowhere | Named::Badly => None,
        }
    }

    // Whether a record is not well named.
    fn is_wrong(&self, rec: usize) -> bool
        requires { (0 < rec) × (rec < most_records) }
        ensures { (s : List ℕ) → NamingsHeld (namings s) self.now → result ≡ wrong_naming s rec }
    {
        self.namer(rec).is_none()
    }

    // The lowest record that is not well named: code 4.
    pub fn first_wrong(&self, sheet: &Sheet) -> Option<usize>
        ensures { (s : List ℕ) → NamingsHeld (namings s) self.now → found result ≡ lowest (wrong_naming s) (count sheet.now) }
    {
        lowest_record(sheet, 1, |rec| self.is_wrong(rec))
    }
}
