// The pair types of a sheet by their parts. For each first part they stand in a tree: at its root the first of them, and below
// a pair type two slots, one for each bit of the second part, the lowest bit first. So a search tries at most one pair type for
// each bit, and one more.
ghost use Rattle.std.specs.Prelude.{◌≡◌, ℕ, ◌+◌, ◌<◌, ◌≤◌, List, get_or, true, false, MatchOption};
ghost use Rattle.records.specs.Words.{count};
ghost use Rattle.records.specs.Limits.{most_records};
ghost use Rattle.records.specs.Trees.{is_pair_of, pair_below};
ghost use Rattle.structure.specs.PairIndex.{Linked, Indexed, SlotFound, another, lower_pair, pair_slots, some_record};

use records::{Kind, RECORDS, Sheet, WORD_A, WORD_B};
use std::marker::Model;

// A slot for each first part, then two below each record; 0 where a slot is empty.
const SLOTS: usize = 3 * RECORDS;

#[derive(Clone, Copy)]
pub struct PairIndex {
    slots: [u16; SLOTS],
}

impl Model for PairIndex {
    ghost Value = { List ℕ };

    ghost view = { λ i. i.slots };

    ghost inverse = { λ slots. record { slots = slots } };
}

// Whether record q is the pair type of a and b.
fn is_pair_of(sheet: &Sheet, a: usize, b: usize, q: usize) -> bool
    requires { q < count sheet.now }
    ensures { result ≡ is_pair_of sheet.now a b q }
{
    sheet.kind(q) == Kind::PairType && sheet.word(q, WORD_A) == a && sheet.word(q, WORD_B) == b
}

impl PairIndex {
    // The index of no pair type.
    pub fn new() -> PairIndex
        ensures { (s : List ℕ) → Indexed s 0 result }
    {
        PairIndex { slots: [0; SLOTS] }
    }

    // The pair type in a slot.
    fn held(&self, slot: usize) -> Option<usize>
        requires { slot < pair_slots }
        ensures { result ≡ some_record (get_or self.now slot 0) }
    {
        match self.slots[slot] {
            0 => None,
            rec => Some(usize::from(rec)),
        }
    }

    // The pair type in a slot, where it has other parts.
    fn another(&self, sheet: &Sheet, a: usize, b: usize, slot: usize) -> Option<usize>
        requires { Linked (count sheet.now) self.now × (slot < pair_slots) }
        ensures { MatchOption result (another sheet.now self.now a b slot ≡ false) (λ q. (another sheet.now self.now a b slot ≡ true) × (q ≡ get_or self.now slot 0)) }
    {
        match self.held(slot) {
            Some(q) if !is_pair_of(sheet, a, b, q) => Some(q),
            _ => None,
        }
    }

    // The slot at which the search for the pair type of a and b ends: that type's, or an empty one.
    fn slot_of(&self, sheet: &Sheet, a: usize, b: usize) -> usize
        requires { Linked (count sheet.now) self.now }
        ensures { SlotFound sheet.now self.now a b result × (result < pair_slots) × (count sheet.now ≤ most_records) }
    {
        // No sheet has more records than have slots here.
        let _records = sheet.records();
        let mut slot = a % RECORDS;
        let mut rest = b;
        while let Some(q) = self.another(sheet, a, b, slot) {
            slot = RECORDS + 2 * q + rest % 2;
            rest /= 2;
        }
        slot
    }

    // The pair type of a and b.
    pub fn pair_of(&self, sheet: &Sheet, a: usize, b: usize) -> Option<usize>
        requires { Indexed sheet.now (count sheet.now) self.now }
        ensures { result ≡ some_record (pair_below sheet.now a b (count sheet.now)) }
    {
        self.held(self.slot_of(sheet, a, b))
    }

    // Adds record rec to the index of the pair types below it, unless one of them has its parts; gives that one.
    pub fn note(&mut self, sheet: &Sheet, rec: usize) -> Option<usize>
        requires { (rec < count sheet.now) × Indexed sheet.now rec self.old }
        ensures { (result ≡ some_record (lower_pair sheet.now rec)) × Indexed sheet.now (rec + 1) self.new }
    {
        if sheet.kind(rec) != Kind::PairType {
            return None;
        }
        let slot = self.slot_of(sheet, sheet.word(rec, WORD_A), sheet.word(rec, WORD_B));
        let lower = self.held(slot);
        if lower.is_none() {
            self.slots[slot] = rec as u16;
        }
        lower
    }
}
