// The types of patterns, each found once, and held against the types that IFs test.
ghost use Rattle.std.specs.Prelude.{◌≡◌, ℕ, ◌<◌, List, length, get_or, eqb};
ghost use Rattle.records.specs.Kinds.{patterns};
ghost use Rattle.records.specs.Says.{sort_at};
ghost use Rattle.records.specs.Words.{count};
ghost use Rattle.records.specs.Limits.{word_bound, most_records};
ghost use Rattle.structure.specs.PairIndex.{Indexed, some_record};
ghost use Rattle.structure.specs.Rules.{Passes};
ghost use Rattle.typing.specs.PatternTable.{TypedOne, TypedAll, PatternsTyped, TypingPattern, or_zero};

use records::{Kind, RECORDS, Sheet, WORD_A, WORD_B, WORD_NEXT};
use std::marker::Model;
use structure::PairIndex;

// By pattern record the type that all alternatives from it have, 0 where there is none: two bytes a record.
#[derive(Drop)]
pub struct PatternTypes {
    types: [u16; RECORDS],
}

impl Model for PatternTypes {
    ghost Value = { List ℕ };

    ghost view = { λ p. p.types };
}

impl PatternTypes {
    // The types of no patterns.
    pub fn new() -> PatternTypes
        ensures { (s : List ℕ) → PatternsTyped s (count s) result }
    {
        PatternTypes {
            types: [0; RECORDS],
        }
    }

    // The type of all alternatives from p.
    fn of(&self, p: usize) -> Option<usize>
        requires { (p < most_records) × (length self.now ≡ most_records) }
        ensures { result ≡ some_record (get_or self.now p 0) }
    {
        match self.types[p] {
            0 => None,
            t => Some(usize::from(t)),
        }
    }

    // Whether each alternative from p has type t.
    pub fn fits(&self, p: usize, t: usize) -> bool
        requires { (p < most_records) × (length self.now ≡ most_records) }
        ensures { result ≡ eqb (get_or self.now p 0) t }
    {
        usize::from(self.types[p]) == t
    }

    // The type of the alternative at p: a pair pattern's is the pair type of its parts' types.
    fn one_type(&self, sheet: &Sheet, index: &PairIndex, p: usize) -> Option<usize>
        requires { TypingPattern sheet.now (count sheet.now) index.now self.now p × (sort_at sheet.now p ≡ patterns) }
        ensures { TypedOne sheet.now p (or_zero result) × (or_zero result < word_bound) }
    {
        let a = sheet.word(p, WORD_A);
        if sheet.kind(p) == Kind::PairPattern {
            index.pair_of(sheet, self.of(a)?, self.of(sheet.word(p, WORD_B))?)
        } else {
            Some(a)
        }
    }

    // The type that all alternatives from p have.
    fn common_type(&self, sheet: &Sheet, index: &PairIndex, p: usize) -> Option<usize>
        requires { TypingPattern sheet.now (count sheet.now) index.now self.now p × (sort_at sheet.now p ≡ patterns) }
        ensures { TypedAll sheet.now p (or_zero result) × (or_zero result < word_bound) }
    {
        let one = self.one_type(sheet, index, p);
        let following = sheet.word(p, WORD_NEXT);
        if following != 0 && self.of(following) != one {
            return None;
        }
        one
    }

    // Notes the type of the alternatives from p, where it is a pattern.
    fn note(&mut self, sheet: &Sheet, index: &PairIndex, p: usize)
        requires { TypingPattern sheet.now (count sheet.now) index.now self.old p }
        ensures { PatternsTyped sheet.now p self.new }
    {
        match sheet.kind(p) {
            Kind::WholePattern | Kind::ConstructorPattern | Kind::PairPattern => {
                self.types[p] = self.common_type(sheet, index, p).unwrap_or(0) as u16;
            }
            _ => {}
        }
    }

    // Notes the type of every pattern, the last record first.
    pub fn note_all(&mut self, sheet: &Sheet, index: &PairIndex)
        requires { Passes sheet.now × Indexed sheet.now (count sheet.now) index.now × PatternsTyped sheet.now (count sheet.now) self.old }
        ensures { PatternsTyped sheet.now 0 self.new }
    {
        for rec in (0..sheet.records()).rev() {
            self.note(sheet, index, rec);
        }
    }
}
