// What a record says: whether the number in each of its words is what the table asks.
ghost use Rattle.std.specs.Prelude.{◌≡◌, ◌<◌};
ghost use Rattle.records.specs.Words.{count};
ghost use Rattle.records.specs.Kinds.{constructor_of};
ghost use Rattle.records.specs.Kinded.{sort_meant, ask_meant};
ghost use Rattle.records.specs.Says.{higher, meets, well_said};

use crate::kinds::{Ask, Kind, Sort};
use crate::sheet::Sheet;
use crate::{MOST_CONSTRUCTORS, WORD_A, WORD_NEXT, WORDS};

impl Sheet<'_> {
    // Whether w is a record above rec, of this sort.
    fn is_higher(&self, rec: usize, sort: Sort, w: usize) -> bool
        ensures { result ≡ higher self.now rec (sort_meant sort) w }
    {
        rec < w && w < self.records() && self.kind(w).sort() == sort
    }

    // Whether w is a constructor of the flat type in word a of rec.
    fn is_constructor(&self, rec: usize, w: usize) -> bool
        requires { rec < count self.now }
        ensures { result ≡ meets self.now rec constructor_of w }
    {
        let flat = self.word(rec, WORD_A);
        if self.records() <= flat {
            return false;
        }
        0 < w && w <= self.word(flat, WORD_A)
    }

    // Whether w is what is asked of a word of rec.
    fn meets(&self, rec: usize, ask: Ask, w: usize) -> bool
        requires { rec < count self.now }
        ensures { result ≡ meets self.now rec (ask_meant ask) w }
    {
        match ask {
            Ask::Zeroed => w == 0,
            Ask::NextOf(sort) => w == 0 || self.is_higher(rec, sort, w),
            Ask::Part(sort) => self.is_higher(rec, sort, w),
            Ask::AnyType => self.is_higher(0, Sort::Types, w),
            Ask::LowerType => w < rec && self.kind(w).sort() == Sort::Types,
            Ask::LowerFlat => w < rec && self.kind(w) == Kind::FlatType,
            Ask::ConstructorOf => self.is_constructor(rec, w),
            Ask::Counted => 0 < w && w <= MOST_CONSTRUCTORS,
            Ask::Byte => w <= MOST_CONSTRUCTORS,
            Ask::Free => true,
            Ask::Total => w == self.records(),
            Ask::Never => false,
        }
    }

    // Whether every word of a record is what the table asks.
    pub fn well_said(&self, rec: usize) -> bool
        requires { rec < count self.now }
        ensures { result ≡ well_said self.now rec }
    {
        let asks = self.kind(rec).asks();
        for k in WORD_NEXT..WORDS {
            if !self.meets(rec, asks[k], self.word(rec, k)) {
                return false;
            }
        }
        true
    }
}
