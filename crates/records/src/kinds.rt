// The table of kinds: each kind's number, its sort, and what its words ask.
ghost use Rattle.std.specs.Prelude.{◌≡◌, map};
ghost use Rattle.records.specs.Kinds.{kind_of, sort_of};
ghost use Rattle.records.specs.Says.{names};
ghost use Rattle.records.specs.Kinded.{kind_meant, kind_number, sort_meant, ask_meant, asks_of};

use crate::WORDS;

// What a record is, by its number; a number that stands for no kind is unknown.
#[derive(Clone, Copy, Debug, PartialEq, Eq)]
pub enum Kind {
    Unknown = 0,
    Header = 1,
    FlatType = 16,
    PairType = 17,
    Constant = 32,
    Name = 33,
    Pair = 34,
    First = 35,
    Second = 36,
    Let = 37,
    Feedback = 38,
    If = 39,
    Delay = 40,
    WholePattern = 48,
    ConstructorPattern = 49,
    PairPattern = 50,
    Leaf = 64,
}

// The sorts of records.
#[derive(Clone, Copy, Debug, PartialEq, Eq)]
pub enum Sort {
    None,
    Headers,
    Types,
    Expressions,
    Patterns,
    Leaves,
}

// What a word asks of the number in it.
#[derive(Clone, Copy, Debug, PartialEq, Eq)]
pub enum Ask {
    Zeroed,
    // Zero, or a higher record of this sort, which the word names.
    NextOf(Sort),
    // A higher record of this sort, which the word names.
    Part(Sort),
    AnyType,
    LowerType,
    LowerFlat,
    // A constructor of the flat type in word a.
    ConstructorOf,
    // From 1 to 255.
    Counted,
    Byte,
    Free,
    // The number of records.
    Total,
    Never,
}

impl From<usize> for Kind {
    ghost from_gives = { λ number kind. kind_meant kind ≡ kind_of number };

    #[inline(always)]
    fn from(number: usize) -> Kind {
        match number {
            1 => Kind::Header,
            16 => Kind::FlatType,
            17 => Kind::PairType,
            32 => Kind::Constant,
            33 => Kind::Name,
            34 => Kind::Pair,
            35 => Kind::First,
            36 => Kind::Second,
            37 => Kind::Let,
            38 => Kind::Feedback,
            39 => Kind::If,
            40 => Kind::Delay,
            48 => Kind::WholePattern,
            49 => Kind::ConstructorPattern,
            50 => Kind::PairPattern,
            64 => Kind::Leaf,
            _ => Kind::Unknown,
        }
    }
}

impl Kind {
    pub fn number(self) -> u16
        ensures { result ≡ kind_number self }
    {
        self as u16
    }

    pub fn sort(self) -> Sort
        ensures { sort_meant result ≡ sort_of (kind_meant self) }
    {
        match self {
            Kind::Unknown => Sort::None,
            Kind::Header => Sort::Headers,
            Kind::FlatType | Kind::PairType => Sort::Types,
            Kind::Constant
            | Kind::Name
            | Kind::Pair
            | Kind::First
            | Kind::Second
            | Kind::Let
            | Kind::Feedback
            | Kind::If
            | Kind::Delay => Sort::Expressions,
            Kind::WholePattern | Kind::ConstructorPattern | Kind::PairPattern => Sort::Patterns,
            Kind::Leaf => Sort::Leaves,
        }
    }

    // What the words kind, next, a, b, c and d of a record of this kind ask.
    pub fn asks(self) -> [Ask; WORDS]
        ensures { map ask_meant result ≡ asks_of self }
    {
        use Ask::{AnyType, Byte, ConstructorOf, Counted, Free, LowerFlat, LowerType};
        use Ask::{Never, NextOf, Part, Total, Zeroed};
        use Sort::{Expressions, Leaves, Patterns, Types};

        match self {
            Kind::Header => [Free, Part(Types), AnyType, Part(Expressions), Total, Zeroed],
            Kind::FlatType => [Free, NextOf(Types), Counted, Zeroed, Zeroed, Zeroed],
            Kind::PairType => [Free, NextOf(Types), LowerType, LowerType, Zeroed, Zeroed],
            Kind::Constant => [Free, Zeroed, LowerType, Part(Leaves), Zeroed, Zeroed],
            Kind::Name => [Free, Zeroed, Free, Zeroed, Zeroed, Zeroed],
            Kind::Pair => [
                Free,
                Zeroed,
                Part(Expressions),
                Part(Expressions),
                Zeroed,
                Zeroed,
            ],
            Kind::First => [Free, Zeroed, Part(Expressions), Zeroed, Zeroed, Zeroed],
            Kind::Second => [Free, Zeroed, Part(Expressions), Zeroed, Zeroed, Zeroed],
            Kind::Let => [
                Free,
                Zeroed,
                Part(Expressions),
                Part(Expressions),
                Zeroed,
                Zeroed,
            ],
            Kind::Feedback => {
                [
                    Free,
                    Zeroed,
                    LowerType,
                    Part(Expressions),
                    Part(Expressions),
                    Zeroed,
                ]
            }
            Kind::If => {
                [
                    Free,
                    Zeroed,
                    Part(Expressions),
                    Part(Expressions),
                    Part(Expressions),
                    Part(Patterns),
                ]
            }
            Kind::Delay => [
                Free,
                Zeroed,
                LowerType,
                Part(Leaves),
                Part(Expressions),
                Free,
            ],
            Kind::WholePattern => [Free, NextOf(Patterns), LowerType, Zeroed, Zeroed, Zeroed],
            Kind::ConstructorPattern => {
                [
                    Free,
                    NextOf(Patterns),
                    LowerFlat,
                    ConstructorOf,
                    Zeroed,
                    Zeroed,
                ]
            }
            Kind::PairPattern => {
                [
                    Free,
                    NextOf(Patterns),
                    Part(Patterns),
                    Part(Patterns),
                    Zeroed,
                    Zeroed,
                ]
            }
            Kind::Leaf => [Free, NextOf(Leaves), Byte, Zeroed, Zeroed, Zeroed],
            Kind::Unknown => [Free, Never, Never, Never, Never, Never],
        }
    }
}

impl Ask {
    // Whether a word that asks this names the record in it.
    pub fn names(self) -> bool
        ensures { result ≡ names (ask_meant self) }
    {
        matches!(self, Ask::NextOf(_) | Ask::Part(_))
    }
}
