// The classes of bytes.
ghost use Rattle.std.specs.Prelude.{◌≡◌, ◌+◌, ◌≤◌, ◌<◌, ◌↔◌, IsTrue, min};
ghost use Rattle.grammar.specs.Tokens.{unlettered};
ghost use Rattle.recognizer.specs.Coded.{capitals, position, class_number, class_of};
ghost use Rattle.recognizer.specs.Classes.{class_index};

use crate::numbers::LEAD_CLASSES;

// What a byte is to the machine. The classes that a token can begin with come first, in the order of
// the columns of the machine's tables.
#[derive(Clone, Copy, Debug, PartialEq, Eq)]
pub enum Class {
    // Of the symbols:
    SymbolOpens,
    SymbolCloses,
    SymbolComma,
    SymbolEquals,
    SymbolBar,
    SymbolQuery,
    SymbolIndexOpens,
    SymbolIndexCloses,
    SymbolOne,
    SymbolTwo,
    SmallLetter,
    // The capitals that a keyword begins with, and the others.
    CapitalT,
    CapitalI,
    CapitalL,
    CapitalR,
    CapitalM,
    CapitalE,
    CapitalD,
    OtherCapital,
    Blank,
    OtherByte,
}

impl Class {
    // The class of a byte.
    pub fn of(b: u8) -> Class
        ensures { class_index result ≡ class_of b }
    {
        if b.is_ascii_lowercase() {
            return Class::SmallLetter;
        }
        if b.is_ascii_uppercase() {
            return Class::of_capital(b);
        }
        Class::of_unlettered(b)
    }

    // The class of a capital: those that a keyword begins with have one each.
    fn of_capital(b: u8) -> Class
        ensures { class_index result ≡ 11 + position b capitals }
    {
        match b {
            b'T' => Class::CapitalT,
            b'I' => Class::CapitalI,
            b'L' => Class::CapitalL,
            b'R' => Class::CapitalR,
            b'M' => Class::CapitalM,
            b'E' => Class::CapitalE,
            b'D' => Class::CapitalD,
            _ => Class::OtherCapital,
        }
    }

    // The class of a byte that is no letter: each symbol has one.
    fn of_unlettered(b: u8) -> Class
        ensures { class_index result ≡ class_number (unlettered b) b }
    {
        match b {
            b' ' | b'\n' => Class::Blank,
            b'(' => Class::SymbolOpens,
            b')' => Class::SymbolCloses,
            b',' => Class::SymbolComma,
            b'=' => Class::SymbolEquals,
            b'|' => Class::SymbolBar,
            b'?' => Class::SymbolQuery,
            b'[' => Class::SymbolIndexOpens,
            b']' => Class::SymbolIndexCloses,
            b'1' => Class::SymbolOne,
            b'2' => Class::SymbolTwo,
            _ => Class::OtherByte,
        }
    }

    // Its number among the classes, which is the column of one that a token can begin with.
    pub fn index(self) -> usize
        ensures { result ≡ class_index self }
    {
        self as usize
    }

    // Whether a token can begin with such a byte.
    pub fn is_lead(self) -> bool
        ensures { IsTrue result ↔ (class_index self < 18) }
    {
        self.index() < LEAD_CLASSES
    }

    // Whether it is the class of a symbol.
    pub fn is_symbol(self) -> bool
        ensures { IsTrue result ↔ (class_index self < 10) }
    {
        self.index() < Class::SmallLetter.index()
    }

    // Whether it is a class of letters.
    pub fn is_letter(self) -> bool
        ensures { IsTrue result ↔ ((10 ≤ class_index self) × (class_index self ≤ 18)) }
    {
        matches!(
            self,
            Class::SmallLetter
                | Class::CapitalT
                | Class::CapitalI
                | Class::CapitalL
                | Class::CapitalR
                | Class::CapitalM
                | Class::CapitalE
                | Class::CapitalD
                | Class::OtherCapital
        )
    }

    // Whether it is the class of small letters.
    pub fn is_small_letter(self) -> bool
        ensures { IsTrue result ↔ (class_index self ≡ 10) }
    {
        matches!(self, Class::SmallLetter)
    }

    // Whether it is the class of blanks.
    pub fn is_blank(self) -> bool
        ensures { IsTrue result ↔ (class_index self ≡ 19) }
    {
        matches!(self, Class::Blank)
    }
}

// By its number among the classes; a number past the last is that of any other byte.
impl From<u8> for Class {
    ghost from_gives = { λ number class. class_index class ≡ min number 20 };

    fn from(number: u8) -> Class {
        match number {
            0 => Class::SymbolOpens,
            1 => Class::SymbolCloses,
            2 => Class::SymbolComma,
            3 => Class::SymbolEquals,
            4 => Class::SymbolBar,
            5 => Class::SymbolQuery,
            6 => Class::SymbolIndexOpens,
            7 => Class::SymbolIndexCloses,
            8 => Class::SymbolOne,
            9 => Class::SymbolTwo,
            10 => Class::SmallLetter,
            11 => Class::CapitalT,
            12 => Class::CapitalI,
            13 => Class::CapitalL,
            14 => Class::CapitalR,
            15 => Class::CapitalM,
            16 => Class::CapitalE,
            17 => Class::CapitalD,
            18 => Class::OtherCapital,
            19 => Class::Blank,
            _ => Class::OtherByte,
        }
    }
}
