// Where a name stands in a text.
ghost use Rattle.std.specs.Prelude.{◌≡◌, ℕ, ◌+◌, ◌*◌, ◌<◌, length};
ghost use Rattle.symbols.specs.Names.{place_of, count_of, letters_at, Inside};

use std::marker::Model;

// A span is the place of a name times this, and the number of its letters.
const SPAN: u32 = 32;

// The place of a name's first letter, and the number of its letters, below 32: four bytes, and a
// place may be any below 2^27. Contracts see both in one number too.
#[derive(Clone, Copy)]
pub struct Span {
    parts: u32,
}

impl Model for Span {
    ghost use Rattle.std.specs.Prelude.{ℕ};

    ghost Value = { ℕ };

    ghost use Rattle.symbols.specs.Spans.{parts_of};

    ghost view = { λ s. s.parts };

    ghost inverse = { parts_of };
}

impl Span {
    // No letters, at the first place.
    pub const NONE: Span = Span { parts: 0 };

    // So many letters from a place on.
    pub fn new(place: u32, count: u32) -> Self
        requires { (place < 134217728) × (count < 32) }
        ensures { result ≡ place * 32 + count }
    {
        Span {
            parts: place * SPAN + count,
        }
    }

    // The place of its first letter.
    fn place(self) -> usize
        ensures { result ≡ place_of self }
    {
        (self.parts / SPAN) as usize
    }

    // How many letters it has.
    fn count(self) -> usize
        ensures { result ≡ count_of self }
    {
        (self.parts % SPAN) as usize
    }

    // Its letters.
    pub fn letters(self, text: &[u8]) -> &[u8]
        requires { Inside text.now self }
        ensures { result.now ≡ letters_at text.now self }
    {
        let start = self.place();
        let end = start + self.count();
        &text[start..end]
    }
}
