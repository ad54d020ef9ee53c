// The types of the names in scope.
ghost use Rattle.std.specs.Prelude.{◌≡◌, ℕ, List, [], ◌∷◌, ◌<◌, ◌≤◌, length, get_or, MatchOption};
ghost use Rattle.typing.specs.Judging.{scope_of};
ghost use Rattle.records.specs.Limits.{word_bound, most_depth};

use records::MOST_NAMES;
use std::marker::Model;

// Seen as the list of the types, innermost first; kept the other way round, so that a name more is one at the end.
#[derive(Drop)]
pub struct Scope {
    types: [u16; MOST_NAMES],
    names: usize,
}

impl Model for Scope {
    ghost Value = { List ℕ };

    ghost view = { λ s. scope_of s.names s.types };

    ghost invariant = { λ s. s.names ≤ most_depth };
}

impl Scope {
    // The names in scope of the whole circuit: the input alone, of type t.
    pub fn of_input(t: usize) -> Scope
        requires { t < word_bound }
        ensures { result ≡ t ∷ [] }
    {
        let mut types = [0; MOST_NAMES];
        types[0] = t as u16;
        Scope { types, names: 1 }
    }

    // These names and one more, of type t.
    pub fn with(&self, t: usize) -> Scope
        requires { (length self.now < most_depth) × (t < word_bound) }
        ensures { result ≡ t ∷ self.now }
    {
        let mut types = self.types;
        types[self.names] = t as u16;
        Scope {
            types,
            names: self.names + 1,
        }
    }

    // The type of name k, the innermost being 0; none where there are no so many names.
    pub fn look_up(&self, k: usize) -> Option<usize>
        ensures { MatchOption result (length self.now ≤ k) (λ t. (k < length self.now) × (t ≡ get_or self.now k 0)) }
    {
        if self.names <= k {
            return None;
        }
        Some(usize::from(self.types[self.names - 1 - k]))
    }
}
