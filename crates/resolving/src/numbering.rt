// The numbers of the declared names: of each the types up to it, and the constructors up to it since the last type.
ghost use Rattle.std.specs.Prelude.{◌≡◌, ℕ, cond, suc, ◌≤◌, ◌<◌, List, eqb};
ghost use Rattle.symbols.specs.Names.{entry_number};
ghost use Rattle.symbols.specs.RoleNumbers.{role_code, role_codes};
ghost use Rattle.resolving.specs.Said.{Numbered, entry_in, role_at};
ghost use Rattle.grammar.specs.Legal.{text_bytes};
ghost use Rattle.grammar.specs.Sizes.{text_table};

use symbols::tables::NameRoles;
use symbols::{Role, SYMBOLS};

// A number for each name.
pub type Numbers = [u16; SYMBOLS];

// The numbers of the declared names, in the order in which they are declared.
#[derive(Drop)]
pub struct NameNumbers {
    pub types: Numbers,
    pub ranks: Numbers,
}

// The entry before one, if there is one.
fn before(k: usize) -> Option<usize>
    ensures { entry_number result ≡ k }
{
    if k == 0 { None } else { Some(k - 1) }
}

// What a table has at an entry; 0 for none.
pub fn entry(k: Option<usize>, numbers: &Numbers) -> u16
    requires { entry_number k ≤ text_table }
    ensures { result ≡ entry_in numbers.now (entry_number k) }
{
    match k {
        Some(k) => numbers[k],
        None => 0,
    }
}

// Whether an entry is of a role, a type's or a constructor's.
pub fn has_role(k: Option<usize>, kind: Role, roles: &NameRoles) -> bool
    requires { entry_number k ≤ text_table }
    ensures { result ≡ role_at (role_code kind) (role_codes roles.now) (entry_number k) }
{
    match k {
        Some(k) => roles[k] == kind,
        None => false,
    }
}

// The number of types after a name of a role.
fn types_after(kind: Role, before: u16) -> u16
    requires { before < text_bytes }
    ensures { result ≡ cond (eqb (role_code kind) 0) (suc before) before }
{
    match kind {
        Role::TypeName => before + 1,
        _ => before,
    }
}

// The number of constructors since the last type.
fn ranks_after(kind: Role, before: u16) -> u16
    requires { before < text_bytes }
    ensures { result ≡ cond (eqb (role_code kind) 0) 0 (suc before) }
{
    match kind {
        Role::TypeName => 0,
        _ => before + 1,
    }
}

impl NameNumbers {
    // No name is declared yet.
    pub fn new() -> Self
        ensures { (roles : List ℕ) → Numbered roles result.types result.ranks 0 }
    {
        NameNumbers {
            types: [0; SYMBOLS],
            ranks: [0; SYMBOLS],
        }
    }

    // The names from one number to another get their numbers, by their roles.
    pub fn number_from(&mut self, from: usize, to: usize, roles: &NameRoles)
        requires { Numbered (role_codes roles.now) self.old.types self.old.ranks from × (from ≤ to) × (to ≤ text_bytes) }
        ensures { Numbered (role_codes roles.now) self.new.types self.new.ranks to }
    {
        let last = before(from);
        let mut types = entry(last, &self.types);
        let mut rank = entry(last, &self.ranks);
        for k in from..to {
            types = types_after(roles[k], types);
            rank = ranks_after(roles[k], rank);
            self.types[k] = types;
            self.ranks[k] = rank;
        }
    }
}
