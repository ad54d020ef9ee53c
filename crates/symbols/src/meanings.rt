// What a name may stand for.
ghost use Rattle.std.specs.Prelude.{◌≡◌, nat_lt, min};
ghost use Rattle.symbols.specs.RoleNumbers.{role_code};

// A type, a constructor, the stimulus `input`, what a LET binds, or nothing.
#[derive(Clone, Copy, PartialEq, Eq, Debug)]
pub enum Role {
    TypeName,
    Constructor,
    Input,
    Bound,
    Unknown,
}

impl Role {
    // Whether a declared name stands for it.
    pub fn is_declared(self) -> bool
        ensures { result ≡ nat_lt (role_code self) 2 }
    {
        matches!(self, Role::TypeName | Role::Constructor)
    }
}

// By the number of the rules; a number that none of them has stands for nothing.
impl From<u8> for Role {
    ghost from_gives = { λ number role. role_code role ≡ min number 4 };

    fn from(number: u8) -> Role {
        match number {
            0 => Role::TypeName,
            1 => Role::Constructor,
            2 => Role::Input,
            3 => Role::Bound,
            _ => Role::Unknown,
        }
    }
}
