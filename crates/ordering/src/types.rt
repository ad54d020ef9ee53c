// The declared pair types, searched.
ghost use Rattle.std.specs.Prelude.{◌≡◌, ◌≤◌, length};
ghost use Rattle.instructions.specs.Assembly.{constant_pair_numbered};
ghost use Rattle.grammar.specs.Legal.{text_bytes};

use instructions::types::{DeclaredType, DeclaredTypes};

// The number of the first declared pair type of two, where both have a type, or 0.
pub fn constant_pair(types: &DeclaredTypes, first: u16, second: u16) -> u16
    requires { length types.now ≤ text_bytes }
    ensures { result ≡ constant_pair_numbered types.now first second }
{
    if first == 0 || second == 0 {
        return 0;
    }
    for j in 0..types.len() {
        if types.get(j) == DeclaredType::Paired(first, second) {
            return (j + 1) as u16;
        }
    }
    0
}
