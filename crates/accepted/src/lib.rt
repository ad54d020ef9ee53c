// The one door from the check to the crates above it: laws of accepted sheets in proofs/, and what is read off an accepted sheet
// with the table that the check filled.
#![tactic(auto)]

ghost use Rattle.std.specs.Prelude.{◌≡◌, length};
ghost use Rattle.picoella.specs.Language.{bounds, leaves};
ghost use Rattle.records.specs.Trees.{type_at, TypeRecord};

use typing::bound_at;
use verdict::Checked;

// The constructor counts of the leaves of type t.
pub fn fill_bounds(checked: &Checked, t: usize, out: &mut [u8])
    requires { TypeRecord checked.now.sheet t × (length out.old ≡ leaves (type_at checked.now.sheet t)) }
    ensures { out.new ≡ bounds (type_at checked.now.sheet t) }
{
    for (i, bound) in out.iter_mut().enumerate() {
        *bound = bound_at(&checked.sheet, &checked.widths, t, i) as u8;
    }
}
