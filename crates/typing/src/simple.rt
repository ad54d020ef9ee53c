// Expressions without parts: constants and names.
ghost use Rattle.std.specs.Prelude.{◌≡◌, List, ℕ};
ghost use Rattle.records.specs.Kinds.{expression, constant, name};
ghost use Rattle.records.specs.Says.{kind_at};
ghost use Rattle.records.specs.Trees.{tree_at};
ghost use Rattle.records.specs.Words.{count};
ghost use Rattle.typing.specs.Judging.{Judging, Judged, Closing};
ghost use Rattle.typing.specs.Outcomes.{outcome_of};

use crate::BrokenRule;
use crate::closing::{note, require};
use crate::leaves::leaves_fit;
use crate::scopes::Scope;
use records::{Sheet, WORD_A, WORD_B, WidthTable};

// Judges a constant.
pub fn of_constant(sheet: &Sheet, rec: usize, widths: &mut WidthTable) -> Result<usize, BrokenRule>
    requires { Closing sheet.now (count sheet.now) rec widths.old × (kind_at sheet.now rec ≡ expression constant) }
    ensures { (Γ : List ℕ) → Judged sheet.now Γ (tree_at sheet.now rec) (outcome_of result) widths.old widths.new }
{
    let t = sheet.word(rec, WORD_A);
    require(leaves_fit(sheet, t, sheet.word(rec, WORD_B)), rec)?;
    note(sheet, rec, t, widths);
    Ok(t)
}

// Judges a name.
pub fn of_name(
    sheet: &Sheet,
    scope: &Scope,
    rec: usize,
    widths: &mut WidthTable,
) -> Result<usize, BrokenRule>
    requires { Judging sheet.now (count sheet.now) scope.now rec widths.old × (kind_at sheet.now rec ≡ expression name) }
    ensures { Judged sheet.now scope.now (tree_at sheet.now rec) (outcome_of result) widths.old widths.new }
{
    let Some(t) = scope.look_up(sheet.word(rec, WORD_A)) else {
        return Err(BrokenRule::at(rec));
    };
    note(sheet, rec, t, widths);
    Ok(t)
}
