// The judgements of an expression, and what is noted where the last of them holds.
ghost use Rattle.std.specs.Prelude.{◌≡◌, ◌<◌, set, true, false, MatchResult};
ghost use Rattle.picoella.specs.Language.{leaves};
ghost use Rattle.records.specs.Limits.{word_bound};
ghost use Rattle.records.specs.Words.{count, word};
ghost use Rattle.records.specs.Trees.{type_at, TypeRecord, pair_of};
ghost use Rattle.structure.specs.PairIndex.{Indexed};
ghost use Rattle.typing.specs.Judgements.{pair_declared, pair_type, same_type};
ghost use Rattle.typing.specs.Judging.{TypesCounted, Closed, Closing};
ghost use Rattle.typing.specs.Outcomes.{outcome_of};

use crate::BrokenRule;
use records::{Kind, Sheet, WidthTable};
use structure::PairIndex;

// A judgement at rec, whose rule holds or not.
pub fn require(holds: bool, rec: usize) -> Result<(), BrokenRule>
    requires { rec < word_bound }
    ensures { MatchResult result (λ _. holds ≡ true) (λ broken. (holds ≡ false) × (broken.record ≡ rec)) }
{
    if !holds {
        return Err(BrokenRule::at(rec));
    }
    Ok(())
}

// Notes the leaf count of type t at rec, from the entry of the type.
pub fn note(sheet: &Sheet, rec: usize, t: usize, widths: &mut WidthTable)
    requires { Closing sheet.now (count sheet.now) rec widths.old × TypeRecord sheet.now t }
    ensures { (widths.new ≡ set widths.old rec (leaves (type_at sheet.now t))) × TypesCounted sheet.now widths.new }
{
    widths[rec] = widths[t];
}

// A pair's last judgement: a pair record of exactly the two types.
pub fn pair_type(
    sheet: &Sheet,
    index: &PairIndex,
    rec: usize,
    t: usize,
    u: usize,
    widths: &mut WidthTable,
) -> Result<usize, BrokenRule>
    requires { Closing sheet.now (count sheet.now) rec widths.old × Indexed sheet.now (count sheet.now) index.now }
    ensures { Closed sheet.now (pair_declared t u) rec (pair_of sheet.now t u) (outcome_of result) widths.old widths.new }
{
    let Some(pair) = index.pair_of(sheet, t, u) else {
        return Err(BrokenRule::at(rec));
    };
    note(sheet, rec, pair, widths);
    Ok(pair)
}

// The last judgement of a first or second part: the type t is a pair's, and word k of its record is the part's type.
pub fn part_type(
    sheet: &Sheet,
    rec: usize,
    t: usize,
    k: usize,
    widths: &mut WidthTable,
) -> Result<usize, BrokenRule>
    requires { Closing sheet.now (count sheet.now) rec widths.old × TypeRecord sheet.now t × (1 < k) × (k < 4) }
    ensures { Closed sheet.now (pair_type t) rec (word sheet.now t k) (outcome_of result) widths.old widths.new }
{
    require(sheet.kind(t) == Kind::PairType, rec)?;
    let part = sheet.word(t, k);
    note(sheet, rec, part, widths);
    Ok(part)
}

// A last judgement that two types are the same; the expression's type is t.
pub fn same_type(
    sheet: &Sheet,
    rec: usize,
    x: usize,
    y: usize,
    t: usize,
    widths: &mut WidthTable,
) -> Result<usize, BrokenRule>
    requires { Closing sheet.now (count sheet.now) rec widths.old × TypeRecord sheet.now t }
    ensures { Closed sheet.now (same_type x y) rec t (outcome_of result) widths.old widths.new }
{
    require(x == y, rec)?;
    note(sheet, rec, t, widths);
    Ok(t)
}
