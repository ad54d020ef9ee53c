// Judging an expression: its parts in the order of its words, then the whole.
ghost use Rattle.std.specs.Prelude.{◌≡◌};
ghost use Rattle.records.specs.Kinds.{expression, tuple, let_in, feedback, if_matches, delay};
ghost use Rattle.records.specs.Says.{kind_at};
ghost use Rattle.records.specs.Trees.{tree_at};
ghost use Rattle.records.specs.Words.{count};
ghost use Rattle.structure.specs.PairIndex.{Indexed};
ghost use Rattle.typing.specs.Judging.{Judging, Judged, PartAt};
ghost use Rattle.typing.specs.Outcomes.{outcome_of};
ghost use Rattle.typing.specs.PatternTable.{TypeTables};

use crate::BrokenRule;
use crate::closing::{note, pair_type, part_type, require, same_type};
use crate::leaves::leaves_fit;
use crate::patterns::PatternTypes;
use crate::scopes::Scope;
use crate::simple::{of_constant, of_name};
use records::{Kind, Sheet, WORD_A, WORD_B, WORD_C, WORD_D, WidthTable};
use structure::PairIndex;

// What judging looks up: words of the sheet, pair types by their parts, and the types of patterns.
#[derive(Drop)]
struct Judge<'a> {
    sheet: &'a Sheet<'a>,
    index: &'a PairIndex,
    types: &'a PatternTypes,
    ghost tables: { TypeTables sheet.now (count sheet.now) index.now types.now },
}

impl<'a> Judge<'a> {
    // Judges an expression: its parts in the order of its words, then the whole.
    #[cycle(judging)]
    fn expression(
        &self,
        scope: &Scope,
        rec: usize,
        widths: &mut WidthTable,
    ) -> Result<usize, BrokenRule>
        requires { Judging self.now.sheet.now (count self.now.sheet.now) scope.now rec widths.old }
        ensures { Judged self.now.sheet.now scope.now (tree_at self.now.sheet.now rec) (outcome_of result) widths.old widths.new }
    {
        match self.sheet.kind(rec) {
            Kind::Constant => of_constant(self.sheet, rec, widths),
            Kind::Name => of_name(self.sheet, scope, rec, widths),
            Kind::Pair => self.of_pair(scope, rec, widths),
            Kind::First => self.of_part(scope, rec, WORD_A, widths),
            Kind::Second => self.of_part(scope, rec, WORD_B, widths),
            Kind::Let => self.of_let(scope, rec, widths),
            Kind::Feedback => self.of_feedback(scope, rec, widths),
            Kind::If => self.of_if(scope, rec, widths),
            _ => self.of_delay(scope, rec, widths),
        }
    }

    #[cycle(judging)]
    fn of_pair(
        &self,
        scope: &Scope,
        rec: usize,
        widths: &mut WidthTable,
    ) -> Result<usize, BrokenRule>
        requires { Judging self.now.sheet.now (count self.now.sheet.now) scope.now rec widths.old × (kind_at self.now.sheet.now rec ≡ expression tuple) }
        ensures { Judged self.now.sheet.now scope.now (tree_at self.now.sheet.now rec) (outcome_of result) widths.old widths.new }
    {
        let t = self.expression(scope, self.sheet.word(rec, WORD_A), widths)?;
        let u = self.expression(scope, self.sheet.word(rec, WORD_B), widths)?;
        pair_type(self.sheet, self.index, rec, t, u, widths)
    }

    // A first part where k is 2, a second part where k is 3.
    #[cycle(judging)]
    fn of_part(
        &self,
        scope: &Scope,
        rec: usize,
        k: usize,
        widths: &mut WidthTable,
    ) -> Result<usize, BrokenRule>
        requires { Judging self.now.sheet.now (count self.now.sheet.now) scope.now rec widths.old × PartAt self.now.sheet.now rec k }
        ensures { Judged self.now.sheet.now scope.now (tree_at self.now.sheet.now rec) (outcome_of result) widths.old widths.new }
    {
        let t = self.expression(scope, self.sheet.word(rec, WORD_A), widths)?;
        part_type(self.sheet, rec, t, k, widths)
    }

    #[cycle(judging)]
    fn of_let(
        &self,
        scope: &Scope,
        rec: usize,
        widths: &mut WidthTable,
    ) -> Result<usize, BrokenRule>
        requires { Judging self.now.sheet.now (count self.now.sheet.now) scope.now rec widths.old × (kind_at self.now.sheet.now rec ≡ expression let_in) }
        ensures { Judged self.now.sheet.now scope.now (tree_at self.now.sheet.now rec) (outcome_of result) widths.old widths.new }
    {
        let t = self.expression(scope, self.sheet.word(rec, WORD_A), widths)?;
        let inner = scope.with(t);
        let u = self.expression(&inner, self.sheet.word(rec, WORD_B), widths)?;
        note(self.sheet, rec, u, widths);
        Ok(u)
    }

    #[cycle(judging)]
    fn of_feedback(
        &self,
        scope: &Scope,
        rec: usize,
        widths: &mut WidthTable,
    ) -> Result<usize, BrokenRule>
        requires { Judging self.now.sheet.now (count self.now.sheet.now) scope.now rec widths.old × (kind_at self.now.sheet.now rec ≡ expression feedback) }
        ensures { Judged self.now.sheet.now scope.now (tree_at self.now.sheet.now rec) (outcome_of result) widths.old widths.new }
    {
        let t = self.sheet.word(rec, WORD_A);
        let inner = scope.with(t);
        let defined = self.expression(&inner, self.sheet.word(rec, WORD_B), widths)?;
        let u = self.expression(&inner, self.sheet.word(rec, WORD_C), widths)?;
        same_type(self.sheet, rec, defined, t, u, widths)
    }

    #[cycle(judging)]
    fn of_if(&self, scope: &Scope, rec: usize, widths: &mut WidthTable) -> Result<usize, BrokenRule>
        requires { Judging self.now.sheet.now (count self.now.sheet.now) scope.now rec widths.old × (kind_at self.now.sheet.now rec ≡ expression if_matches) }
        ensures { Judged self.now.sheet.now scope.now (tree_at self.now.sheet.now rec) (outcome_of result) widths.old widths.new }
    {
        let t = self.expression(scope, self.sheet.word(rec, WORD_A), widths)?;
        require(self.types.fits(self.sheet.word(rec, WORD_D), t), rec)?;
        let u = self.expression(scope, self.sheet.word(rec, WORD_B), widths)?;
        let v = self.expression(scope, self.sheet.word(rec, WORD_C), widths)?;
        same_type(self.sheet, rec, u, v, u, widths)
    }

    #[cycle(judging)]
    fn of_delay(
        &self,
        scope: &Scope,
        rec: usize,
        widths: &mut WidthTable,
    ) -> Result<usize, BrokenRule>
        requires { Judging self.now.sheet.now (count self.now.sheet.now) scope.now rec widths.old × (kind_at self.now.sheet.now rec ≡ expression delay) }
        ensures { Judged self.now.sheet.now scope.now (tree_at self.now.sheet.now rec) (outcome_of result) widths.old widths.new }
    {
        let u = self.expression(scope, self.sheet.word(rec, WORD_C), widths)?;
        let t = self.sheet.word(rec, WORD_A);
        require(leaves_fit(self.sheet, t, self.sheet.word(rec, WORD_B)), rec)?;
        same_type(self.sheet, rec, u, t, t, widths)
    }
}

// Finds the types of patterns by the index of the sheet's pair types, and judges an expression.
pub fn judge_root(
    sheet: &Sheet,
    index: &PairIndex,
    scope: &Scope,
    rec: usize,
    widths: &mut WidthTable,
) -> Result<usize, BrokenRule>
    requires { Judging sheet.now (count sheet.now) scope.now rec widths.old × Indexed sheet.now (count sheet.now) index.now }
    ensures { Judged sheet.now scope.now (tree_at sheet.now rec) (outcome_of result) widths.old widths.new }
{
    let mut types = PatternTypes::new();
    types.note_all(sheet, index);
    let judge = Judge {
        sheet,
        index,
        types: &types,
    };
    judge.expression(scope, rec, widths)
}
