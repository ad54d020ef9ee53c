// An accepted sheet, with what the check has found of it.
ghost use Rattle.std.specs.Prelude.{◌≡◌};
ghost use Rattle.answers.specs.Answers.{Accepted};
ghost use Rattle.verdict.specs.Verdict.{verdict};
ghost use Rattle.verdict.specs.Widths.{Widths};

use records::{Sheet, WidthTable};

// The widths are the leaf counts of the types of expressions, patterns and types, by record.
#[derive(Drop)]
pub struct Checked<'a> {
    pub sheet: Sheet<'a>,
    pub widths: WidthTable,
    pub output_type: usize,
    pub ghost accepted: { verdict sheet ≡ Accepted output_type },
    pub ghost counted: { Widths sheet widths },
}
