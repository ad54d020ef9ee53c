// The check and the translation of texts for hosts in C, without the simulator: libchecker.a.
#![tactic(auto)]

ghost use Rattle.std.specs.Prelude.{◌≡◌};
ghost use Rattle.answers.specs.Answers.{packed, verdict_answer};
ghost use Rattle.verdict.specs.Verdict.{verdict};
ghost use Rattle.translator.specs.Translated.{TranslatedInOne};

use translator::translate;
use verdict::check_sheet;

// The check: the verdict's code times 2^32, plus its place.
#[unsafe(no_mangle)]
pub extern "C" fn sheet_check(sheet: &[u8]) -> u64
    ensures { result ≡ packed (verdict_answer (verdict sheet.now)) }
{
    check_sheet(sheet)
}

// The translation of a text into a sheet: the code times 2^32, plus the place.
#[unsafe(no_mangle)]
pub extern "C" fn sheet_translate(text: &[u8], sheet: &mut [u8]) -> u64
    ensures { TranslatedInOne text.now sheet.old result sheet.new }
{
    translate(text, sheet)
}
