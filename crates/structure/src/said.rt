// What the records say against the table: codes 2 and 3.
ghost use Rattle.std.specs.Prelude.{◌≡◌, ◌<◌};
ghost use Rattle.records.specs.Words.{count};
ghost use Rattle.answers.specs.Answers.{lowest};
ghost use Rattle.answers.specs.Searches.{found};
ghost use Rattle.structure.specs.Rules.{wrong_header, wrong_record};

use crate::search::lowest_record;
use records::{Kind, Sheet};

// Whether the header breaks its rule: code 2.
pub fn wrong_header(sheet: &Sheet) -> bool
    ensures { result ≡ wrong_header sheet.now }
{
    let header = sheet.header();
    sheet.kind(header) != Kind::Header || !sheet.well_said(header)
}

// Whether a record says something against the table: code 3.
fn wrong_record(sheet: &Sheet, rec: usize) -> bool
    requires { (0 < rec) × (rec < count sheet.now) }
    ensures { result ≡ wrong_record sheet.now rec }
{
    sheet.kind(rec) == Kind::Header || !sheet.well_said(rec)
}

pub fn first_wrong_record(sheet: &Sheet) -> Option<usize>
    ensures { found result ≡ lowest (wrong_record sheet.now) (count sheet.now) }
{
    lowest_record(sheet, 1, |rec| wrong_record(sheet, rec))
}
