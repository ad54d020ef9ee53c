// The check: whether a sheet is accepted, and with which type, or the number and the place of its first fault.
#![tactic(auto)]

ghost use Rattle.std.specs.Prelude.{◌≡◌, ℕ, List, ◌+◌, ◌<◌, length, IfOk, IfErr, true};
ghost use Rattle.records.specs.Sized.{Sized};
ghost use Rattle.records.specs.Words.{count};
ghost use Rattle.records.specs.Says.{namings};
ghost use Rattle.records.specs.Written.{Written};
ghost use Rattle.structure.specs.Rules.{wrong_length, too_deep, Passes};
ghost use Rattle.structure.specs.NamerTable.{NamingsHeld};
ghost use Rattle.structure.specs.LeafTable.{LeavesCounted};
ghost use Rattle.structure.specs.PairIndex.{Indexed};
ghost use Rattle.typing.specs.Judging.{Ground};
ghost use Rattle.verdict.specs.Verdict.{verdict, by_types};
ghost use Rattle.verdict.specs.Stages.{TypesChecked, RulesChecked, StagesChecked, CheckingNamings, CheckingTypes};
ghost use Rattle.answers.specs.Answers.{packed, verdict_answer, lowest};
ghost use Rattle.answers.specs.Searches.{found};
ghost use Rattle.verdict.specs.Widths.{Widths};
ghost use Rattle.verdict.specs.CheckedTable.{PatternsFrom};
ghost use Rattle.verdict.specs.CheckedTable.{Checked as CheckedInto};
ghost use Rattle.verdict.specs.CheckedSheet.{checked_verdict};
ghost use Rattle.answers.specs.Results.{answer_of, verdict_of};
ghost use Rattle.answers.specs.declared.Fault.TheVariants.{WrongLength};
ghost use Rattle.records.specs.Limits.{most_records};

use answers::{Answer, Fault, Verdict, packed};
use records::{Kind, Sheet, WORD_A, WORD_B, WidthTable};
use structure::{
    NamingTable, PairIndex, Placements, capped_sum, count_types, first_wrong_record,
    first_wrong_type, no_leaves, wrong_header,
};
use typing::{Scope, judge_root};

mod checked;

pub use checked::Checked;

// The lowest type record that is wrong: code 5. An empty table gets the leaf counts of types, and
// where none of them is wrong an empty index gets the pair types.
fn check_types(sheet: &Sheet, widths: &mut WidthTable, index: &mut PairIndex) -> Option<usize>
    requires { Written sheet.now × LeavesCounted sheet.now 0 widths.old × Indexed sheet.now 0 index.old }
    ensures { TypesChecked sheet.now (count sheet.now) result widths.new index.new }
{
    count_types(sheet, widths);
    first_wrong_type(sheet, widths, index)
}

// The lowest expression that lies too deep: code 6. It is not inlined, so that its tables are gone
// before the type rules are judged.
#[inline(never)]
fn check_depths(sheet: &Sheet, table: &NamingTable) -> Option<usize>
    requires { CheckingTypes sheet.now (count sheet.now) × NamingsHeld (namings sheet.now) table.now }
    ensures { found result ≡ lowest (too_deep sheet.now) (count sheet.now) }
{
    let mut placed = Placements::new();
    placed.place_all(sheet, table);
    placed.first_too_deep(sheet)
}

// The first record that is not well named, as a fault: code 4. Where there is none, the lowest
// expression that lies too deep, for code 6. It is looked for here, before code 5, so that the table
// of namings is gone when types are judged.
fn check_namings(sheet: &Sheet) -> Result<Option<usize>, Fault>
    requires { CheckingNamings sheet.now (count sheet.now) }
    ensures named { IfOk result (λ deep. CheckingTypes sheet.now (count sheet.now) × (found deep ≡ lowest (too_deep sheet.now) (count sheet.now))) }
    ensures misnamed { IfErr result (λ fault. (widths : List ℕ) → StagesChecked sheet.now (count sheet.now) (verdict_of (Err fault)) widths) }
{
    let mut table = NamingTable::new();
    table.note_all(sheet);
    match table.first_wrong(sheet) {
        Some(rec) => Err(Fault::WrongNaming(rec as u32)),
        None => Ok(check_depths(sheet, &table)),
    }
}

// The verdict by the type rules, the last stage: code 7 or 0. The table, which has the leaf counts
// of types, gets those of expressions.
fn check_rules(sheet: &Sheet, index: &PairIndex, widths: &mut WidthTable) -> Verdict
    requires { Ground sheet.now (count sheet.now) widths.old × (length widths.old ≡ most_records) × Indexed sheet.now (count sheet.now) index.now }
    ensures { RulesChecked sheet.now (by_types sheet.now) (verdict_of result) widths.old widths.new }
{
    let scope = Scope::of_input(sheet.word(0, WORD_A));
    match judge_root(sheet, index, &scope, sheet.word(0, WORD_B), widths) {
        Ok(output_type) => Ok(output_type),
        Err(broken) => Err(Fault::IllTyped(broken.record)),
    }
}

// The stages of the check after the length, in order: header, records, namings, types, depths, type
// rules. The first that finds a fault gives the verdict. An empty table gets the leaf counts of
// types, and where the sheet is accepted those of expressions.
fn check_stages(sheet: &Sheet, widths: &mut WidthTable) -> Verdict
    requires { Sized sheet.now (count sheet.now) × LeavesCounted sheet.now 0 widths.old }
    ensures { StagesChecked sheet.now (count sheet.now) (verdict_of result) widths.new }
{
    if wrong_header(sheet) {
        return Err(Fault::WrongHeader);
    }
    if let Some(rec) = first_wrong_record(sheet) {
        return Err(Fault::WrongRecord(rec as u32));
    }
    let deep = check_namings(sheet)?;
    let mut index = PairIndex::new();
    if let Some(rec) = check_types(sheet, widths, &mut index) {
        return Err(Fault::WrongType(rec as u32));
    }
    if let Some(rec) = deep {
        return Err(Fault::TooDeep(rec as u32));
    }
    check_rules(sheet, &index, widths)
}

// Notes the width of rec where it is a pattern, from the widths of its parts.
fn note_pattern(sheet: &Sheet, rec: usize, widths: &mut WidthTable)
    requires { Passes sheet.now × (rec < count sheet.now) × PatternsFrom sheet.now (rec + 1) widths.old }
    ensures { PatternsFrom sheet.now rec widths.new }
{
    match sheet.kind(rec) {
        Kind::WholePattern => widths[rec] = widths[sheet.word(rec, WORD_A)],
        Kind::ConstructorPattern => widths[rec] = 1,
        Kind::PairPattern => {
            let first = widths[sheet.word(rec, WORD_A)];
            let second = widths[sheet.word(rec, WORD_B)];
            widths[rec] = capped_sum(first, second);
        }
        _ => {}
    }
}

// Notes the width of every pattern, the last record first.
fn note_patterns(sheet: &Sheet, widths: &mut WidthTable)
    requires { Passes sheet.now × PatternsFrom sheet.now (count sheet.now) widths.old }
    ensures { Widths sheet.now widths.new }
{
    for rec in (0..sheet.records()).rev() {
        note_pattern(sheet, rec, widths);
    }
}

// The first stage of the check: the sheet of these bytes, where their length is a sheet's.
fn sheet_of(bytes: &[u8]) -> Result<Sheet<'_>, Fault>
    ensures ok { IfOk result (λ sheet. (sheet ≡ bytes.now) × Sized bytes.now (count bytes.now)) }
    ensures err { IfErr result (λ fault. (fault ≡ WrongLength) × (wrong_length bytes.now ≡ true)) }
{
    match Sheet::new(bytes) {
        Some(sheet) => Ok(sheet),
        None => Err(Fault::WrongLength),
    }
}

// The check of bytes of the right length. An empty table gets the leaf counts of the types of
// expressions, patterns and types where the sheet is accepted.
fn check_filling(sheet: &Sheet, widths: &mut WidthTable) -> Verdict
    requires { Sized sheet.now (count sheet.now) × LeavesCounted sheet.now 0 widths.old }
    ensures judged { verdict_of result ≡ verdict sheet.now }
    ensures filled { IfOk result (λ output_type. Widths sheet.now widths.new) }
{
    let output_type = check_stages(sheet, widths)?;
    note_patterns(sheet, widths);
    Ok(output_type)
}

// The same check into a lent table, which a refusal leaves as it was.
fn check_whole(sheet: &Sheet, table: &mut WidthTable) -> Verdict
    requires { Sized sheet.now (count sheet.now) }
    ensures { CheckedInto sheet.now (verdict_of result) table.old table.new }
{
    let mut widths = no_leaves();
    let output_type = check_filling(sheet, &mut widths)?;
    *table = widths;
    Ok(output_type)
}

// The check of a sheet into a lent table.
pub fn check_into(bytes: &[u8], table: &mut WidthTable) -> Verdict
    ensures { CheckedInto bytes.now (verdict_of result) table.old table.new }
{
    let sheet = sheet_of(bytes)?;
    check_whole(&sheet, table)
}

// The check of a sheet: the accepted sheet with what was found of it, or its first fault. It is
// inlined, since a result of this size that is handed back is cleared before the call, and copied
// whole after it, on a refusal too.
#[inline(always)]
pub fn check(bytes: &[u8]) -> Result<Checked<'_>, Fault>
    ensures verdict { checked_verdict result ≡ verdict bytes.now }
    ensures same { IfOk result (λ checked. checked.sheet ≡ bytes.now) }
{
    let sheet = sheet_of(bytes)?;
    let mut widths = no_leaves();
    let output_type = check_filling(&sheet, &mut widths)?;
    Ok(Checked {
        sheet,
        widths,
        output_type,
    })
}

// The answer of the check.
fn answer(bytes: &[u8]) -> Answer
    ensures { answer_of result ≡ verdict_answer (verdict bytes.now) }
{
    let sheet = sheet_of(bytes)?;
    let mut widths = no_leaves();
    let place = check_stages(&sheet, &mut widths)?;
    Ok(place as u32)
}

// The check: the verdict's code and place in one number.
pub fn check_sheet(sheet: &[u8]) -> u64
    ensures { result ≡ packed (verdict_answer (verdict sheet.now)) }
{
    packed(answer(sheet))
}
