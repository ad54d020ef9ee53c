// Carrying held values from a running sheet into a new one: each labelled delay of the new sheet takes the value of the old
// sheet's delay with that label.
#![tactic(auto)]

ghost use Rattle.std.specs.Prelude.{◌≡◌, ℕ, ◌<◌, List, length, get_or, OnOk, IfErr};
ghost use Rattle.records.specs.Words.{count};
ghost use Rattle.records.specs.Written.{Written};
ghost use Rattle.records.specs.Trees.{chain, type_at};
ghost use Rattle.records.specs.Decoding.{leaf_values};
ghost use Rattle.answers.specs.Answers.{lowest, code, verdict_answer};
ghost use Rattle.answers.specs.Searches.{found};
ghost use Rattle.verdict.specs.Verdict.{verdict};
ghost use Rattle.behaviour.specs.Entries.{assigned, put_all, put_word};
ghost use Rattle.carry.specs.Labels.{label, label_twice, same_shape};
ghost use Rattle.carry.specs.Bearers.{entry_bearer, Bearers, Labelling, Labelled, AllLabelled};
ghost use Rattle.carry.specs.Carrying.{Comparing, Taking, SheetAccepted, Carrying, ValuesCarried};
ghost use Rattle.carry.specs.Carried.{giver, taken_from, taken_below};
ghost use Rattle.carry.specs.Carry.{CarryGiven};
ghost use Rattle.carry.specs.CarryAnswered.{CarryAnswered};
ghost use Rattle.answers.specs.Results.{answer_of, verdict_of};
ghost use Rattle.answers.specs.declared.Code.TheVariants.{NewSheetRefused, LabelTwice};
ghost use Rattle.std.proofs.Math.Option.{none, some};
ghost use Rattle.records.specs.Limits.{word_bound};

use answers::{Answer, Code, Fault, Refusal, packed};
use records::{Kind, Sheet, WORD_A, WORD_B, WORD_D, WORD_NEXT, offset, overwrite};
use verdict::check;

// The labels that there are, 0 for none among them.
pub const LABELS: usize = 65536;

// The label of rec, 0 where it has none or is no delay.
fn label_of(sheet: &Sheet, rec: usize) -> usize
    requires { rec < count sheet.now }
    ensures { (result ≡ label sheet.now rec) × (result < word_bound) }
{
    match sheet.kind(rec) {
        Kind::Delay => sheet.word(rec, WORD_D),
        _ => 0,
    }
}

// The delays of a sheet by their labels: by each label the lowest delay that bears it, 0 where none
// does.
#[derive(Drop)]
struct Labels {
    bearers: [u16; LABELS],
}

impl Labels {
    // No delay is entered.
    fn new() -> Labels
        ensures { (s : List ℕ) → Bearers s 0 result.bearers }
    {
        Labels {
            bearers: [0; LABELS],
        }
    }

    // Whether a lower delay bears the label of rec; where none does rec is entered.
    fn note(&mut self, sheet: &Sheet, rec: usize) -> bool
        requires { Labelling sheet.now (count sheet.now) rec self.old.bearers }
        ensures { Labelled sheet.now rec result self.new.bearers }
    {
        let l = label_of(sheet, rec);
        if l == 0 {
            return false;
        }
        if self.bearers[l] != 0 {
            return true;
        }
        self.bearers[l] = rec as u16;
        false
    }

    // Enters every delay under its label, up to the first whose label a lower one bears.
    fn note_all(&mut self, sheet: &Sheet) -> Option<usize>
        requires { Written sheet.now × Bearers sheet.now 0 self.old.bearers }
        ensures { AllLabelled sheet.now (count sheet.now) result self.new.bearers }
    {
        for rec in 0..sheet.records() {
            if self.note(sheet, rec) {
                return Some(rec);
            }
        }
        None
    }

    // The delay that bears a label.
    fn bearer(&self, label: usize) -> Option<usize>
        requires { label < word_bound }
        ensures { found result ≡ entry_bearer (get_or self.now.bearers label 0) }
    {
        match self.bearers[label] {
            0 => None,
            rec => Some(usize::from(rec)),
        }
    }
}

// Whether the types t of the old sheet and u of the new one have the same shape.
fn same_shape(old: &Sheet, t: usize, new: &Sheet, u: usize) -> bool
    requires { Comparing old.now (count old.now) t new.now (count new.now) u }
    ensures { result ≡ same_shape (type_at old.now t) (type_at new.now u) }
{
    let a = old.word(t, WORD_A);
    let b = new.word(u, WORD_A);
    match old.kind(t) {
        Kind::FlatType => match new.kind(u) {
            Kind::FlatType => a == b,
            _ => false,
        },
        _ => match new.kind(u) {
            Kind::FlatType => false,
            _ => {
                same_shape(old, a, new, b)
                    && same_shape(old, old.word(t, WORD_B), new, new.word(u, WORD_B))
            }
        },
    }
}

// The leaves of the new sheet from `to` take those of the old one from `from`.
fn take_leaves(old: &Sheet, from: usize, new: &Sheet, to: usize, next: &mut [u8])
    requires { Taking old.now (count old.now) from new.now (count new.now) to next.old }
    ensures { next.new ≡ put_all put_word (assigned (chain new.now to) (leaf_values old.now (chain old.now from))) next.old }
{
    let mut giving = from;
    let mut taking = to;
    while taking != 0 {
        let at = offset(taking, WORD_A);
        next[at] = old.word(giving, WORD_A) as u8;
        next[at + 1] = 0;
        giving = old.word(giving, WORD_NEXT);
        taking = new.word(taking, WORD_NEXT);
    }
}

// Record rec of the new sheet takes what it takes.
fn take_record(old: &Sheet, new: &Sheet, labels: &Labels, rec: usize, next: &mut [u8])
    requires { Carrying old.now (count old.now) new.now (count new.now) labels.now.bearers next.old × (rec < count new.now) }
    ensures { next.new ≡ put_all put_word (taken_from old.now new.now rec (giver old.now new.now rec)) next.old }
{
    let Some(q) = labels.bearer(label_of(new, rec)) else {
        return;
    };
    if same_shape(old, old.word(q, WORD_A), new, new.word(rec, WORD_A)) {
        take_leaves(old, old.word(q, WORD_B), new, new.word(rec, WORD_B), next);
    }
}

// All records of the new sheet, by the old sheet's labels.
fn take_all(old: &Sheet, new: &Sheet, labels: &Labels, next: &mut [u8])
    requires { Carrying old.now (count old.now) new.now (count new.now) labels.now.bearers next.old }
    ensures { next.new ≡ put_all put_word (taken_below old.now new.now (count new.now)) next.old }
{
    for rec in 0..new.records() {
        take_record(old, new, labels, rec, next);
    }
}

// The lowest delay of the old sheet whose label a lower one bears. Where there is none and `next`
// is as long as the new sheet, whose bytes stand in it, the delays there take those of the old
// one. The table of labels is made here and nowhere else: the three calls of this function keep it
// out of the frame in which the checks run.
fn carry_values<'a>(old: &Sheet<'a>, new: &Sheet<'a>, next: &mut [u8]) -> Option<usize>
    requires { SheetAccepted old.now (count old.now) × SheetAccepted new.now (count new.now) }
    ensures { ValuesCarried old.now (count old.now) new.now (count new.now) next.old result next.new }
{
    let mut labels = Labels::new();
    let twice = labels.note_all(old);
    if twice.is_none() && next.len() == new.bytes().len() {
        take_all(old, new, &labels, next);
    }
    twice
}

// A sheet with a delay whose label a lower one bears is refused by code 19. The slice lent is too
// short for a sheet, so nothing is taken.
fn check_labels(sheet: &Sheet) -> Result<(), Refusal>
    requires { SheetAccepted sheet.now (count sheet.now) }
    ensures done { OnOk result (lowest (label_twice sheet.now) (count sheet.now) ≡ none) }
    ensures refused { IfErr result (λ e. (e.code ≡ LabelTwice) × (lowest (label_twice sheet.now) (count sheet.now) ≡ some e.place)) }
{
    let mut short = [0; 1];
    match carry_values(sheet, sheet, &mut short) {
        Some(rec) => Err(Refusal {
            code: Code::LabelTwice,
            place: rec as u32,
        }),
        None => Ok(()),
    }
}

// An accepted sheet carried into another: codes 19 and 11, and then the values.
fn carry_accepted<'a>(old: &Sheet<'a>, new: &Sheet<'a>, next: &mut [u8]) -> Answer
    requires { SheetAccepted old.now (count old.now) × SheetAccepted new.now (count new.now) }
    ensures { CarryAnswered old.now new.now next.old (answer_of result) next.new }
{
    check_labels(old)?;
    check_labels(new)?;
    let long = new.bytes().len();
    if next.len() != long {
        return Err(Refusal {
            code: Code::WrongNextLength,
            place: long as u32,
        });
    }
    overwrite(next, new.bytes());
    carry_values(old, new, next);
    Ok(0)
}

// A new sheet that is refused: code 18, with the check's code for its place.
fn new_sheet_refused(fault: Fault) -> Refusal
    ensures { (result.code ≡ NewSheetRefused) × (result.place ≡ code (verdict_answer (verdict_of (Err fault)))) }
{
    let refusal = Refusal::from(fault);
    Refusal {
        code: Code::NewSheetRefused,
        place: refusal.code.number() as u32,
    }
}

// The answer of the call. The old sheet by codes 1 to 7, the new one by 18, then the rest.
fn carry_answer(old: &[u8], new: &[u8], next: &mut [u8]) -> Answer
    ensures { CarryAnswered old.now new.now next.old (answer_of result) next.new }
{
    let before = check(old)?;
    let after = match check(new) {
        Ok(checked) => checked,
        Err(fault) => return Err(new_sheet_refused(fault)),
    };
    carry_accepted(&before.sheet, &after.sheet, next)
}

// The call: the answer's code and place in one number.
pub fn carry(old: &[u8], new: &[u8], next: &mut [u8]) -> u64
    ensures { CarryGiven old.now new.now next.old result next.new }
{
    packed(carry_answer(old, new, next))
}
