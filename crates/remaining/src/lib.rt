// What can still happen: how many constructors remain possible at each output leaf of one cycle.
#![tactic(auto)]

ghost use Rattle.std.specs.Prelude.{◌≡◌, ◌≤◌, ◌<◌, length};
ghost use Rattle.records.specs.Words.{count};
ghost use Rattle.records.specs.Limits.{most_leaves};
ghost use Rattle.answers.specs.Answers.{lowest};
ghost use Rattle.answers.specs.Results.{answer_of};
ghost use Rattle.answers.specs.Searches.{found};
ghost use Rattle.sets.specs.Words.{ones_of};
ghost use Rattle.records.specs.Limits.{environment_bytes};
ghost use Rattle.possibilities.specs.Sets.{set_words};
ghost use Rattle.possible.specs.Possible.{past_sets, possible_sets, possible_counts, PossibleGiven};
ghost use Rattle.remaining.specs.Remaining.{Counting, InputSets, PossibleAnswered, input_sets};

use accepted::fill_bounds;
use answers::{Answer, Code, Refusal, packed};
use estimator::{Estimator, fill_sets};
use records::{ENVIRONMENT, Kind, Sheet, VALUE_BYTES, WORD_A, WORD_B};
use sets::how_many;
use stimulus::check_one_cycle;
use values::enter_value;
use verdict::{Checked, check};

// The most constructors that a set has room for.
const MOST_IN_SET: usize = 64;

// Whether a record is a feedback or a flat type above 64 constructors.
fn is_past(sheet: &Sheet, rec: usize) -> bool
    requires { rec < count sheet.now }
    ensures { result ≡ past_sets sheet.now rec }
{
    match sheet.kind(rec) {
        Kind::Feedback => true,
        Kind::FlatType => MOST_IN_SET < sheet.word(rec, WORD_A),
        _ => false,
    }
}

// The lowest such record.
fn first_past(sheet: &Sheet) -> Option<usize>
    ensures { found result ≡ lowest (past_sets sheet.now) (count sheet.now) }
{
    for rec in 0..sheet.records() {
        if is_past(sheet, rec) {
            return Some(rec);
        }
    }
    None
}

// How many constructors each set has.
fn count_sets(words: &[u64], out: &mut [u8])
    requires { (length words.now ≡ length out.old) × (length out.old ≤ most_leaves) }
    ensures { out.new ≡ ones_of words.now }
{
    for (i, many) in out.iter_mut().enumerate() {
        *many = how_many(words[i]);
    }
}

// The words of the sets that an input's leaves begin with.
fn input_sets(checked: &Checked, input: &[u8], value: &mut [u64])
    requires { InputSets checked.now.sheet (count checked.now.sheet) checked.now.widths input.now value.old }
    ensures { value.new ≡ set_words (input_sets checked.now.sheet input.now) }
{
    let w = input.len();
    let mut counts = [0; VALUE_BYTES];
    let t = checked.sheet.word(0, WORD_A);
    fill_bounds(checked, t, &mut counts[0..w]);
    fill_sets(&counts[0..w], input, value);
}

// The words of the sets of the root, where `env` is room.
fn root_sets(checked: &Checked, input: &[u8], env: &mut [u64], out: &mut [u64])
    requires { Counting checked.now.sheet (count checked.now.sheet) checked.now.widths input.now out.old × (length env.old ≡ environment_bytes) }
    ensures { out.new ≡ set_words (possible_sets checked.now.sheet input.now) }
{
    let w = input.len();
    let mut value = [0; VALUE_BYTES];
    input_sets(checked, input, &mut value[0..w]);
    enter_value(env, 0, &value[0..w]);
    let root = checked.sheet.word(0, WORD_B);
    let estimator = Estimator { checked };
    estimator.estimate(env, 1, root, out);
}

// The counts of one cycle, with room of its own.
fn count_possible(checked: &Checked, input: &[u8], out: &mut [u8])
    requires { Counting checked.now.sheet (count checked.now.sheet) checked.now.widths input.now out.old }
    ensures { out.new ≡ possible_counts checked.now.sheet input.now }
{
    let all = out.len();
    let mut env = [0; ENVIRONMENT];
    let mut sets = [0; VALUE_BYTES];
    root_sets(checked, input, &mut env, &mut sets[0..all]);
    count_sets(&sets[0..all], out);
}

// The report on an accepted sheet: codes 22, 8, 9 and 10, and then the counts.
fn possible_accepted(checked: &Checked, stim: &[u8], out: &mut [u8]) -> Answer
    ensures { PossibleAnswered checked.now.sheet stim.now out.old (answer_of result) out.new }
{
    if let Some(rec) = first_past(&checked.sheet) {
        return Err(Refusal {
            code: Code::NotForSets,
            place: rec as u32,
        });
    }
    check_one_cycle(checked, stim)?;
    let needed = checked.widths[checked.output_type] as usize;
    if out.len() != needed {
        return Err(Refusal {
            code: Code::WrongOutputLength,
            place: needed as u32,
        });
    }
    count_possible(checked, stim, out);
    Ok(0)
}

// The answer of the report.
fn possible_answer(sheet: &[u8], stim: &[u8], out: &mut [u8]) -> Answer
    ensures { PossibleAnswered sheet.now stim.now out.old (answer_of result) out.new }
{
    let checked = check(sheet)?;
    possible_accepted(&checked, stim, out)
}

// The report: the answer's code and place in one number.
pub fn possible(sheet: &[u8], stim: &[u8], out: &mut [u8]) -> u64
    ensures { PossibleGiven sheet.now stim.now out.old result out.new }
{
    packed(possible_answer(sheet, stim, out))
}
