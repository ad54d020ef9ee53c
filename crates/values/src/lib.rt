// Values as bytes: the leaves of a chain read and held, the look-up of a name, and matching.
#![tactic(auto)]

ghost use Rattle.std.specs.Prelude.{◌≡◌, ℕ, ◌+◌, ◌-◌, ◌*◌, ◌≤◌, ◌<◌, length, take, drop, replicate, unwrap_or, List, [], ◌∷◌, ◌++◌};
ghost use Rattle.records.specs.Words.{count};
ghost use Rattle.records.specs.Trees.{chain};
ghost use Rattle.records.specs.Decoding.{leaf_values};
ghost use Rattle.behaviour.specs.Entries.{assigned, put_all, enter};
ghost use Rattle.meaning.specs.Decisions.{constructor_decision, pair_decision, chain_decision};
ghost use Rattle.values.specs.Chained.{Chained};
ghost use Rattle.values.specs.MatchAnswers.{decision_of, told, Own, ValuesCompared, LeavesDefined};
ghost use Rattle.values.specs.Matchings.{Matching, MatchedAll, MatchedOne, Chosen};
ghost use Rattle.values.specs.Slots.{slot, entered};
ghost use Rattle.meaning.specs.Undecided.{undecided_rule};
ghost use Rattle.behaviour.specs.Firing.{or_after};
ghost use Rattle.records.specs.Limits.{most_records, environment_bytes, most_leaves};

use records::{
    ENVIRONMENT, Kind, RECORDS, Sheet, VALUE_BYTES, WORD_A, WORD_B, WORD_NEXT, WidthTable,
    overwrite,
};

// The values of the names in scope, a slot each.
pub type Environment = [u8; ENVIRONMENT];

// A table of the delays' next values, one byte a record.
pub type NextValues = [u8; RECORDS];

// A table of the alternatives that fired, one number a record: at an IF that of the first
// alternative of its chain that says yes, 0 where none does.
pub type Fired = [u16; RECORDS];

// What evaluations are lent: the names' bytes, with room for 64 values of 64 leaves, and the tables
// that they fill.
#[derive(Drop)]
pub struct Room {
    pub env: Environment,
    pub held: NextValues,
    pub fired: Fired,
}

impl Room {
    // Room in which no name has a value, no next value is held and no alternative has fired.
    pub fn new() -> Room
        ensures env { length result.env ≡ environment_bytes }
        ensures held { length result.held ≡ most_records }
        ensures fired { result.fired ≡ replicate most_records 0 }
    {
        Room {
            env: [0; ENVIRONMENT],
            held: [0; RECORDS],
            fired: [0; RECORDS],
        }
    }
}

// Reads the leaves from `first`.
pub fn read_leaves(sheet: &Sheet, first: usize, out: &mut [u8])
    requires { Chained sheet.now (count sheet.now) first (length out.old) }
    ensures { out.new ≡ leaf_values sheet.now (chain sheet.now first) }
{
    let mut leaf = first;
    for value in out.iter_mut() {
        *value = sheet.word(leaf, WORD_A) as u8;
        leaf = sheet.word(leaf, WORD_NEXT);
    }
}

// Holds a value at the leaves from `first`.
pub fn hold_leaves(sheet: &Sheet, first: usize, value: &[u8], held: &mut NextValues)
    requires { Chained sheet.now (count sheet.now) first (length value.now) }
    ensures { held.new ≡ put_all enter (assigned (chain sheet.now first) value.now) held.old }
{
    let mut leaf = first;
    for &byte in value {
        held[leaf] = byte;
        leaf = sheet.word(leaf, WORD_NEXT);
    }
}

// The value of the name at this level, in the lent environment: w leaves from the start of its
// slot.
pub fn look_up<T: Copy>(env: &[T], level: usize, w: usize) -> &[T]
    requires { (most_leaves * level + w ≤ length env.now) × (length env.now ≤ environment_bytes) }
    ensures { result.now ≡ take w (drop (most_leaves * level) env.now) }
{
    let at = VALUE_BYTES * level;
    &env[at..at + w]
}

// A part of the value of the name at this level, in the lent environment: w leaves from the value's
// leaf `from` on.
pub fn look_up_part<T: Copy>(env: &[T], level: usize, from: usize, w: usize) -> &[T]
    requires { (most_leaves * level + from + w ≤ length env.now) × (length env.now ≤ environment_bytes) }
    ensures { result.now ≡ take w (drop (most_leaves * level + from) env.now) }
{
    let at = VALUE_BYTES * level + from;
    &env[at..at + w]
}

// Copies a value into the front of a slot.
pub fn put<T: Copy>(value: &[T], slot: &mut [T])
    requires { length value.now ≤ length slot.old }
    ensures { slot.new ≡ value.now ++ drop (length value.now) slot.old }
{
    overwrite(&mut slot[..value.len()], value);
}

// Whether a value is defined in every leaf.
pub fn all_defined(value: &[u8]) -> bool
    ensures { LeavesDefined value.now result }
{
    value.iter().all(|&leaf| leaf != 0)
}

// Enters a value into the slot of the name at this level.
pub fn enter_value<T: Copy>(env: &mut [T], level: usize, value: &[T])
    requires { (most_leaves * level + length value.now ≤ length env.old) × (length env.old ≤ environment_bytes) }
    ensures { env.new ≡ entered level value.now env.old }
{
    let at = VALUE_BYTES * level;
    put(value, &mut env[at..]);
}

// Whether a value stands in the slot of the name at this level.
pub fn stands_at(env: &[u8], level: usize, value: &[u8]) -> bool
    requires { (most_leaves * level + length value.now ≤ length env.now) × (length env.now ≤ environment_bytes) }
    ensures { ValuesCompared value.now (slot level (length value.now) env.now) result }
{
    let slot = look_up(env, level, value.len());
    for i in 0..value.len() {
        if slot[i] != value[i] {
            return false;
        }
    }
    true
}

// Copies the value of the name at this level.
pub fn copy_value<T: Copy>(env: &[T], level: usize, out: &mut [T])
    requires { (most_leaves * level + length out.old ≤ length env.now) × (length env.now ≤ environment_bytes) }
    ensures { out.new ≡ slot level (length out.old) env.now }
{
    overwrite(out, look_up(env, level, out.len()));
}

// Copies a part of the value of the name at this level, from the value's leaf `from` on.
pub fn copy_part<T: Copy>(env: &[T], level: usize, from: usize, out: &mut [T])
    requires { (most_leaves * level + from + length out.old ≤ length env.now) × (length env.now ≤ environment_bytes) }
    ensures { out.new ≡ take (length out.old) (drop (most_leaves * level + from) env.now) }
{
    overwrite(out, look_up_part(env, level, from, out.len()));
}

// The leaf of an undecided IF, from those of its branches: the one that both give, or 0.
fn agreed(leaf: u8, other: u8) -> u8
    ensures { result ∷ [] ≡ undecided_rule (leaf ∷ []) (other ∷ []) }
{
    if leaf == other { leaf } else { 0 }
}

// The value of an undecided IF, where the then value is in `out`: each leaf on which both agree,
// and 0 elsewhere.
fn undecided(otherwise: &[u8], out: &mut [u8])
    requires { length otherwise.now ≡ length out.old }
    ensures { out.new ≡ undecided_rule out.old otherwise.now }
{
    for (i, leaf) in out.iter_mut().enumerate() {
        *leaf = agreed(*leaf, otherwise[i]);
    }
}

// The answer of a match: a yes tells the record of the alternative that says it.
#[derive(Clone, Copy)]
pub enum Match {
    Yes(usize),
    No,
    Undecided,
}

impl Match {
    // The answer of the alternative at p, of constructor k, on a leaf.
    fn on_leaf(p: usize, k: usize, leaf: u8) -> Match
        ensures { Own p result (constructor_decision k leaf) }
    {
        if leaf == 0 {
            return Match::Undecided;
        }
        if leaf as usize == k {
            return Match::Yes(p);
        }
        Match::No
    }

    // This answer as that of the alternative at p, whose record a yes tells.
    fn own(self, p: usize) -> Match
        ensures { Own p result (decision_of self) }
    {
        match self {
            Match::Yes(_) => Match::Yes(p),
            Match::No => Match::No,
            Match::Undecided => Match::Undecided,
        }
    }

    // The answer of the alternative at p, a pair pattern, from this one of its first part and that
    // of its second.
    pub fn both(self, second: Match, p: usize) -> Match
        ensures { Own p result (pair_decision (decision_of self) (decision_of second)) }
    {
        match (self, second) {
            (Match::No, _) => Match::No,
            (Match::Yes(_), second) => second.own(p),
            (Match::Undecided, Match::No) => Match::No,
            (Match::Undecided, _) => Match::Undecided,
        }
    }

    // The answer of a chain, from this one of its first alternatives and that of the next one: the
    // first yes is told.
    pub fn either(self, next: Match) -> Match
        ensures decides { decision_of result ≡ chain_decision (decision_of self) (decision_of next) }
        ensures tells { told result ≡ or_after (decision_of self) (told self) (told next) }
    {
        match (self, next) {
            (Match::Yes(record), _) | (Match::Undecided, Match::Yes(record)) => Match::Yes(record),
            (Match::No, next) => next,
            (Match::Undecided, _) => Match::Undecided,
        }
    }

    // The alternative that is matched after this answer, where `next` follows: none after a yes.
    fn after(self, next: usize) -> usize
        ensures { result ≡ or_after (decision_of self) 0 next }
    {
        match self {
            Match::Yes(_) => 0,
            Match::No | Match::Undecided => next,
        }
    }

    // The record that the answer tells: of an alternative that says yes.
    pub fn record(self) -> Option<usize>
        ensures { unwrap_or result 0 ≡ told self }
    {
        match self {
            Match::Yes(record) => Some(record),
            Match::No | Match::Undecided => None,
        }
    }
}

// Matches a value against the alternatives from p, up to the first yes.
#[cycle(match_all_match_one)]
pub fn match_all(sheet: &Sheet, widths: &WidthTable, p: usize, value: &[u8]) -> Match
    requires { Matching sheet.now (count sheet.now) widths.now p value.now }
    ensures { MatchedAll sheet.now p value.now result }
{
    let mut answer = Match::No;
    let mut at = p;
    while at != 0 {
        answer = answer.either(match_one(sheet, widths, at, value));
        at = answer.after(sheet.word(at, WORD_NEXT));
    }
    answer
}

// Matches a value against the alternative at p, a pair pattern part by part, up to the first no.
#[cycle(match_all_match_one)]
fn match_one(sheet: &Sheet, widths: &WidthTable, p: usize, value: &[u8]) -> Match
    requires { Matching sheet.now (count sheet.now) widths.now p value.now }
    ensures { MatchedOne sheet.now p value.now result }
{
    match sheet.kind(p) {
        Kind::WholePattern => Match::Yes(p),
        Kind::ConstructorPattern => Match::on_leaf(p, sheet.word(p, WORD_B), value[0]),
        _ => {
            let first = sheet.word(p, WORD_A);
            let w = usize::from(widths[first]);
            let a = match_all(sheet, widths, first, &value[..w]);
            if let Match::No = a {
                return Match::No;
            }
            let b = match_all(sheet, widths, sheet.word(p, WORD_B), &value[w..]);
            a.both(b, p)
        }
    }
}

// The value of an IF with the alternatives from p, where the then value is in `out`; given back is
// the record of the first alternative that says yes, none where no one does.
pub fn choose_value(
    sheet: &Sheet,
    widths: &WidthTable,
    p: usize,
    tested: &[u8],
    otherwise: &[u8],
    out: &mut [u8],
) -> Option<usize>
    requires { Matching sheet.now (count sheet.now) widths.now p tested.now × (length otherwise.now ≡ length out.old) }
    ensures { Chosen sheet.now p tested.now otherwise.now out.old out.new (unwrap_or result 0) }
{
    let answer = match_all(sheet, widths, p, tested);
    match answer {
        Match::Yes(_) => {}
        Match::No => overwrite(out, otherwise),
        Match::Undecided => undecided(otherwise, out),
    }
    answer.record()
}
