// Every call for hosts in C: libsheets.a.
#![tactic(auto)]

ghost use Rattle.std.specs.Prelude.{◌≡◌};
ghost use Rattle.answers.specs.Answers.{packed, verdict_answer};
ghost use Rattle.verdict.specs.Verdict.{verdict};
ghost use Rattle.simulator.specs.Calls.{Ran};
ghost use Rattle.carry.specs.Carry.{CarryGiven};
ghost use Rattle.fired.specs.Telling.{ToldFired};
ghost use Rattle.preview.specs.Preview.{Previewed};
ghost use Rattle.possible.specs.Possible.{PossibleGiven};
ghost use Rattle.press.specs.Press.{PressGiven};
ghost use Rattle.counting.specs.Counting.{CountGiven};
ghost use Rattle.replay.specs.Replay.{ReplayGiven};
ghost use Rattle.translator.specs.Translated.{TranslatedInOne};

use carry::carry;
use counting::{Counts, count_inputs};
use fired::fired_of;
use press::{Pressed, press_of};
use preview::preview;
use remaining::possible;
use replay::{Replayed, replay};
use simulator::run;
use translator::translate;
use verdict::check_sheet;

// The check: the verdict's code times 2^32, plus its place.
#[unsafe(no_mangle)]
pub extern "C" fn sheet_check(sheet: &[u8]) -> u64
    ensures { result ≡ packed (verdict_answer (verdict sheet.now)) }
{
    check_sheet(sheet)
}

// The run: the answer's code times 2^32, plus its place.
#[unsafe(no_mangle)]
pub extern "C" fn sheet_run(sheet: &[u8], stim: &[u8], out: &mut [u8], next: &mut [u8]) -> u64
    ensures { Ran sheet.now stim.now out.old next.old result out.new next.new }
{
    run(sheet, stim, out, next)
}

// Carrying: the answer's code times 2^32, plus its place.
#[unsafe(no_mangle)]
pub extern "C" fn sheet_carry(old: &[u8], new: &[u8], next: &mut [u8]) -> u64
    ensures { CarryGiven old.now new.now next.old result next.new }
{
    carry(old, new, next)
}

// Which alternative fired, in one cycle: the answer's code times 2^32, plus its place.
#[unsafe(no_mangle)]
pub extern "C" fn sheet_fired(sheet: &[u8], stim: &[u8], fired: &mut [u16]) -> u64
    ensures { ToldFired sheet.now stim.now fired.old result fired.new }
{
    fired_of(sheet, stim, fired)
}

// The preview: the answer's code times 2^32, plus its place.
#[unsafe(no_mangle)]
pub extern "C" fn sheet_preview(sheet: &[u8], stim: &[u8], out: &mut [u8]) -> u64
    ensures { Previewed sheet.now stim.now out.old result out.new }
{
    preview(sheet, stim, out)
}

// What can still happen, in one cycle: the answer's code times 2^32, plus its place.
#[unsafe(no_mangle)]
pub extern "C" fn sheet_possible(sheet: &[u8], stim: &[u8], out: &mut [u8]) -> u64
    ensures { PossibleGiven sheet.now stim.now out.old result out.new }
{
    possible(sheet, stim, out)
}

// One press away, in one cycle: the answer's code times 2^32, plus its place; and the change, if one is found.
#[unsafe(no_mangle)]
pub extern "C" fn sheet_press(sheet: &[u8], stim: &[u8], leaf: usize) -> Pressed
    ensures { PressGiven sheet.now stim.now leaf result.result result.found result.leaf result.constructor }
{
    press_of(sheet, stim, leaf)
}

// How many fully defined inputs of one cycle give each value of an output leaf: the answer's code times 2^32, plus its place; and the
// counters.
#[unsafe(no_mangle)]
pub extern "C" fn sheet_count(sheet: &[u8], leaf: usize) -> Counts
    ensures { CountGiven sheet.now leaf result.result result.counters }
{
    count_inputs(sheet, leaf)
}

// The replay of a record: the answer's code times 2^32, plus its place; and what is found.
#[unsafe(no_mangle)]
pub extern "C" fn sheet_replay(
    sheet: &[u8],
    stim: &[u8],
    recorded: &[u8],
    next: &mut [u8],
) -> Replayed
    ensures { ReplayGiven sheet.now stim.now recorded.now next.old result.result result.differs result.cycle result.leaf next.new }
{
    replay(sheet, stim, recorded, next)
}

// The translation of a text into a sheet: the code times 2^32, plus the place.
#[unsafe(no_mangle)]
pub extern "C" fn sheet_translate(text: &[u8], sheet: &mut [u8]) -> u64
    ensures { TranslatedInOne text.now sheet.old result sheet.new }
{
    translate(text, sheet)
}
