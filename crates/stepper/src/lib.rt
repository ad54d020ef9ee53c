// One cycle of a sheet: the root's value for an input, and the sheet with every delay holding its
// next value.
#![tactic(auto)]

ghost use Rattle.std.specs.Prelude.{◌≡◌, ◌<◌};
ghost use Rattle.records.specs.Words.{count, word_b};
ghost use Rattle.records.specs.Kinds.{leafs};
ghost use Rattle.records.specs.Says.{kind_at, sort_at};
ghost use Rattle.records.specs.Trees.{chain};
ghost use Rattle.behaviour.specs.Copies.{copied, leaves_by_kind, delay_chains};
ghost use Rattle.stepper.specs.Cycling.{Copying, Cycling, Looked, Cycled};

use evaluator::Evaluator;
use records::{Kind, Sheet, WORD_A, WORD_B, WORD_NEXT, WidthTable, offset};
use values::{NextValues, Room, enter_value};

// Copies a table's entries to the leaves from `first`: word a, low byte first.
fn copy_chain(sheet: &Sheet, first: usize, held: &NextValues, current: &mut [u8])
    requires { Copying sheet.now (count sheet.now) current.old × (first < count sheet.now) × (sort_at sheet.now first ≡ leafs) }
    ensures { current.new ≡ copied held.now (chain sheet.now first) current.old }
{
    let mut leaf = first;
    while leaf != 0 {
        let at = offset(leaf, WORD_A);
        current[at] = held[leaf];
        current[at + 1] = 0;
        leaf = sheet.word(leaf, WORD_NEXT);
    }
}

// Copies a table's entries to the leaves of rec, where that is a delay.
fn copy_record(sheet: &Sheet, rec: usize, held: &NextValues, current: &mut [u8])
    requires { Copying sheet.now (count sheet.now) current.old × (rec < count sheet.now) }
    ensures { current.new ≡ copied held.now (leaves_by_kind (kind_at sheet.now rec) (chain sheet.now (word_b sheet.now rec))) current.old }
{
    if let Kind::Delay = sheet.kind(rec) {
        copy_chain(sheet, sheet.word(rec, WORD_B), held, current);
    }
}

// Copies a table's entries to the leaves of every delay.
fn copy_all(sheet: &Sheet, held: &NextValues, current: &mut [u8])
    requires { Copying sheet.now (count sheet.now) current.old }
    ensures { current.new ≡ copied held.now (delay_chains sheet.now (count sheet.now)) current.old }
{
    for rec in 0..sheet.records() {
        copy_record(sheet, rec, held, current);
    }
}

// The evaluating half of a cycle from the sheet in `current`: the output goes to `out` and, where
// `whole` is true, the delays' next values and the numbers of the IFs to their tables in the room;
// otherwise these two stay as they are. The sheet that was checked is read for its records alone.
pub fn look(
    sheet: &Sheet,
    widths: &WidthTable,
    room: &mut Room,
    input: &[u8],
    current: &Sheet,
    out: &mut [u8],
    whole: bool,
)
    requires { Cycling sheet.now (count sheet.now) widths.now room.old.env room.old.held input.now current.now out.old }
    ensures { Looked whole input.now current.now room.old.held room.old.fired room.new.env room.new.held room.new.fired out.new }
{
    enter_value(&mut room.env, 0, input);
    let root = sheet.word(0, WORD_B);
    let evaluator = Evaluator {
        sheet: current,
        widths,
    };
    evaluator.eval(room, 1, root, out, whole);
}

// One cycle from the sheet in `current`: the output goes to `out`, and the sheet after the cycle to
// `current`.
pub fn cycle(
    sheet: &Sheet,
    widths: &WidthTable,
    room: &mut Room,
    input: &[u8],
    current: &mut [u8],
    out: &mut [u8],
)
    requires { Cycling sheet.now (count sheet.now) widths.now room.old.env room.old.held input.now current.old out.old }
    ensures { Cycled input.now current.old room.new.env room.new.held current.new out.new }
{
    let before = Sheet::of(current, sheet.records());
    look(sheet, widths, room, input, &before, out, true);
    copy_all(sheet, &room.held, current);
}
