// Writes the sheet of instructions in record order. They are read from the last to the first, and the sheet is written from its last record to
// its first: of an expression the parts are written before it, so that where they begin is known. Then come the types, from the last to the
// first, and the header.
#![tactic(auto)]

ghost use Rattle.std.specs.Prelude.{◌≡◌, ◌+◌, ◌*◌, ◌≤◌, ◌<◌, length};
ghost use Rattle.instructions.specs.Emission.{type_record};
ghost use Rattle.instructions.specs.Types.{type_declared};
ghost use Rattle.emitting.specs.Emitting.{RecordPut, emitted_from, Emitting, Emitted, CodeWritten, TypesPut};
ghost use Rattle.grammar.specs.Legal.{text_bytes};
ghost use Rattle.records.specs.Limits.{most_records};

use bytes::{clear_from, put_record};
use instructions::code::Code;
use instructions::types::{DeclaredType, DeclaredTypes};
use records::{Kind, RECORD_BYTES};
use writer::Writer;

pub mod bytes;
pub mod stack;
pub mod writer;

// The records of the instructions.
fn write_code(code: &Code, types: &DeclaredTypes, records: u16, sheet: &mut [u8])
    requires { (length code.now ≤ text_bytes) × (12 * records ≤ length sheet.old) }
    ensures { CodeWritten types.now code.now records sheet.old sheet.new }
{
    let mut writer = Writer::before(records);
    for k in (0..code.len()).rev() {
        writer.step(sheet, types, code.get(k));
    }
}

// A type's record.
fn put_type_record(sheet: &mut [u8], cursor: u16, next: u16, declared: DeclaredType) -> u16
    requires { 12 * cursor ≤ length sheet.old }
    ensures { RecordPut sheet.old sheet.new cursor (type_record (type_declared declared) next) result }
{
    match declared {
        DeclaredType::Flat(constructors) => {
            put_record(sheet, cursor, Kind::FlatType, [next, constructors, 0, 0, 0])
        }
        DeclaredType::Paired(first, second) => {
            put_record(sheet, cursor, Kind::PairType, [next, first, second, 0, 0])
        }
    }
}

// The records of the types, before those that stand.
fn write_types(types: &DeclaredTypes, sheet: &mut [u8])
    requires { (12 * (length types.now + 1) ≤ length sheet.old) × (length types.now < most_records) }
    ensures { TypesPut types.now sheet.old sheet.new }
{
    let mut cursor = (types.len() + 1) as u16;
    let mut next = 0;
    for k in (0..types.len()).rev() {
        cursor = put_type_record(sheet, cursor, next, types.get(k));
        next = cursor;
    }
}

// The whole sheet, and zeros after it.
pub fn write_sheet(code: &Code, types: &DeclaredTypes, input: u16, records: usize, sheet: &mut [u8])
    requires { Emitting types.now code.now records sheet.old }
    ensures { Emitted types.now (emitted_from types.now code.now records) input records sheet.old sheet.new }
{
    clear_from(sheet, RECORD_BYTES * records);
    write_code(code, types, records as u16, sheet);
    write_types(types, sheet);
    let expression = (types.len() + 1) as u16;
    let words = [1, input, expression, records as u16, 0];
    put_record(sheet, 1, Kind::Header, words);
}
