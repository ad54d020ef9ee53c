// The translation of a text into a sheet: the grammar, the names, the constants, the room, in this order, and then the sheet is written.
// Each step leaves what it found for the next; nothing is written to the lent slice before all is checked.
#![tactic(auto)]

ghost use Rattle.std.specs.Prelude.{◌≡◌, List, length};
ghost use Rattle.answers.specs.Results.{answer_of};
ghost use Rattle.grammar.specs.Legal.{Keeps};
ghost use Rattle.translator.specs.Translated.{Translated, TranslatedInOne};
ghost use Rattle.translator.specs.LayingOut.{TranslatingResolved, TranslatingAssembled};

use answers::{Answer, Code, Refusal, packed};
use emitting::write_sheet;
use instructions::code::Code as Instructions;
use ordering::assembly::Assembly;
use recognizer::first_illegal;
use records::{RECORD_BYTES, RECORDS};
use resolving::resolve;

// The sheet from the assembled instructions, where all constants have a type and there is room, and how many bytes it has.
fn write_out(text: &[u8], assembly: &Assembly, sheet: &mut [u8]) -> Answer
    requires { TranslatingAssembled text.now assembly.now }
    ensures { Translated text.now sheet.old (answer_of result) sheet.new }
{
    if let Some(place) = assembly.untyped {
        return Err(Refusal {
            code: Code::WrongName,
            place: u32::from(place),
        });
    }
    let records = 1 + assembly.types.len() + assembly.records;
    let needed = RECORD_BYTES * records;
    let no_room = Refusal {
        code: Code::NoRoom,
        place: needed as u32,
    };
    if sheet.len() < needed {
        return Err(no_room);
    }
    if RECORDS < records {
        return Err(no_room);
    }
    write_sheet(
        &assembly.code,
        &assembly.types,
        assembly.input,
        records,
        sheet,
    );
    Ok(needed as u32)
}

// The sheet of a text whose names are good, from its instructions in text order.
fn lay_out(text: &[u8], instructions: &Instructions, sheet: &mut [u8]) -> Answer
    requires { TranslatingResolved text.now instructions.now }
    ensures { Translated text.now sheet.old (answer_of result) sheet.new }
{
    let mut assembly = Assembly::new();
    assembly.read(instructions);
    write_out(text, &assembly, sheet)
}

// The sheet of a text in the grammar, or its first bad name or constant, or that there is no room.
fn translate_legal(text: &[u8], sheet: &mut [u8]) -> Answer
    requires { Keeps text.now }
    ensures { Translated text.now sheet.old (answer_of result) sheet.new }
{
    let mut instructions = Instructions::new();
    match resolve(text, &mut instructions) {
        Ok(()) => lay_out(text, &instructions, sheet),
        Err(bad_name) => Err(Refusal {
            code: Code::WrongName,
            place: bad_name.place as u32,
        }),
    }
}

// The sheet of a text, or the first place where it leaves the grammar, or what comes after that.
fn translate_any(text: &[u8], sheet: &mut [u8]) -> Answer
    ensures { Translated text.now sheet.old (answer_of result) sheet.new }
{
    match first_illegal(text) {
        Some(i) => Err(Refusal {
            code: Code::WrongText,
            place: i as u32,
        }),
        None => translate_legal(text, sheet),
    }
}

// The translation: the answer's code and place in one number.
pub fn translate(text: &[u8], sheet: &mut [u8]) -> u64
    ensures { TranslatedInOne text.now sheet.old result sheet.new }
{
    packed(translate_any(text, sheet))
}
