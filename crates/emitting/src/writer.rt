// What each instruction writes, and what it does to the stack and the word next. Of an expression
// the parts stand already, and where they begin is on the stack.
ghost use Rattle.std.specs.Prelude.{◌≡◌, [], ◌+◌, ◌*◌, ◌-◌, ◌≤◌, ◌<◌, List, ◌∷◌, length};
ghost use Rattle.records.specs.SheetOf.{Record, words};
ghost use Rattle.instructions.specs.Emission.{Emission, completed, emission, emit, pop, top, zeros_written};
ghost use Rattle.instructions.specs.Said.{said};
ghost use Rattle.emitting.specs.Slots.{popped, slot_of};
ghost use Rattle.grammar.specs.Sizes.{text_table};
ghost use Rattle.emitting.specs.Emitting.{Advancing, InstructionWritten, ZerosPut, expression_numbered, expression_record, record_of, standing};

use crate::bytes::{put_numbered, put_record};
use crate::stack::{Slot, Stack};
use instructions::types::DeclaredTypes;
use instructions::{Instruction, Op};
use records::Kind;

// The record at which the written ones begin, the stack, and the word next of the leaf or the
// alternative that comes next.
#[derive(Drop)]
pub struct Writer {
    pub stack: Stack,
    pub cursor: u16,
    pub next: u16,
}

impl Writer {
    // Before the first record of so many is written, which is the last.
    pub fn before(records: u16) -> Self
        ensures { (result.stack ≡ []) × (result.cursor ≡ records) × (result.next ≡ 0) }
    {
        Writer {
            stack: Stack::new(),
            cursor: records,
            next: 0,
        }
    }

    // So many undefined leaves, the last with the word next.
    pub fn put_zeros(&mut self, sheet: &mut [u8], count: usize)
        requires { 12 * self.old.cursor ≤ length sheet.old }
        ensures { ZerosPut count sheet.old sheet.new self.old.cursor self.old.next self.new.cursor self.new.next × (self.new.stack ≡ self.old.stack) }
    {
        for _ in 0..count {
            self.cursor = put_record(sheet, self.cursor, Kind::Leaf, [self.next, 0, 0, 0, 0]);
            self.next = self.cursor;
        }
    }

    // The expression at the cursor is written: so are the indices that wait for it, and it is a
    // part of what stands before it.
    pub fn complete(&mut self, sheet: &mut [u8])
        requires { Advancing sheet.old self.old }
        ensures { InstructionWritten (λ R. completed R self.old.cursor self.old.stack) sheet.old sheet.new self.old self.new }
    {
        while let Some(kind) = self.stack.pop_waiting() {
            self.cursor = put_record(sheet, self.cursor, kind, [0, self.cursor, 0, 0, 0]);
        }
        self.stack.push(Slot::Number(self.cursor));
        self.next = 0;
    }

    // An expression's record by the number of its kind, in the place of so many slots.
    pub fn put_numbered(&mut self, sheet: &mut [u8], slots: usize, kind: u16, words: [u16; 4])
        requires { Advancing sheet.old self.old }
        ensures { InstructionWritten (λ R. completed (expression_numbered kind words ∷ R) (self.old.cursor - 1) (popped slots self.old.stack)) sheet.old sheet.new self.old self.new }
    {
        let [a, b, c, d] = words;
        self.cursor = put_numbered(sheet, self.cursor, kind, [0, a, b, c, d]);
        self.stack.pop(slots);
        self.complete(sheet);
    }

    // An expression's record, in the place of so many slots.
    pub fn put_expression(&mut self, sheet: &mut [u8], slots: usize, kind: Kind, words: [u16; 4])
        requires { Advancing sheet.old self.old }
        ensures { InstructionWritten (λ R. completed (expression_record kind words ∷ R) (self.old.cursor - 1) (popped slots self.old.stack)) sheet.old sheet.new self.old self.new }
    {
        self.put_numbered(sheet, slots, kind.number(), words);
    }

    // An expression of the two parts on top, by the number of its kind.
    pub fn put_two(&mut self, sheet: &mut [u8], kind: u16)
        requires { Advancing sheet.old self.old }
        ensures { InstructionWritten (λ R. completed (expression_numbered kind (top self.old.stack ∷ top (pop self.old.stack) ∷ 0 ∷ 0 ∷ []) ∷ R) (self.old.cursor - 1) (popped 3 self.old.stack)) sheet.old sheet.new self.old self.new }
    {
        let words = [self.stack.below(0), self.stack.below(1), 0, 0];
        self.put_numbered(sheet, 3, kind, words);
    }

    // A constant of one leaf, which stands behind it.
    pub fn put_constant(&mut self, sheet: &mut [u8], declared: u16, number: u16)
        requires { Advancing sheet.old self.old }
        ensures { InstructionWritten (λ R. completed (words 32 0 declared (self.old.cursor - 1) 0 0 ∷ words 64 0 number 0 0 0 ∷ R) (self.old.cursor - 2) self.old.stack) sheet.old sheet.new self.old self.new }
    {
        self.cursor = put_record(sheet, self.cursor, Kind::Leaf, [0, number, 0, 0, 0]);
        self.put_expression(sheet, 0, Kind::Constant, [declared, self.cursor, 0, 0]);
    }

    // An undefined constant of so many leaves.
    pub fn put_undefined(&mut self, sheet: &mut [u8], declared: u16, count: usize)
        requires { Advancing sheet.old self.old }
        ensures { InstructionWritten (λ R. completed (words 32 0 declared (self.old.cursor - count) 0 0 ∷ zeros_written count R self.old.cursor 0) (self.old.cursor - count - 1) self.old.stack) sheet.old sheet.new self.old self.new }
    {
        self.next = 0;
        self.put_zeros(sheet, count);
        self.put_expression(sheet, 0, Kind::Constant, [declared, self.cursor, 0, 0]);
    }

    // A record that is no expression, in the place of so many slots.
    fn put(&mut self, sheet: &mut [u8], slots: usize, kind: Kind, words: [u16; 5], next: u16)
        requires { Advancing sheet.old self.old }
        ensures { InstructionWritten (λ R. emission (record_of kind words ∷ R) (self.old.cursor - 1) (popped slots self.old.stack) next) sheet.old sheet.new self.old self.new }
    {
        self.cursor = put_record(sheet, self.cursor, kind, words);
        self.stack.pop(slots);
        self.next = next;
    }

    // A slot more, and the word next.
    fn mark(&mut self, slot: Slot, next: u16)
        requires { length self.old.stack < text_table }
        ensures { (self.new.stack ≡ slot_of slot ∷ self.old.stack) × (self.new.cursor ≡ self.old.cursor) × (self.new.next ≡ next) }
    {
        self.stack.push(slot);
        self.next = next;
    }

    // One instruction.
    pub fn step(&mut self, sheet: &mut [u8], types: &DeclaredTypes, instruction: Instruction)
        requires { Advancing sheet.old self.old }
        ensures { InstructionWritten (λ R. emit types.now (standing self.old R) (said instruction)) sheet.old sheet.new self.old self.new }
    {
        let Instruction { op, first, second } = instruction;
        match op {
            Op::UseName => self.put_expression(sheet, 0, Kind::Name, [first, 0, 0, 0]),
            Op::UseConstant => self.put_constant(sheet, first, second),
            Op::UseUndefined => self.put_undefined(sheet, first, types.leaves(first)),
            Op::OpenPair => self.put_two(sheet, Kind::Pair.number()),
            Op::OpenLet => self.put_two(sheet, Kind::Let.number()),
            Op::OpenRec => {
                let words = [first, self.stack.below(0), self.stack.below(1), 0];
                self.put_expression(sheet, 3, Kind::Feedback, words);
            }
            Op::OpenIf => {
                let tested = self.stack.below(0);
                let then = self.stack.below(1);
                let otherwise = self.stack.below(2);
                let pattern = self.stack.below(3);
                self.put_expression(sheet, 5, Kind::If, [tested, then, otherwise, pattern]);
            }
            Op::OpenDelay => {
                let words = [self.stack.below(0), self.cursor, self.stack.below(1), 0];
                self.put_expression(sheet, 3, Kind::Delay, words);
            }
            Op::TakeFirst => self.stack.push(Slot::FirstWaits),
            Op::TakeSecond => self.stack.push(Slot::SecondWaits),
            Op::Close => self.mark(Slot::Barrier, 0),
            Op::BeginPattern => self.stack.push(Slot::Number(self.cursor)),
            Op::MatchType => self.put(sheet, 0, Kind::WholePattern, [self.next, first, 0, 0, 0], 0),
            Op::MatchOne => {
                let words = [self.next, first, second, 0, 0];
                self.put(sheet, 0, Kind::ConstructorPattern, words, 0);
            }
            Op::OpenParts => {
                let part = self.stack.below(0);
                let after = self.stack.below(1);
                let words = [after, self.cursor, part, 0, 0];
                self.put(sheet, 2, Kind::PairPattern, words, 0);
            }
            Op::NextPart => self.mark(Slot::Number(self.cursor), 0),
            Op::CloseParts => self.mark(Slot::Number(self.next), 0),
            Op::NextAlternative => self.next = self.cursor,
            Op::UseLeaf => {
                let words = [self.next, second, 0, 0, 0];
                self.cursor = put_record(sheet, self.cursor, Kind::Leaf, words);
                self.next = self.cursor;
            }
            Op::UseZeros => self.put_zeros(sheet, types.leaves(first)),
            Op::ConstantHas => self.mark(Slot::Number(first), 0),
            Op::DeclareType
            | Op::CountConstructor
            | Op::FirstType
            | Op::SecondType
            | Op::InputHas
            | Op::CloseIf
            | Op::OpenConstant
            | Op::CloseConstant
            | Op::EndConstant => {}
        }
    }
}
