// The assembly of a text's instructions, one after the other.
ghost use Rattle.std.specs.Prelude.{◌≡◌, ℕ, ◌+◌, ◌≤◌, length, reverse};
ghost use Rattle.instructions.specs.Assembly.{assemble_all, assemble_one, nothing_assembled};
ghost use Rattle.instructions.specs.Instruction.{end_constant};
ghost use Rattle.instructions.specs.Said.{said};
ghost use Rattle.ordering.specs.Assembled.{Few};
ghost use Rattle.ordering.specs.Held.{HasRoom, assembled, records_of};
ghost use Rattle.grammar.specs.Legal.{text_bytes};

use crate::code::close_if;
use crate::constants::ConstantTypes;
use instructions::code::Code;
use instructions::types::DeclaredTypes;
use instructions::{Instruction, Op};

// The declared types and the input's, the instructions in record order, how many records the
// expression has, and the place of the first constant without a type. Beside them the patterns that
// wait, the constants that are being read, and the place of the outermost.
#[derive(Drop)]
pub struct Assembly {
    pub types: DeclaredTypes,
    pub input: u16,
    pub code: Code,
    pub waiting: Code,
    pub constants: ConstantTypes,
    pub place: u16,
    pub records: usize,
    pub untyped: Option<u16>,
}

impl Assembly {
    // Before the first instruction.
    pub fn new() -> Self
        ensures { assembled result ≡ nothing_assembled }
    {
        Assembly {
            types: DeclaredTypes::new(),
            input: 0,
            code: Code::new(),
            waiting: Code::new(),
            constants: ConstantTypes::new(),
            place: 0,
            records: 0,
            untyped: None,
        }
    }

    // Before the first instruction again. The lengths alone say so: no table is written.
    fn clear(&mut self)
        ensures { assembled self.new ≡ nothing_assembled }
    {
        self.types.clear();
        self.input = 0;
        self.code.truncate(0);
        self.waiting.truncate(0);
        self.constants.clear();
        self.place = 0;
        self.records = 0;
        self.untyped = None;
    }

    // All instructions of a text, in its order, whatever was held before. It stays in its place,
    // since a copy would not fit the stack beside it.
    pub fn read(&mut self, instructions: &Code)
        requires { length instructions.now ≤ text_bytes }
        ensures whole { assembled self.new ≡ assemble_all nothing_assembled (reverse instructions.now) }
        ensures few { Few (length instructions.now) (assembled self.new) }
    {
        self.clear();
        for k in 0..instructions.len() {
            self.step(instructions.get(k));
        }
    }

    // The records that an instruction adds.
    fn records_of(&self, instruction: Instruction) -> usize
        ensures { (result ≡ records_of self.now.types (said instruction)) × (result ≤ 65) }
    {
        match instruction.op {
            Op::UseName
            | Op::OpenPair
            | Op::OpenLet
            | Op::OpenRec
            | Op::OpenIf
            | Op::OpenDelay
            | Op::TakeFirst
            | Op::TakeSecond
            | Op::MatchType
            | Op::MatchOne
            | Op::OpenParts
            | Op::UseLeaf => 1,
            Op::UseConstant => 2,
            Op::UseUndefined => 1 + self.types.leaves(instruction.first),
            Op::UseZeros => self.types.leaves(instruction.first),
            _ => 0,
        }
    }

    // One instruction more, from any assembly with room for it.
    pub fn step(&mut self, instruction: Instruction)
        requires { HasRoom self.old }
        ensures one_more { assembled self.new ≡ assemble_one (assembled self.old) (said instruction) }
        ensures few { (n : ℕ) → Few n (assembled self.old) → Few (n + 1) (assembled self.new) }
    {
        self.records += self.records_of(instruction);
        match instruction.op {
            Op::DeclareType => self.types.declare(),
            Op::CountConstructor => self.types.count_constructor(),
            Op::FirstType => self.types.set_first(instruction.first),
            Op::SecondType => self.types.set_second(instruction.first),
            Op::InputHas => self.input = instruction.first,
            Op::UseName
            | Op::UseConstant
            | Op::UseUndefined
            | Op::OpenPair
            | Op::OpenLet
            | Op::OpenRec
            | Op::OpenIf
            | Op::OpenDelay
            | Op::TakeFirst
            | Op::TakeSecond
            | Op::Close => self.code.push(instruction),
            Op::CloseIf => close_if(&mut self.code, &mut self.waiting),
            Op::BeginPattern
            | Op::MatchType
            | Op::MatchOne
            | Op::OpenParts
            | Op::NextPart
            | Op::CloseParts
            | Op::NextAlternative => self.waiting.push(instruction),
            Op::UseLeaf | Op::UseZeros => {
                self.code.push(instruction);
                self.constants.push(instruction.first);
            }
            Op::OpenConstant => {
                self.place = self.constants.outer_place(self.place, instruction.first);
                self.constants.push(0);
            }
            Op::CloseConstant => self.constants.close_pair(&self.types),
            Op::EndConstant => self.end_constant(),
            Op::ConstantHas => {}
        }
    }

    // The end of a DELAY's constant, which has a type, or is the first that has none.
    fn end_constant(&mut self)
        requires { HasRoom self.old }
        ensures { assembled self.new ≡ assemble_one (assembled self.old) end_constant }
    {
        let declared = self.constants.top();
        self.constants.clear();
        self.code.push(Instruction {
            op: Op::ConstantHas,
            first: declared,
            second: 0,
        });
        if declared == 0 && self.untyped.is_none() {
            self.untyped = Some(self.place);
        }
    }
}
