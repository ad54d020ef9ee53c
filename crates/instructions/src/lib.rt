// The instructions between a text and its records: what they are, their order, what they write.
// Here are their numbers; `code` has lists of them, and `types` the types that they declare.
#![tactic(auto)]

pub mod code;
pub mod types;

// One more than the bytes of a text, and so than its instructions.
pub const INSTRUCTIONS: usize = 65536;

// What an instruction does, in the order of the numbers (`op_of` in specs/Instruction.antt).
#[derive(Clone, Copy, Debug, PartialEq, Eq)]
pub enum Op {
    // Of declarations:
    DeclareType,
    CountConstructor,
    FirstType,
    SecondType,
    InputHas,
    // Of expressions:
    UseName,
    UseConstant,
    UseUndefined,
    OpenPair,
    OpenLet,
    OpenRec,
    OpenIf,
    OpenDelay,
    TakeFirst,
    TakeSecond,
    Close,
    CloseIf,
    // Of patterns:
    BeginPattern,
    MatchType,
    MatchOne,
    OpenParts,
    NextPart,
    CloseParts,
    NextAlternative,
    // Of the constant of a DELAY:
    UseLeaf,
    UseZeros,
    OpenConstant,
    CloseConstant,
    EndConstant,
    ConstantHas,
}

// An instruction, with the two operands that all have in a table; those that one does not name are
// 0.
#[derive(Clone, Copy)]
pub struct Instruction {
    pub op: Op,
    pub first: u16,
    pub second: u16,
}
