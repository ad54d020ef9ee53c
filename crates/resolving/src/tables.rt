// What a token says in a state of the grammar's machine: a line a state.
ghost use Rattle.std.specs.Prelude.{◌≡◌, ◌<◌, get_or};
ghost use Rattle.grammar.specs.Sizes.{state_count};
ghost use Rattle.recognizer.specs.Classes.{class_index};
ghost use Rattle.recognizer.specs.Coded.{state_of, lead_bytes};
ghost use Rattle.instructions.specs.TokenOrder.{op_by};
ghost use Rattle.resolving.specs.Said.{op_said};

use instructions::Op;
use instructions::Op::{
    BeginPattern, Close, CloseConstant, CloseIf, CloseParts, CountConstructor, DeclareType,
    EndConstant, FirstType, InputHas, MatchType, NextAlternative, NextPart, OpenConstant,
    OpenDelay, OpenIf, OpenLet, OpenPair, OpenParts, OpenRec, SecondType, TakeFirst, TakeSecond,
    UseLeaf, UseName, UseUndefined,
};
use recognizer::classes::Class;
use recognizer::numbers::{LEAD_CLASSES, STATES};

// The entries of the table, each under two letters of its name; N where nothing is said.
const N: Option<Op> = None;

const BP: Option<Op> = Some(BeginPattern);

const CL: Option<Op> = Some(Close);

const CC: Option<Op> = Some(CloseConstant);

const CI: Option<Op> = Some(CloseIf);

const CS: Option<Op> = Some(CloseParts);

const CO: Option<Op> = Some(CountConstructor);

const DT: Option<Op> = Some(DeclareType);

const EC: Option<Op> = Some(EndConstant);

const FT: Option<Op> = Some(FirstType);

const IH: Option<Op> = Some(InputHas);

const MT: Option<Op> = Some(MatchType);

const NA: Option<Op> = Some(NextAlternative);

const NS: Option<Op> = Some(NextPart);

const OC: Option<Op> = Some(OpenConstant);

const OD: Option<Op> = Some(OpenDelay);

const OI: Option<Op> = Some(OpenIf);

const OL: Option<Op> = Some(OpenLet);

const OP: Option<Op> = Some(OpenPair);

const OS: Option<Op> = Some(OpenParts);

const OR: Option<Op> = Some(OpenRec);

const ST: Option<Op> = Some(SecondType);

const TF: Option<Op> = Some(TakeFirst);

const TS: Option<Op> = Some(TakeSecond);

const UL: Option<Op> = Some(UseLeaf);

const UN: Option<Op> = Some(UseName);

const UU: Option<Op> = Some(UseUndefined);

// By the class of a token's first byte.
static SAYINGS: [[Option<Op>; LEAD_CLASSES]; STATES] = [
    [N, N, N, N, N, N, N, N, N, N, N, N, N, N, N, N, N, N], // start
    [N, N, N, N, N, N, N, N, N, N, N, N, N, N, N, N, N, N], // declared
    [N, N, N, N, N, N, N, N, N, N, DT, N, N, N, N, N, N, N], // typeName
    [N, N, N, N, N, N, N, N, N, N, N, N, N, N, N, N, N, N], // typeEquals
    [N, N, N, N, N, N, N, N, N, N, CO, N, N, N, N, N, N, N], // typeBody
    [N, N, N, N, N, N, N, N, N, N, N, N, N, N, N, N, N, N], // constructorEnd
    [N, N, N, N, N, N, N, N, N, N, CO, N, N, N, N, N, N, N], // constructorNext
    [N, N, N, N, N, N, N, N, N, N, FT, N, N, N, N, N, N, N], // pairFirstType
    [N, N, N, N, N, N, N, N, N, N, N, N, N, N, N, N, N, N], // pairComma
    [N, N, N, N, N, N, N, N, N, N, ST, N, N, N, N, N, N, N], // pairSecondType
    [N, N, N, N, N, N, N, N, N, N, N, N, N, N, N, N, N, N], // pairClose
    [N, N, N, N, N, N, N, N, N, N, N, N, N, N, N, N, N, N], // pairIn
    [N, N, N, N, N, N, N, N, N, N, IH, N, N, N, N, N, N, N], // inputType
    [N, N, N, N, N, N, N, N, N, N, UN, N, N, N, N, N, N, N], // expression
    [N, N, N, N, N, N, N, N, N, N, UU, N, N, N, N, N, N, N], // undefinedType
    [OP, N, N, N, N, OP, N, N, N, N, UN, N, OI, N, N, N, N, OD], // bracket
    [N, N, N, N, N, N, N, N, N, N, N, N, N, N, N, N, N, N], // done
    [N, N, N, N, N, N, N, N, N, N, N, N, N, N, N, N, N, N], // inPairFirst
    [N, CL, N, N, N, N, N, N, N, N, N, N, N, N, N, N, N, N], // inPairSecond
    [N, N, N, N, N, N, N, N, N, N, OL, N, N, N, N, N, N, N], // letName
    [N, N, N, N, N, N, N, N, N, N, N, N, N, N, N, N, N, N], // letEquals
    [N, N, N, N, N, N, N, N, N, N, N, N, N, N, N, N, N, N], // inLetBound
    [N, CL, N, N, N, N, N, N, N, N, N, N, N, N, N, N, N, N], // inLetBody
    [N, N, N, N, N, N, N, N, N, N, N, N, N, N, N, N, N, N], // initQuery
    [N, N, N, N, N, N, N, N, N, N, OR, N, N, N, N, N, N, N], // initType
    [N, N, N, N, N, N, N, N, N, N, N, N, N, N, N, N, N, N], // recWord
    [N, N, N, N, N, N, N, N, N, N, N, N, N, N, N, N, N, N], // recName
    [N, N, N, N, N, N, N, N, N, N, N, N, N, N, N, N, N, N], // recEquals
    [N, N, N, N, N, N, N, N, N, N, N, N, N, N, N, N, N, N], // inRecBound
    [N, CL, N, N, N, N, N, N, N, N, N, N, N, N, N, N, N, N], // inRecBody
    [N, N, N, N, N, N, N, N, N, N, N, N, N, N, N, BP, N, N], // inTested
    [OS, N, N, N, N, N, N, N, N, N, MT, N, N, N, N, N, N, N], // pattern
    [N, N, N, N, NA, N, N, N, N, N, N, N, N, N, N, N, N, N], // inMatched
    [N, N, NS, N, NA, N, N, N, N, N, N, N, N, N, N, N, N, N], // inPatternFirst
    [N, CS, N, N, NA, N, N, N, N, N, N, N, N, N, N, N, N, N], // inPatternSecond
    [N, N, N, N, N, N, N, N, N, N, N, N, N, N, N, N, N, N], // inThen
    [N, CI, N, N, N, N, N, N, N, N, N, N, N, N, N, N, N, N], // inElse
    [N, N, N, N, N, N, N, N, N, N, N, N, N, N, N, N, N, N], // delayBracket
    [OC, N, N, N, N, N, N, N, N, N, UL, N, N, N, N, N, N, N], // constant
    [N, N, EC, N, N, N, N, N, N, N, N, N, N, N, N, N, N, N], // inDelayConstant
    [N, N, N, N, N, N, N, N, N, N, N, N, N, N, N, N, N, N], // inConstantFirst
    [N, CC, N, N, N, N, N, N, N, N, N, N, N, N, N, N, N, N], // inConstantSecond
    [N, CL, N, N, N, N, N, N, N, N, N, N, N, N, N, N, N, N], // inDelayed
    [N, N, N, N, N, N, N, N, N, N, N, N, N, N, N, N, N, N], // delayClose
    [N, N, N, N, N, N, N, N, TF, TS, N, N, N, N, N, N, N, N], // index
    [N, N, N, N, N, N, N, N, N, N, N, N, N, N, N, N, N, N], // indexOne
    [N, N, N, N, N, N, N, N, N, N, N, N, N, N, N, N, N, N], // indexTwo
];

// What a token says in a state, by the class of its first byte.
pub fn saying(state: usize, class: Class) -> Option<Op>
    requires { (state < state_count) × (class_index class < 18) }
    ensures { op_said result ≡ op_by (state_of state) (get_or lead_bytes (class_index class) 0) }
{
    SAYINGS[state][class.index()]
}
