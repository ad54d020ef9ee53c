// What the states of the grammar's machine say of names: a line a state.
ghost use Rattle.std.specs.Prelude.{◌≡◌, ◌<◌, get_or};
ghost use Rattle.grammar.specs.Sizes.{state_count};
ghost use Rattle.name_rules.specs.TokenWalk.{rule_in, admits};
ghost use Rattle.recognizer.specs.Coded.{state_of, lead_bytes};
ghost use Rattle.symbols.specs.RoleNumbers.{role_code};
ghost use Rattle.scoping.specs.Scoped.{effect_of, effect_by};
ghost use Rattle.scoping.specs.TableNumbers.{rule_of, effect_code};

use recognizer::numbers::{LEAD_CLASSES, STATES};
use symbols::Role;

// What a name has to be: new, a type, a type or a constructor, a constructor, a value, or anything.
#[derive(Clone, Copy, PartialEq, Eq, Debug)]
pub enum NameRule {
    NewName,
    TypeUse,
    PatternUse,
    ConstantUse,
    ValueUse,
    Ruleless,
}

// What a token does to the names in scope: nothing; a name is kept for later; a constructor is declared, after its type or not; a name is
// bound; the name kept is bound, or declared as a type; the nearest bound name goes.
#[derive(Clone, Copy, PartialEq, Eq, Debug)]
pub enum Effect {
    KeepsScope,
    Pends,
    DeclaresFirst,
    DeclaresNext,
    Binds,
    BindsPending,
    DeclaresPending,
    Unbinds,
}

use Effect::{
    Binds as B, BindsPending as W, DeclaresFirst as F, DeclaresNext as N, DeclaresPending as T,
    KeepsScope as K, Pends as P, Unbinds as U,
};

static RULES: [NameRule; STATES] = [
    NameRule::Ruleless, // start
    NameRule::Ruleless, // declared
    NameRule::NewName, // typeName
    NameRule::Ruleless, // typeEquals
    NameRule::NewName, // typeBody
    NameRule::Ruleless, // constructorEnd
    NameRule::NewName, // constructorNext
    NameRule::TypeUse, // pairFirstType
    NameRule::Ruleless, // pairComma
    NameRule::TypeUse, // pairSecondType
    NameRule::Ruleless, // pairClose
    NameRule::Ruleless, // pairIn
    NameRule::TypeUse, // inputType
    NameRule::ValueUse, // expression
    NameRule::TypeUse, // undefinedType
    NameRule::ValueUse, // bracket
    NameRule::Ruleless, // done
    NameRule::Ruleless, // inPairFirst
    NameRule::Ruleless, // inPairSecond
    NameRule::NewName, // letName
    NameRule::Ruleless, // letEquals
    NameRule::Ruleless, // inLetBound
    NameRule::Ruleless, // inLetBody
    NameRule::Ruleless, // initQuery
    NameRule::TypeUse, // initType
    NameRule::Ruleless, // recWord
    NameRule::NewName, // recName
    NameRule::Ruleless, // recEquals
    NameRule::Ruleless, // inRecBound
    NameRule::Ruleless, // inRecBody
    NameRule::Ruleless, // inTested
    NameRule::PatternUse, // pattern
    NameRule::Ruleless, // inMatched
    NameRule::Ruleless, // inPatternFirst
    NameRule::Ruleless, // inPatternSecond
    NameRule::Ruleless, // inThen
    NameRule::Ruleless, // inElse
    NameRule::Ruleless, // delayBracket
    NameRule::ConstantUse, // constant
    NameRule::Ruleless, // inDelayConstant
    NameRule::Ruleless, // inConstantFirst
    NameRule::Ruleless, // inConstantSecond
    NameRule::Ruleless, // inDelayed
    NameRule::Ruleless, // delayClose
    NameRule::Ruleless, // index
    NameRule::Ruleless, // indexOne
    NameRule::Ruleless, // indexTwo
];

// By the class of a token's first byte, under a letter of the effect's name.
static EFFECTS: [[Effect; LEAD_CLASSES]; STATES] = [
    [K, K, K, K, K, K, K, K, K, K, K, K, K, K, K, K, K, K], // start
    [K, K, K, K, K, K, K, K, K, K, K, K, K, K, K, K, K, K], // declared
    [K, K, K, K, K, K, K, K, K, K, P, K, K, K, K, K, K, K], // typeName
    [K, K, K, K, K, K, K, K, K, K, K, K, K, K, K, K, K, K], // typeEquals
    [K, K, K, K, K, K, K, K, K, K, F, K, K, K, K, K, K, K], // typeBody
    [K, K, K, K, K, K, K, K, K, K, K, K, K, K, K, K, K, K], // constructorEnd
    [K, K, K, K, K, K, K, K, K, K, N, K, K, K, K, K, K, K], // constructorNext
    [K, K, K, K, K, K, K, K, K, K, K, K, K, K, K, K, K, K], // pairFirstType
    [K, K, K, K, K, K, K, K, K, K, K, K, K, K, K, K, K, K], // pairComma
    [K, K, K, K, K, K, K, K, K, K, T, K, K, K, K, K, K, K], // pairSecondType
    [K, K, K, K, K, K, K, K, K, K, K, K, K, K, K, K, K, K], // pairClose
    [K, K, K, K, K, K, K, K, K, K, K, K, K, K, K, K, K, K], // pairIn
    [K, K, K, K, K, K, K, K, K, K, K, K, K, K, K, K, K, K], // inputType
    [K, K, K, K, K, K, K, K, K, K, K, K, K, K, K, K, K, K], // expression
    [K, K, K, K, K, K, K, K, K, K, K, K, K, K, K, K, K, K], // undefinedType
    [K, K, K, K, K, K, K, K, K, K, K, K, K, K, K, K, K, K], // bracket
    [K, K, K, K, K, K, K, K, K, K, K, K, K, K, K, K, K, K], // done
    [K, K, K, K, K, K, K, K, K, K, K, K, K, K, K, K, K, K], // inPairFirst
    [K, K, K, K, K, K, K, K, K, K, K, K, K, K, K, K, K, K], // inPairSecond
    [K, K, K, K, K, K, K, K, K, K, P, K, K, K, K, K, K, K], // letName
    [K, K, K, K, K, K, K, K, K, K, K, K, K, K, K, K, K, K], // letEquals
    [K, K, K, K, K, K, K, K, K, K, K, K, W, K, K, K, K, K], // inLetBound
    [K, U, K, K, K, K, K, K, K, K, K, K, K, K, K, K, K, K], // inLetBody
    [K, K, K, K, K, K, K, K, K, K, K, K, K, K, K, K, K, K], // initQuery
    [K, K, K, K, K, K, K, K, K, K, K, K, K, K, K, K, K, K], // initType
    [K, K, K, K, K, K, K, K, K, K, K, K, K, K, K, K, K, K], // recWord
    [K, K, K, K, K, K, K, K, K, K, B, K, K, K, K, K, K, K], // recName
    [K, K, K, K, K, K, K, K, K, K, K, K, K, K, K, K, K, K], // recEquals
    [K, K, K, K, K, K, K, K, K, K, K, K, K, K, K, K, K, K], // inRecBound
    [K, U, K, K, K, K, K, K, K, K, K, K, K, K, K, K, K, K], // inRecBody
    [K, K, K, K, K, K, K, K, K, K, K, K, K, K, K, K, K, K], // inTested
    [K, K, K, K, K, K, K, K, K, K, K, K, K, K, K, K, K, K], // pattern
    [K, K, K, K, K, K, K, K, K, K, K, K, K, K, K, K, K, K], // inMatched
    [K, K, K, K, K, K, K, K, K, K, K, K, K, K, K, K, K, K], // inPatternFirst
    [K, K, K, K, K, K, K, K, K, K, K, K, K, K, K, K, K, K], // inPatternSecond
    [K, K, K, K, K, K, K, K, K, K, K, K, K, K, K, K, K, K], // inThen
    [K, K, K, K, K, K, K, K, K, K, K, K, K, K, K, K, K, K], // inElse
    [K, K, K, K, K, K, K, K, K, K, K, K, K, K, K, K, K, K], // delayBracket
    [K, K, K, K, K, K, K, K, K, K, K, K, K, K, K, K, K, K], // constant
    [K, K, K, K, K, K, K, K, K, K, K, K, K, K, K, K, K, K], // inDelayConstant
    [K, K, K, K, K, K, K, K, K, K, K, K, K, K, K, K, K, K], // inConstantFirst
    [K, K, K, K, K, K, K, K, K, K, K, K, K, K, K, K, K, K], // inConstantSecond
    [K, K, K, K, K, K, K, K, K, K, K, K, K, K, K, K, K, K], // inDelayed
    [K, K, K, K, K, K, K, K, K, K, K, K, K, K, K, K, K, K], // delayClose
    [K, K, K, K, K, K, K, K, K, K, K, K, K, K, K, K, K, K], // index
    [K, K, K, K, K, K, K, K, K, K, K, K, K, K, K, K, K, K], // indexOne
    [K, K, K, K, K, K, K, K, K, K, K, K, K, K, K, K, K, K], // indexTwo
];

impl NameRule {
    // The rule for a name in a state.
    pub fn at(state: u8) -> Self
        requires { state < state_count }
        ensures { rule_of result ≡ rule_in (state_of state) }
    {
        RULES[usize::from(state)]
    }

    // Whether a name keeps to it that stands for so much.
    pub fn admits(self, role: Role) -> bool
        ensures { result ≡ admits (rule_of self) (role_code role) }
    {
        match self {
            NameRule::NewName => role == Role::Unknown,
            NameRule::TypeUse => role == Role::TypeName,
            NameRule::PatternUse => role.is_declared(),
            NameRule::ConstantUse => role == Role::Constructor,
            NameRule::ValueUse => matches!(role, Role::Constructor | Role::Input | Role::Bound),
            NameRule::Ruleless => true,
        }
    }
}

impl Effect {
    // The effect of a token in a state, by the class of its first byte.
    pub fn at(state: u8, class: u8) -> Self
        requires { (state < state_count) × (class < 18) }
        ensures { effect_of (effect_code result) ≡ effect_by (state_of state) (get_or lead_bytes class 0) }
    {
        EFFECTS[usize::from(state)][usize::from(class)]
    }
}

// By the number of the rules; a number that none of them has does nothing.
impl From<u8> for Effect {
    ghost from_gives = { λ number effect. effect_of (effect_code effect) ≡ effect_of number };

    fn from(number: u8) -> Effect {
        match number {
            1 => Effect::Pends,
            2 => Effect::DeclaresFirst,
            3 => Effect::DeclaresNext,
            4 => Effect::Binds,
            5 => Effect::BindsPending,
            6 => Effect::DeclaresPending,
            7 => Effect::Unbinds,
            _ => Effect::KeepsScope,
        }
    }
}
