// The instructions that the tokens of a text say.
ghost use Rattle.std.specs.Prelude.{◌≡◌, [], ◌∷◌, ◌≤◌, ◌<◌};
ghost use Rattle.recognizer.specs.Classes.{class_index};
ghost use Rattle.recognizer.specs.Coded.{state_of};
ghost use Rattle.symbols.specs.Names.{letters_at, Inside};
ghost use Rattle.instructions.specs.Said.{number_of};
ghost use Rattle.instructions.specs.TokenOrder.{declared_op, in_constant, name_said, pair_before, value_said};
ghost use Rattle.name_rules.specs.TokenWalk.{bound_in, declared_in};
ghost use Rattle.scoping.specs.Held.{held};
ghost use Rattle.resolving.specs.Said.{CodeSaid, op_said, named_said, class_said};
ghost use Rattle.resolving.specs.Walked.{Saying};
ghost use Rattle.grammar.specs.Legal.{text_bytes};
ghost use Rattle.grammar.specs.Sizes.{state_count};

use crate::code::say;
use crate::numbering::{entry, has_role};
use crate::walk::Walk;
use instructions::Op;
use instructions::code::Code;
use recognizer::classes::Class;
use symbols::{Role, Span};

// The state after the bracket of an expression.
const BRACKET: u8 = 15;

// The states of a DELAY's constant that wait, from the first to the last.
const CONSTANT_WAITS: u8 = 39;

const LAST_CONSTANT_WAITS: u8 = 41;

// The instruction over a declared name.
fn declared_op(op: Op, delayed: bool, typed: bool) -> Op
    ensures { number_of result ≡ declared_op (number_of op) delayed typed }
{
    match op {
        Op::MatchType if !typed => Op::MatchOne,
        Op::UseUndefined if delayed => Op::UseZeros,
        _ => op,
    }
}

// A name after a bracket begins a pair.
fn say_pair(state: u8, code: &mut Code)
    requires { state < state_count }
    ensures { CodeSaid code.old (pair_before (state_of state) []) code.new }
{
    if state == BRACKET {
        say(code, Op::OpenPair, 0, 0);
    }
}

impl<'a> Walk<'a> {
    // Whether a state of a DELAY's constant waits.
    pub fn is_in_constant(&self) -> bool
        ensures { result ≡ in_constant self.now.machine.waiting }
    {
        match self.machine.top() {
            Some(state) => CONSTANT_WAITS <= state && state <= LAST_CONSTANT_WAITS,
            None => false,
        }
    }

    // The value that a name stands for: the distance of a bound name, a constructor, or `input`.
    fn say_value(&self, span: Span, code: &mut Code)
        requires { Saying self.now × Inside self.now.scope.names.text.now span }
        ensures { CodeSaid code.old (value_said (letters_at self.now.scope.names.text.now span) (bound_in (held self.now.scope)) (declared_in (held self.now.scope)) ∷ []) code.new }
    {
        let scope = &self.scope;
        let n = scope.names.count;
        let base = scope.base;
        let found = scope.names.find(span, n);
        match found {
            Some(k) if base <= k => say(code, Op::UseName, (n - k - 1) as u16, 0),
            _ if has_role(found, Role::Constructor, &scope.roles) => {
                let numbers = &self.numbers;
                say(
                    code,
                    Op::UseConstant,
                    entry(found, &numbers.types),
                    entry(found, &numbers.ranks),
                );
            }
            _ => say(code, Op::UseName, (n - base) as u16, 0),
        }
    }

    // An instruction over a declared name.
    fn say_declared(&self, op: Op, delayed: bool, span: Span, code: &mut Code)
        requires { Saying self.now × Inside self.now.scope.names.text.now span }
        ensures { CodeSaid code.old (named_said (number_of op) delayed (letters_at self.now.scope.names.text.now span) (declared_in (held self.now.scope)) ∷ []) code.new }
    {
        let scope = &self.scope;
        let k = scope.names.find_declared(span, scope.base, &scope.roles);
        let typed = has_role(k, Role::TypeName, &scope.roles);
        say(
            code,
            declared_op(op, delayed, typed),
            entry(k, &self.numbers.types),
            entry(k, &self.numbers.ranks),
        );
    }

    // What a name says.
    fn say_name(&self, span: Span, state: u8, said: Option<Op>, delayed: bool, code: &mut Code)
        requires { Saying self.now × Inside self.now.scope.names.text.now span × (state < state_count) }
        ensures { CodeSaid code.old (pair_before (state_of state) (name_said (op_said said) delayed (letters_at self.now.scope.names.text.now span) (bound_in (held self.now.scope)) (declared_in (held self.now.scope)))) code.new }
    {
        say_pair(state, code);
        if let Some(op) = said {
            if op == Op::UseName {
                self.say_value(span, code);
            } else {
                self.say_declared(op, delayed, span, code);
            }
        }
    }

    // What a token says that begins at `start`, by the state that it meets and the instruction that
    // stands for it there, if one does.
    pub fn say_token(
        &self,
        start: usize,
        span: Span,
        class: Class,
        state: u8,
        said: Option<Op>,
        delayed: bool,
        code: &mut Code,
    )
        requires { Saying self.now × Inside self.now.scope.names.text.now span × (state < state_count) × (start ≤ text_bytes) }
        ensures { CodeSaid code.old (class_said (class_index class) start (state_of state) (op_said said) delayed (letters_at self.now.scope.names.text.now span) (bound_in (held self.now.scope)) (declared_in (held self.now.scope))) code.new }
    {
        if class.is_small_letter() {
            self.say_name(span, state, said, delayed, code);
        } else if let Some(op) = said {
            say(code, op, start as u16, 0);
        }
    }
}
