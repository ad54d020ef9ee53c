// The walk over the tokens of a text: the machine's steps, and what they do to the names in scope.
ghost use Rattle.std.specs.Prelude.{◌≡◌, List, ℕ, ◌+◌, ◌≤◌, ◌<◌, length};
ghost use Rattle.recognizer.specs.Classes.{class_index};
ghost use Rattle.recognizer.specs.Coded.{state_of};
ghost use Rattle.scoping.specs.TableNumbers.{effect_code};
ghost use Rattle.symbols.specs.Names.{Inside};
ghost use Rattle.resolving.specs.Said.{span_between};
ghost use Rattle.resolving.specs.Walked.{ScopeNoted, TakingToken, TokenTaken};
ghost use Rattle.grammar.specs.Legal.{text_bytes};
ghost use Rattle.grammar.specs.Sizes.{state_count};

use crate::BadName;
use crate::tables::saying;
use crate::walk::Walk;
use instructions::code::Code;
use lexer::token_end;
use recognizer::classes::Class;
use recognizer::numbers::NAME_LETTERS;
use scoping::scopes::Scope;
use scoping::tables::Effect;
use symbols::Span;

// The span of a token from its place to its end; one without letters where it has too many for a name.
fn span_of(start: usize, end: usize) -> Span
    requires { (start < end) × (end ≤ text_bytes) }
    ensures { result ≡ span_between start end }
{
    let letters = end - start;
    if letters <= usize::from(NAME_LETTERS) {
        return Span::new(start as u32, letters as u32);
    }
    Span::new(start as u32, 0)
}

// What a token does to the names in scope, and whether it keeps to its rule.
fn note_token(scope: &mut Scope, span: Span, class: Class, state: u8, effect: Effect) -> bool
    requires { Inside scope.old.names.text.now span × (scope.old.names.count + scope.old.waiting < text_bytes) × (state < state_count) }
    ensures { ScopeNoted (class_index class) span (effect_code effect) (state_of state) scope.old result scope.new }
{
    if class.is_small_letter() {
        return scope.note_name(span, state, effect);
    }
    scope.note_other(effect);
    true
}

impl<'a> Walk<'a> {
    // One token, which begins at `start`: where it ends, unless it is a bad name.
    pub fn take_token(&mut self, start: usize, code: &mut Code) -> Result<usize, BadName>
        requires { TakingToken self.old start × (start < length self.old.scope.names.text.now) }
        ensures { TokenTaken start self.old code.old result self.new code.new }
    {
        let text = self.scope.names.text;
        let class = Class::of(text[start]);
        if !class.is_lead() {
            return Err(BadName { place: start });
        }
        let end = token_end(text, start, class);
        let span = span_of(start, end);
        let state = self.machine.row() as u8;
        let said = saying(usize::from(state), class);
        let delayed = self.is_in_constant();
        self.say_token(start, span, class, state, said, delayed, code);
        let effect = Effect::at(state, class.index() as u8);
        if !self.machine.begin(class) {
            return Err(BadName { place: start });
        }
        let declared = self.scope.base;
        if !note_token(&mut self.scope, span, class, state, effect) {
            return Err(BadName { place: start });
        }
        let scope = &self.scope;
        self.numbers.number_from(declared, scope.base, &scope.roles);
        Ok(end)
    }
}
