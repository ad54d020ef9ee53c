// The names in scope after a token: whether a name keeps to its rule, and what the token does to the names in scope.
ghost use Rattle.std.specs.Prelude.{◌≡◌, ℕ, ◌+◌, ◌<◌};
ghost use Rattle.name_rules.specs.TokenWalk.{declares_pending, declares_first, declares_next, bind_pending, unbind, ended_by};
ghost use Rattle.recognizer.specs.Coded.{state_of};
ghost use Rattle.symbols.specs.Names.{Inside};
ghost use Rattle.scoping.specs.Scoped.{effect_of};
ghost use Rattle.scoping.specs.TableNumbers.{effect_code};
ghost use Rattle.scoping.specs.Held.{held, ScopeAfter, Noted};
ghost use Rattle.grammar.specs.Legal.{text_bytes};
ghost use Rattle.grammar.specs.Sizes.{state_count};

use crate::scopes::Scope;
use crate::tables::Effect;
use symbols::{Role, Span};

impl<'a> Scope<'a> {
    // The name that waits is bound.
    fn bind_pending(&mut self)
        requires { self.old.names.count + self.old.waiting < text_bytes }
        ensures { ScopeAfter (bind_pending (held self.old)) (self.old.names.count + self.old.waiting + 1) self.old self.new × (self.new.pendings ≡ self.old.pendings) }
    {
        if self.waiting != 0 {
            let last = self.waiting - 1;
            let pendings = &self.pendings;
            let span = pendings[last];
            self.bind(span);
            self.waiting = last;
        }
    }

    // The nearest bound name goes.
    fn unbind(&mut self)
        requires { self.old.names.count + self.old.waiting < text_bytes }
        ensures { ScopeAfter (unbind (held self.old)) (self.old.names.count + self.old.waiting + 1) self.old self.new × (self.new.pendings ≡ self.old.pendings) }
    {
        if self.base < self.names.count {
            self.names.pop();
        }
    }

    // The second type of a pair type, which is declared after it.
    fn note_pair_type(&mut self, span: Span, state: u8) -> bool
        requires { Inside self.old.names.text.now span × (self.old.names.count + self.old.waiting < text_bytes) × (state < state_count) }
        ensures { Noted (state_of state) declares_pending span self.old result self.new × (self.new.pendings ≡ self.old.pendings) }
    {
        if self.base != self.names.count {
            return false;
        }
        if !self.admits(span, state) {
            return false;
        }
        self.declare_pending();
        true
    }

    // The first constructor of a type, after the type's own name.
    pub fn note_first(&mut self, span: Span, state: u8) -> bool
        requires { Inside self.old.names.text.now span × (self.old.names.count + self.old.waiting < text_bytes) × (state < state_count) }
        ensures { Noted (state_of state) declares_first span self.old result self.new × (self.new.pendings ≡ self.old.pendings) }
    {
        if self.base != self.names.count {
            return false;
        }
        self.declare_pending();
        if !self.admits(span, state) {
            return false;
        }
        self.declare(span, Role::Constructor);
        true
    }

    // Another constructor.
    pub fn note_next(&mut self, span: Span, state: u8) -> bool
        requires { Inside self.old.names.text.now span × (self.old.names.count + self.old.waiting < text_bytes) × (state < state_count) }
        ensures { Noted (state_of state) declares_next span self.old result self.new × (self.new.pendings ≡ self.old.pendings) }
    {
        if self.base != self.names.count {
            return false;
        }
        if !self.admits(span, state) {
            return false;
        }
        self.declare(span, Role::Constructor);
        true
    }

    // A name: whether it keeps to its rule, and what it does to the names in scope.
    pub fn note_name(&mut self, span: Span, state: u8, effect: Effect) -> bool
        requires { Inside self.old.names.text.now span × (self.old.names.count + self.old.waiting < text_bytes) × (state < state_count) }
        ensures { Noted (state_of state) (effect_of (effect_code effect)) span self.old result self.new }
    {
        match effect {
            Effect::DeclaresFirst => self.note_first(span, state),
            Effect::DeclaresNext => self.note_next(span, state),
            Effect::DeclaresPending => self.note_pair_type(span, state),
            _ => {
                if !self.admits(span, state) {
                    return false;
                }
                match effect {
                    Effect::Pends => {
                        let pendings = &mut self.pendings;
                        pendings[self.waiting] = span;
                        self.waiting += 1;
                        true
                    }
                    Effect::Binds => {
                        self.bind(span);
                        true
                    }
                    _ => true,
                }
            }
        }
    }

    // A token that is no name: the name that waits is bound, or the nearest bound one goes.
    pub fn note_other(&mut self, effect: Effect)
        requires { self.old.names.count + self.old.waiting < text_bytes }
        ensures { ScopeAfter (ended_by (effect_of (effect_code effect)) (held self.old)) (self.old.names.count + self.old.waiting + 1) self.old self.new × (self.new.pendings ≡ self.old.pendings) }
    {
        match effect {
            Effect::BindsPending => self.bind_pending(),
            Effect::Unbinds => self.unbind(),
            _ => {}
        }
    }
}
