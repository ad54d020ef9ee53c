// The names in scope: those that are declared, those that LETs bind, and those that wait for their IN or for the rest of their type.
ghost use Rattle.std.specs.Prelude.{◌≡◌, ℕ, ◌≤◌, ◌<◌, length, get_or};
ghost use Rattle.symbols.specs.Names.{Inside, Roles, BoundRoles};
ghost use Rattle.symbols.specs.RoleNumbers.{role_codes};
ghost use Rattle.grammar.specs.Sizes.{text_table};

use crate::tables::NameRule;
use symbols::{NameRoles, NameTable, Role, SYMBOLS, Span};

// The first `base` names are declared, the others are bound; each bound name has with it what its letters stand for among the declared ones.
#[derive(Drop)]
pub struct Scope<'a> {
    pub names: NameTable<'a>,
    pub roles: NameRoles,
    pub base: usize,
    pub pendings: [Span; SYMBOLS],
    pub waiting: usize,
    pub ghost above: { base ≤ names.count },
    pub ghost named: { Roles (role_codes roles) base },
    pub ghost bound_roles: { BoundRoles names.text.now names.spans (role_codes roles) base names.count },
    pub ghost pendings_long: { length pendings ≡ text_table },
    pub ghost few_waiting: { waiting ≤ text_table },
    pub ghost pendings_inside: { (k : ℕ) → k < waiting → Inside names.text.now (get_or pendings k 0) },
}

impl<'a> Scope<'a> {
    ghost use Rattle.std.specs.Prelude.{◌+◌, true, List};
    ghost use Rattle.name_rules.specs.TokenWalk.{holds_in, declare_pending};
    ghost use Rattle.recognizer.specs.Coded.{state_of};
    ghost use Rattle.symbols.specs.Names.{letters_at};
    ghost use Rattle.symbols.specs.RoleNumbers.{role_code};
    ghost use Rattle.scoping.specs.Scoped.{held_scope};
    ghost use Rattle.scoping.specs.Held.{held, Declared, Bound, ScopeAfter};
    ghost use Rattle.grammar.specs.Legal.{text_bytes};
    ghost use Rattle.grammar.specs.Sizes.{state_count};

    // No name of a text is in scope yet.
    pub fn new(text: &'a [u8]) -> Self
        ensures { (result.names.text.now ≡ text.now) × (result.names.count ≡ 0) × (result.base ≡ 0) × (result.waiting ≡ 0) }
    {
        Scope {
            names: NameTable::new(text),
            roles: [Role::Unknown; SYMBOLS],
            base: 0,
            pendings: [Span::NONE; SYMBOLS],
            waiting: 0,
        }
    }

    // One declared name more, a type or a constructor, where nothing is bound.
    pub fn declare(&mut self, span: Span, role: Role)
        requires { Inside self.old.names.text.now span × (self.old.names.count < text_table) × (self.old.base ≡ self.old.names.count) × (role_code role < 2) }
        ensures { Declared span (role_code role) self.old self.new }
    {
        let roles = &mut self.roles;
        roles[self.base] = role;
        self.names.push(span);
        self.base += 1;
    }

    // One bound name more, with what its letters stand for among the declared names.
    pub fn bind(&mut self, span: Span)
        requires { Inside self.old.names.text.now span × (self.old.names.count < text_table) }
        ensures { Bound span self.old self.new }
    {
        let role = self.names.declared_role(span, self.base, &self.roles);
        let roles = &mut self.roles;
        roles[self.names.count] = role;
        self.names.push(span);
    }

    // The name that waits is declared as a type.
    pub fn declare_pending(&mut self)
        requires { (self.old.base ≡ self.old.names.count) × (self.old.base + self.old.waiting ≤ text_bytes) }
        ensures { ScopeAfter (declare_pending (held self.old)) (self.old.base + self.old.waiting) self.old self.new × (self.new.base ≡ self.new.names.count) × (self.new.pendings ≡ self.old.pendings) }
    {
        if self.waiting != 0 {
            let last = self.waiting - 1;
            let pendings = &self.pendings;
            let span = pendings[last];
            self.declare(span, Role::TypeName);
            self.waiting = last;
        }
    }

    // Whether a name keeps to the rule of a state.
    pub fn admits(&self, span: Span, state: u8) -> bool
        requires { Inside self.now.names.text.now span × (state < state_count) }
        ensures { (m : ℕ) (pendings : List ℕ) → result ≡ holds_in (state_of state) (letters_at self.now.names.text.now span) (held_scope self.now.names.text.now self.now.base self.now.names.count m self.now.names.spans (role_codes self.now.roles) pendings) }
    {
        let names = &self.names;
        let rule = NameRule::at(state);
        match rule {
            NameRule::ValueUse => {
                rule.admits(names.role(span, self.base, names.count, &self.roles))
            }
            _ => rule.admits(names.declared_role(span, self.base, &self.roles)),
        }
    }
}
