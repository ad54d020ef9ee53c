// The names of a text, each by its place, with the links by which they are found again.
ghost use Rattle.std.specs.Prelude.{◌≡◌, ℕ, ◌+◌, ◌-◌, ◌≤◌, ◌<◌, cond, set};
ghost use Rattle.name_rules.specs.Declared.{same_name, input};
ghost use Rattle.symbols.specs.Names.{letters_at, Inside, hash_of, nearest, Hashed, Roles, role_among, declared_role, BoundRoles, hashes, entry_number};
ghost use Rattle.symbols.specs.RoleNumbers.{role_code, role_codes};
ghost use Rattle.grammar.specs.Sizes.{text_table};

use crate::meanings::Role;
use crate::spans::Span;

// One more than the bytes of a text, and so than its names.
pub const SYMBOLS: usize = 65536;

// The numbers of hashes, and the factor from letter to letter.
const HASHES: usize = 4096;

const FACTOR: usize = 31;

// What each name stands for.
pub type NameRoles = [Role; SYMBOLS];

// The names so far. A link is the number of an entry, counted from 1, or 0: an Option would double the tables, whose memory is fixed.
// An entry of `spans` is read and written by a reference to the table, since `self.spans[k]` gets no proof.
#[derive(Drop)]
pub struct NameTable<'a> {
    pub text: &'a [u8],
    pub count: usize,
    spans: [Span; SYMBOLS],
    links: [u32; SYMBOLS],
    heads: [u32; HASHES],
    pub ghost hashed: { Hashed text.now count spans links heads },
}

// The hash of a name's letters.
fn hash(letters: &[u8]) -> usize
    ensures { (result ≡ hash_of letters.now) × (result < hashes) }
{
    let mut hash = 0;
    for &letter in letters {
        hash = (hash * FACTOR + usize::from(letter)) % HASHES;
    }
    hash
}

// Whether two names have the same letters. The search asks it of each name with the hash, so it does not call the comparison of slices.
fn same(name: &[u8], other: &[u8]) -> bool
    ensures { result ≡ same_name name.now other.now }
{
    if name.len() != other.len() {
        return false;
    }
    for i in 0..name.len() {
        if name[i] != other[i] {
            return false;
        }
    }
    true
}

// The entry of a link.
fn linked(link: u32) -> Option<usize>
    ensures { entry_number result ≡ link }
{
    if link == 0 {
        return None;
    }
    Some(link as usize - 1)
}

// What a name that is in no table stands for.
fn unlisted(letters: &[u8]) -> Role
    ensures { role_code result ≡ cond (same_name letters.now input) 2 4 }
{
    if letters == b"input".as_slice() {
        Role::Input
    } else {
        Role::Unknown
    }
}

impl<'a> NameTable<'a> {
    // No names of a text yet.
    pub fn new(text: &'a [u8]) -> Self
        ensures { (result.text.now ≡ text.now) × (result.count ≡ 0) }
    {
        NameTable {
            text,
            count: 0,
            spans: [Span::NONE; SYMBOLS],
            links: [0; SYMBOLS],
            heads: [0; HASHES],
        }
    }

    // The last of the first `limit` names that is the same.
    pub fn find(&self, span: Span, limit: usize) -> Option<usize>
        requires { Inside self.now.text.now span × (limit ≤ self.now.count) }
        ensures { entry_number result ≡ nearest self.now.text.now self.now.spans (letters_at self.now.text.now span) limit }
    {
        let letters = span.letters(self.text);
        let mut link = self.heads[hash(letters)];
        while let Some(k) = linked(link) {
            if k < limit {
                let spans = &self.spans;
                let found = spans[k];
                if same(letters, found.letters(self.text)) {
                    return Some(k);
                }
            }
            link = self.links[k];
        }
        None
    }

    // One name more, the last.
    pub fn push(&mut self, span: Span)
        requires { Inside self.old.text.now span × (self.old.count < text_table) }
        ensures { (self.new.text.now ≡ self.old.text.now) × (self.new.count ≡ self.old.count + 1) × (self.new.spans ≡ set self.old.spans self.old.count span) }
    {
        let hash = hash(span.letters(self.text));
        let last = self.count;
        let spans = &mut self.spans;
        spans[last] = span;
        self.links[last] = self.heads[hash];
        self.heads[hash] = (last + 1) as u32;
        self.count = last + 1;
    }

    // The last name goes.
    pub fn pop(&mut self)
        requires { 0 < self.old.count }
        ensures { (self.new.text.now ≡ self.old.text.now) × (self.new.count ≡ self.old.count - 1) × (self.new.spans ≡ self.old.spans) × (self.new.links ≡ self.old.links) }
    {
        let last = self.count - 1;
        let spans = &self.spans;
        let span = spans[last];
        let hash = hash(span.letters(self.text));
        self.heads[hash] = self.links[last];
        self.count = last;
    }

    // What a name stands for among the declared names, the first `base`, and the bound ones after them, up to `limit`.
    pub fn role(&self, span: Span, base: usize, limit: usize, roles: &NameRoles) -> Role
        requires { Inside self.now.text.now span × (limit ≤ self.now.count) × (base ≤ limit) × Roles (role_codes roles.now) base }
        ensures { role_code result ≡ role_among self.now.text.now self.now.spans (role_codes roles.now) base (limit - base) span }
    {
        match self.find(span, limit) {
            Some(k) if base <= k => Role::Bound,
            Some(k) => roles[k],
            None => unlisted(span.letters(self.text)),
        }
    }

    // What a name stands for among the declared names alone. The nearest name with its letters tells it, declared or bound.
    pub fn declared_role(&self, span: Span, base: usize, roles: &NameRoles) -> Role
        requires { Inside self.now.text.now span × (base ≤ self.now.count) × Roles (role_codes roles.now) base × BoundRoles self.now.text.now self.now.spans (role_codes roles.now) base self.now.count }
        ensures { role_code result ≡ declared_role self.now.text.now self.now.spans (role_codes roles.now) base span }
    {
        match self.find(span, self.count) {
            Some(k) => roles[k],
            None => unlisted(span.letters(self.text)),
        }
    }

    // The last of the declared names that is the same. Where the nearest name is a bound one that no declared name is the same as, the
    // search ends with it.
    pub fn find_declared(&self, span: Span, base: usize, roles: &NameRoles) -> Option<usize>
        requires { Inside self.now.text.now span × (base ≤ self.now.count) × Roles (role_codes roles.now) base × BoundRoles self.now.text.now self.now.spans (role_codes roles.now) base self.now.count }
        ensures { entry_number result ≡ nearest self.now.text.now self.now.spans (letters_at self.now.text.now span) base }
    {
        match self.find(span, self.count) {
            Some(k) if k < base => Some(k),
            Some(k) => match roles[k] {
                Role::TypeName | Role::Constructor => self.find(span, base),
                _ => None,
            },
            None => None,
        }
    }
}
