// The declared types, one after the other, and the leaves of each.
ghost use Rattle.std.specs.Prelude.{◌≡◌, ◌∷◌, [], ◌+◌, ◌≤◌, ◌<◌, min, length, drop};
ghost use Rattle.grammar.specs.Legal.{text_bytes};
ghost use Rattle.grammar.specs.Sizes.{text_table};
ghost use Rattle.instructions.specs.Assembly.{flat_type, leaves_numbered, one_constructor_more, type_held, with_first, with_second};
ghost use Rattle.instructions.specs.Types.{type_declared, last_constructors, leaves_over, type_from_bottom, LastIs};

use crate::INSTRUCTIONS;
use std::marker::Model;

// The most leaves that are counted.
const COUNTED_LEAVES: usize = records::MOST_LEAVES as usize;

// A declared type: a flat one by the number of its constructors, a pair type by the numbers of its
// parts.
#[derive(Clone, Copy, Debug, PartialEq, Eq)]
pub enum DeclaredType {
    Flat(u16),
    Paired(u16, u16),
}

// So many types, each in three tables, as the instructions of a `Code` are and for the same reason,
// and a table of their leaves, 64 at most.
#[derive(Drop)]
pub struct DeclaredTypes {
    pairs: [bool; INSTRUCTIONS],
    firsts: [u16; INSTRUCTIONS],
    seconds: [u16; INSTRUCTIONS],
    leaves: [u8; INSTRUCTIONS],
    len: usize,
}

// Clauses see the types, the last first.
impl Model for DeclaredTypes {
    ghost use Rattle.std.specs.Prelude.{List};
    ghost use Rattle.instructions.specs.Assembly.{DeclaredType as NumberedType, held_types};
    ghost use Rattle.instructions.specs.Types.{LeavesStand};

    ghost Value = { List NumberedType };

    ghost view = { λ t. held_types t.pairs t.firsts t.seconds t.len };

    ghost invariant = { λ t. LeavesStand t.pairs t.firsts t.seconds t.leaves t.len };
}

impl DeclaredTypes {
    pub fn new() -> Self
        ensures { result ≡ [] }
    {
        DeclaredTypes {
            pairs: [false; INSTRUCTIONS],
            firsts: [0; INSTRUCTIONS],
            seconds: [0; INSTRUCTIONS],
            leaves: [0; INSTRUCTIONS],
            len: 0,
        }
    }

    pub fn len(&self) -> usize
        ensures { (result ≡ length self.now) × (length self.now ≤ text_table) }
    {
        self.len
    }

    // No types any more.
    pub fn clear(&mut self)
        ensures { self.new ≡ [] }
    {
        self.len = 0;
    }

    // The type with so many before it.
    pub fn get(&self, k: usize) -> DeclaredType
        requires { k < length self.now }
        ensures { type_declared result ≡ type_from_bottom k self.now }
    {
        if self.pairs[k] {
            DeclaredType::Paired(self.firsts[k], self.seconds[k])
        } else {
            DeclaredType::Flat(self.firsts[k])
        }
    }

    // The leaves of type number d, none for a number that is not declared.
    pub fn leaves(&self, d: u16) -> usize
        ensures { (result ≡ leaves_numbered self.now d) × (result ≤ 64) }
    {
        let d = usize::from(d);
        if d == 0 {
            return 0;
        }
        if self.len < d {
            return 0;
        }
        usize::from(self.leaves[d - 1])
    }

    // The leaves of a pair type of two.
    fn pair_leaves(&self, first: u16, second: u16) -> u8
        ensures { result ≡ min 64 (leaves_numbered self.now first + leaves_numbered self.now second) }
    {
        let sum = self.leaves(first) + self.leaves(second);
        if sum < COUNTED_LEAVES {
            sum as u8
        } else {
            COUNTED_LEAVES as u8
        }
    }

    // The last type, if there is one.
    fn last(&self) -> Option<DeclaredType>
        ensures { LastIs result self.now }
    {
        if self.len == 0 {
            None
        } else {
            Some(self.get(self.len - 1))
        }
    }

    // One type more, by its entries.
    fn put(&mut self, pair: bool, first: u16, second: u16, leaves: u8)
        requires { (length self.old < text_table) × (leaves ≡ leaves_over self.old (type_held pair first second)) }
        ensures { self.new ≡ type_held pair first second ∷ self.old }
    {
        let last = self.len;
        self.pairs[last] = pair;
        self.firsts[last] = first;
        self.seconds[last] = second;
        self.leaves[last] = leaves;
        self.len = last + 1;
    }

    // One type more.
    fn push(&mut self, declared: DeclaredType)
        requires { length self.old < text_table }
        ensures { self.new ≡ type_declared declared ∷ self.old }
    {
        match declared {
            DeclaredType::Flat(constructors) => self.put(false, constructors, 0, 1),
            DeclaredType::Paired(first, second) => {
                let leaves = self.pair_leaves(first, second);
                self.put(true, first, second, leaves);
            }
        }
    }

    // Another type in the place of the last.
    fn set_last(&mut self, declared: DeclaredType)
        requires { 0 < length self.old }
        ensures { self.new ≡ type_declared declared ∷ drop 1 self.old }
    {
        self.len -= 1;
        self.push(declared);
    }

    // A flat type more, with no constructor yet.
    pub fn declare(&mut self)
        requires { length self.old < text_table }
        ensures { self.new ≡ flat_type 0 ∷ self.old }
    {
        self.push(DeclaredType::Flat(0));
    }

    // One constructor more of the last type, where it is flat.
    pub fn count_constructor(&mut self)
        requires { last_constructors self.old < text_bytes }
        ensures { self.new ≡ one_constructor_more self.old }
    {
        if let Some(DeclaredType::Flat(constructors)) = self.last() {
            self.set_last(DeclaredType::Flat(constructors + 1));
        }
    }

    // The last type is a pair type with this first part.
    pub fn set_first(&mut self, first: u16)
        ensures { self.new ≡ with_first first self.old }
    {
        if self.last().is_some() {
            self.set_last(DeclaredType::Paired(first, 0));
        }
    }

    // The second part of the last type, where that is a pair type.
    pub fn set_second(&mut self, second: u16)
        ensures { self.new ≡ with_second second self.old }
    {
        if let Some(DeclaredType::Paired(first, _)) = self.last() {
            self.set_last(DeclaredType::Paired(first, second));
        }
    }
}
