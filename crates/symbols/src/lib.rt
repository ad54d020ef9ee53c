// The names of a text in a table, each by its place in the text: those that are declared, and above them those that LETs bind, which come
// and go like a stack. A hash of a name's letters gives the last name with that hash, and each name the last one before it with the same
// hash; so a search compares the letters of few names, and taking the last name away undoes what adding it did.
#![tactic(auto)]

pub mod meanings;
pub mod spans;
pub mod tables;

pub use meanings::Role;
pub use spans::Span;
pub use tables::{NameRoles, NameTable, SYMBOLS};
