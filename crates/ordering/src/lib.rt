// The instructions of a text put into the order of the records, one after the other: the types are gathered, patterns wait until their IF is
// closed, the records are counted, and a DELAY's constant gets its type.
#![tactic(auto)]

pub mod assembly;
pub mod code;
pub mod constants;
pub mod types;
