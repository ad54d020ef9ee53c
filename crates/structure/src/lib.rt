// The rules on records: codes 1 to 6, each as a search for the lowest record that breaks its rule.
#![tactic(auto)]

mod depth;
mod naming;
mod pairs;
mod said;
mod search;
mod types;

pub use depth::Placements;
pub use naming::{Naming, NamingTable};
pub use pairs::PairIndex;
pub use said::{first_wrong_record, wrong_header};
pub use search::lowest_record;
pub use types::{capped_sum, count_types, first_wrong_type, no_leaves};
