// What the C functions on EREs and records do.
#![tactic(auto)]

mod matching;
mod records;

pub use matching::match_text;
pub use records::{find_field, split_record};
