// Bytes in slices: copies, comparison, search.
#![tactic(auto)]

mod copies;
mod search;

pub use copies::{bytes_at, copy, copy_within, fill};
pub use search::{compare, equal, first_byte};
