// Document 01's numbers of what the public entries answer, as the C functions give them back.
#![tactic(auto)]

mod copies;
mod matches;
mod splits;
mod verdicts;

pub use copies::{copied_length, copied_outcome};
pub use matches::{MatchAnswer, match_numbers};
pub use splits::{split_count, split_outcome};
pub use verdicts::verdict_outcome;
