// The fields of a record.
#![tactic(auto)]

mod entries;

pub use entries::{Located, SplitError, field, locate, split};
