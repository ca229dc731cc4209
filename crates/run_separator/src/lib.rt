// The separator: FS, in its slot.
#![tactic(auto)]

mod separating;

pub use separating::{FS, OFS, separator_of, set_separator};
