// Newlines, passed where the grammar has them.
#![tactic(auto)]

pub mod newlines;
