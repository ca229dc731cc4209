// The reader of expressions: it reads each token once, and writes the code of the tree as it goes.
#![tactic(auto)]

mod expressions;

pub use expressions::{inside, tier};
