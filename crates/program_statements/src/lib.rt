// The reader of statements, which writes code as it goes.
#![tactic(auto)]

mod statements;

pub use statements::block;
