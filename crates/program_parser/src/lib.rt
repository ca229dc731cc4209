// The base of the reader of filter texts: its tables, what it answers, and the tokens after a token.
#![tactic(auto)]

pub mod calls;
pub mod kinds;
pub mod read;

pub use read::Read;
