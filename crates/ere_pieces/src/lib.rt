// The pieces of an ERE, put together in its table as they are read.
#![tactic(auto)]

mod rows;
mod turns;

pub use rows::{Entry, Piece, State};
pub use turns::{anchor, byte_at, choice, finish, grouped, leaf, pushed, repeated, start};
