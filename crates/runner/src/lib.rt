// The runner: an image that passes the check over lines, in a lent working room.
#![tactic(auto)]

mod running;

pub use running::{Answer, run};
