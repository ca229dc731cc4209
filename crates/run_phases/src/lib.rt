// The sections of a run: a loop of steps, the records read between them, and the start.
#![tactic(auto)]

mod phases;
mod starting;

pub use phases::go;
pub use starting::reset;
