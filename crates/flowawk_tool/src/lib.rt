// The program over rooms that are lent: its answer is an exit status.
#![tactic(auto)]

mod acting;
mod exported;
mod growing;

pub use acting::tool;
pub use exported::flowawk_main;
pub use growing::tool_growing;
