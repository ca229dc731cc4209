// A line as it is shown, with the caret under a place of it; texts and numbers, written to a room as far as the room
// goes.
#![tactic(auto)]

mod lines;
mod put;

pub use lines::put_caret;
pub use put::{put_decimal, put_text};
