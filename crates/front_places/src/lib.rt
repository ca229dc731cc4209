// Places of a text as a person is told them: line, column, and the part of the line that is shown.
#![tactic(auto)]

mod place;
mod shown;

pub use place::{column_at, line_at};
pub use shown::{Window, columns, prints, shown_around, width};
