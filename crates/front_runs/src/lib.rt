// Images made, checked, written and printed, and their runs, each with an exit status as its answer.
#![tactic(auto)]

mod contents;
mod growing;
mod images;
mod running;

pub use contents::print_content;
pub use growing::run_files_growing;
pub use images::{load_checked, translate, translate_file, write};
pub use running::run_files;
