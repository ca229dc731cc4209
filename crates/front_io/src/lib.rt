// Input and output of the program: files by name, what is printed, and what is said.
#![tactic(auto)]

mod growing;
mod loading;
mod saying;

pub use growing::load_lines_growing;
pub use loading::{load, load_lines, path};
pub use saying::{
    fail, print, refuse_filter, refuse_image, refuse_size, refuse_word, say, summarize,
};
