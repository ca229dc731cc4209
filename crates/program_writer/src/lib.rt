// The image of a program whose words are numbered, written if it fits.
#![tactic(auto)]

mod writing;

pub use writing::{Translation, write_fitting};
