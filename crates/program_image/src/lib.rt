// The bytes of an image, from tables of entries and from words by number; and the sizes that are judged once the text
// is read.
#![tactic(auto)]

mod images;
mod sizes;
mod writing;

pub use images::{Counts, Sections, counts_fit, put_image, sections_fit};
pub use sizes::constants_fit;
