// Images: reading one to its content words, and why reader and writer write nothing.
#![tactic(auto)]

mod error;
mod reading;

pub use error::CopyError;
pub use reading::{is_image, read};
