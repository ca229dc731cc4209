// What the C function that runs an image does.
#![tactic(auto)]

mod runs;

pub use runs::run_image;
