// The checker of images: the verifier of their bytecode.
#![tactic(auto)]

mod checking;

pub use checking::{CheckError, check};
