// What the C functions of `include/flowawk.h` do, over the public entries of the other crates. The crate `capi_c` exports
// them to C.
#![tactic(auto)]

mod images;
mod matching;
mod records;
mod runs;
mod translations;

pub use images::{flowawk_check, flowawk_read, flowawk_write};
pub use matching::flowawk_match;
pub use records::{flowawk_field, flowawk_split};
pub use runs::flowawk_run;
pub use translations::flowawk_translate;
