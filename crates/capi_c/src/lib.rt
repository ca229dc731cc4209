// The C functions of `include/flowawk.h`, each of which calls the function of its name in the crate `capi`.
#![tactic(auto)]

mod images;
mod matching;
mod records;
mod runs;
mod translations;
