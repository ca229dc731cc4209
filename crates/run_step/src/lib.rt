// One step of a run: what a run carries by value, and what an instruction does to it and to the working room.
#![tactic(auto)]

mod arms;
mod machine;
mod stepping;

pub use machine::{
    BEGIN, BETWEEN, BLANKS, FINISH, GOES, MAIN, Machine, TO_END, TO_RECORDS, kind_of,
};
pub use stepping::step;
