// What the operands of a program's words name, as entries of tables; and the variables of a text by first appearance.
#![tactic(auto)]

mod entries;
mod variables;

pub use entries::{CONSTANTS, ERES, VARIABLES, entry_at, has_escapes, is_named};
pub use variables::{SPECIALS, enter_variables};
