// All fields of the record measured, and joined into the other record.
#![tactic(auto)]

mod bounding;
mod joining;
mod measuring;
mod parts;

pub use joining::join_all;
pub use measuring::too_long;
pub use parts::Part;
