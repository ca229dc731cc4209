// An index of each list of an image: its constants, EREs and instructions.
#![tactic(auto)]

mod indexes;

pub use indexes::{IMAGE_BYTES, Kind, Listed, Numbers, list_at};
