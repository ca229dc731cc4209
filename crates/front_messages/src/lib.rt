// What the program tells a person, written to a room as far as the room goes: a refusal with its place, outcomes,
// counts.
#![tactic(auto)]

mod messages;

pub use messages::{put_image_refusal, put_refusal, put_summary};
