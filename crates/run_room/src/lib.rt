// The working room: values in slots of bytes, the record, and its fields. Document 01 leaves its layout open.
#![tactic(auto)]

mod blocks;
mod entries;
mod layout;
mod lines;
mod slots;
mod texts;

pub use blocks::copy_blocks;
pub use entries::{Entry, put_entry, read_entry};
pub use layout::{
    BASE_END, BLOCK, ENTRIES, ENTRY, FIELD, HEAD, NUMBER, OPERANDS, SLOT, SLOTS, TEXT, UNSET,
};
pub use lines::{Line, record_start};
pub use slots::{copy_slot, set_number, set_unset, set_value, slot_kind, slot_number};
pub use texts::{set_constant, set_length, set_text, show, slot_text, text_size};
