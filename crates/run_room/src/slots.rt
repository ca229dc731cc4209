// Slots: a value each.
ghost use Rattle.std.specs.Prelude.{◌≡◌, ◌+◌, ◌*◌, ◌%◌, ◌≤◌, ◌<◌, min, length};
ghost use Rattle.edition.specs.Limits.{text_bytes};
ghost use Rattle.number.specs.Range.{unbias, top};
ghost use Rattle.values.specs.Value.{unset, number};
ghost use Rattle.buffer.specs.Parts.{part, put};
ghost use Rattle.little_endian.specs.Words.{le_bytes};
ghost use Rattle.run_room.specs.Layout.{head_size, slot_bytes, slots_end, slot_count};
ghost use Rattle.run_room.specs.Room.{head_of, size_in, word_at, value_by, slot_at, kind_of, Numbered};
ghost use Rattle.run_room.specs.Held.{SlotHeld, Slotted};

use crate::blocks;
use crate::layout::{HEAD, NUMBER, SLOT, UNSET};
use edition::Edition;

// Writes the first word of a slot: kind and text length. Only a number needs the second one.
pub fn put_kind(work: &mut [u8], at: usize, kind: u8, n: usize)
    requires { (at + head_size ≤ length work.old) × (n ≤ text_bytes) }
    ensures { work.new ≡ put work.old at (le_bytes 8 (kind + 65536 * n)) }
{
    little_endian::put_word(work, at, kind as u64 + 65536 * n as u64);
}

// Writes the two words at the front of a slot.
fn put_head(work: &mut [u8], at: usize, kind: u8, n: usize, w: u64)
    requires { (at + head_size ≤ length work.old) × (n ≤ text_bytes) }
    ensures { work.new ≡ put work.old at (head_of kind n w) }
{
    put_kind(work, at, kind, n);
    little_endian::put_word(work, at + 8, w);
}

// Returns the text length that a head's first word has.
pub fn size_in(h: u64) -> usize
    ensures { result ≡ size_in h }
{
    let n = (h / 65536 % 65536) as usize;
    n.min(Edition::TEXT)
}

// Returns the kind of a slot's value; field text has all from FIELD on.
pub fn slot_kind(work: &[u8], i: usize) -> u8
    requires { (slots_end ≤ length work.now) × (i < slot_count) }
    ensures { min result 3 ≡ kind_of (slot_at work.now i) }
{
    (little_endian::get_word(work, i * SLOT) % 256) as u8
}

// Returns the number of a slot whose value is one. Whatever the room has, it is in range. A test by `<` would be one of
// the word's high bytes, and those would be read by themselves.
pub fn slot_number(work: &[u8], i: usize) -> u64
    requires { (slots_end ≤ length work.now) × (i < slot_count) }
    ensures { Numbered work.now i result }
{
    let w = little_endian::get_word(work, i * SLOT + 8);
    if w <= 2 * Edition::NUMBER {
        w
    } else {
        2 * Edition::NUMBER
    }
}

// Unsets a slot.
pub fn set_unset(work: &mut [u8], i: usize)
    requires { (slots_end ≤ length work.old) × (i < slot_count) }
    ensures { Slotted work.old work.new i unset Unit }
{
    put_kind(work, i * SLOT, UNSET, 0);
}

// Sets a slot to a number.
pub fn set_number(work: &mut [u8], i: usize, w: u64)
    requires { (slots_end ≤ length work.old) × (i < slot_count) × (w ≤ top) }
    ensures { Slotted work.old work.new i (number (unbias w)) Unit }
{
    put_head(work, i * SLOT, NUMBER, 0, w);
}

// Sets a slot to a value whose text is after all slots, in the record.
pub fn set_value(work: &mut [u8], i: usize, kind: u8, w: u64, from: usize, n: usize)
    requires { (slots_end ≤ from) × (i < slot_count) × (n ≤ text_bytes) × (from + n + 15 ≤ length work.old) }
    ensures { Slotted work.old work.new i (value_by kind w (part from n work.old)) Unit }
{
    put_head(work, i * SLOT, kind, n, w);
    blocks::copy_blocks(work, from, i * SLOT + HEAD, n);
}

// Copies the value of slot `from` to slot `to`, head and text in whole blocks.
pub fn copy_slot(work: &mut [u8], from: usize, to: usize)
    requires { (slots_end ≤ length work.old) × (from < slot_count) × (to < slot_count) }
    ensures { Slotted work.old work.new to (slot_at work.old from)
        (SlotHeld work.old from) }
{
    let n = size_in(little_endian::get_word(work, from * SLOT));
    blocks::copy_headed(work, from * SLOT, to * SLOT, n);
}
