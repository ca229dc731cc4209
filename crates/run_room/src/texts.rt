// Texts of slots.
ghost use Rattle.std.specs.Prelude.{◌≡◌, false, ◌+◌, ◌*◌, ◌≤◌, ◌<◌, length};
ghost use Rattle.edition.specs.Limits.{text_bytes};
ghost use Rattle.values.specs.Value.{text, text_of};
ghost use Rattle.buffer.specs.Parts.{part};
ghost use Rattle.run_room.specs.Layout.{head_size, slot_bytes, slots_end, slot_count};
ghost use Rattle.run_room.specs.Room.{slot_at, is_number, Texted};
ghost use Rattle.run_room.specs.Held.{SlotHeld, Slotted, Shown};

use crate::layout::{BLOCK, HEAD, NUMBER, SLOT, TEXT};
use crate::{blocks, slots};

// Returns the text length of a value that is no number.
pub fn text_size(work: &[u8], i: usize) -> usize
    requires { (slots_end ≤ length work.now) × (i < slot_count) }
    ensures { Texted work.now i result }
{
    let h = little_endian::get_word(work, i * SLOT);
    if h % 256 < 2 {
        return 0;
    }
    slots::size_in(h)
}

// Returns the text of a value that is no number, where it is in the room.
pub fn slot_text(work: &[u8], i: usize) -> &[u8]
    requires { (slots_end ≤ length work.now) × (i < slot_count) }
    ensures { is_number (slot_at work.now i) ≡ false → result.now ≡ text_of (slot_at work.now i) }
{
    let n = text_size(work, i);
    let a = i * SLOT + HEAD;
    let e = a + n;
    &work[a..e]
}

// Sets a slot to a text from elsewhere. How long it is can't be foreseen, and a branch that is guessed wrong costs more
// than the copy: so there is none among 1 to 3, among 4 to 8 and among 9 to 16 bytes. Each call of `copy_short` is
// compiled to one of its cases, and the place, written out at each call, to a part of the copy's addresses.
pub fn set_text(work: &mut [u8], i: usize, bytes: &[u8])
    requires { (slots_end ≤ length work.old) × (i < slot_count) × (length bytes.now ≤ text_bytes) }
    ensures { Slotted work.old work.new i (text bytes.now) Unit }
{
    slots::put_kind(work, i * SLOT, TEXT, bytes.len());
    if bytes.len() < 4 {
        block_copy::copy_few(work, i * SLOT + HEAD, bytes);
        return;
    }
    if bytes.len() <= 8 {
        block_copy::copy_short(work, i * SLOT + HEAD, bytes);
        return;
    }
    if bytes.len() <= BLOCK {
        block_copy::copy_short(work, i * SLOT + HEAD, bytes);
        return;
    }
    block_copy::copy(work, i * SLOT + HEAD, bytes);
}

// Sets a slot to a text constant of an image, by whole blocks where the image goes on after it.
pub fn set_constant(work: &mut [u8], i: usize, image: &[u8], from: usize, n: usize)
    requires { (slots_end ≤ length work.old) × (i < slot_count) × (n ≤ text_bytes) × (from + n ≤ length image.now) }
    ensures { Slotted work.old work.new i (text (part from n image.now)) Unit }
{
    slots::put_kind(work, i * SLOT, TEXT, n);
    let end = from + n;
    if BLOCK <= image.len() - end {
        block_copy::copy_over(work, i * SLOT + HEAD, image, from, n);
        return;
    }
    block_copy::copy(work, i * SLOT + HEAD, &image[from..end]);
}

// Sets a slot to the first n of its text bytes, as a text.
pub fn set_length(work: &mut [u8], i: usize, n: usize)
    requires { (slots_end ≤ length work.old) × (i < slot_count) × (n ≤ text_bytes) }
    ensures { Slotted work.old work.new i (text (part (i * slot_bytes + head_size) n work.old)) Unit }
{
    slots::put_kind(work, i * SLOT, TEXT, n);
}

// Returns the length of the text of a slot's value, which is in the slot: a number's is written there. The value stays
// as it is.
pub fn show(work: &mut [u8], i: usize) -> usize
    requires { (slots_end ≤ length work.old) × (i < slot_count) }
    ensures { Shown work.old work.new i result }
{
    if slots::slot_kind(work, i) == NUMBER {
        let w = slots::slot_number(work, i);
        return decimals::write_decimal(work, i * SLOT + HEAD, w);
    }
    text_size(work, i)
}
