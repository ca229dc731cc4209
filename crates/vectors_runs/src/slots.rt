// Values of a payload, and in the slots of a working room.
//
// A value in a payload: its kind (0 unset, 1 a number, 2 a text, 3 the text of a field), how many bytes follow, 2
// bytes, and these: none, the number's eight, or the text.
ghost use Rattle.std.specs.Prelude.{◌≤◌, ◌<◌, length};
ghost use Rattle.run_room.specs.Layout.{slot_count};

use edition::Edition;

// The bytes of a working room.
pub const ROOM: usize = Edition::WORKING_ROOM;

// What a byte of the room has before.
pub const BEFORE: u8 = 165;

// Returns the size of the value at the front of a payload, at most all of it.
fn size_of(p: &[u8]) -> usize
    ensures { result ≤ length p.now }
{
    if p.len() < 3 {
        return p.len();
    }
    let n = vectors_frames::short(p, 1);
    if p.len() - 3 < n {
        return p.len();
    }
    3 + n
}

// Returns value k of a payload's values, from 0 on; nothing where it has fewer.
pub fn value(p: &[u8], k: usize) -> &[u8] {
    let mut at = 0;
    for _ in 0..k {
        at += size_of(&p[at..]);
    }
    let end = at + size_of(&p[at..]);
    &p[at..end]
}

// Returns the bytes of a value that are after its kind and its size.
pub fn bytes_of(v: &[u8]) -> &[u8] {
    if v.len() < 3 {
        return v;
    }
    &v[3..]
}

// Sets a slot to a number, if it is one.
fn set_number(work: &mut [u8; ROOM], i: usize, w: u64) -> bool
    requires { i < slot_count }
{
    if number::TOP < w {
        return false;
    }
    run_room::set_number(work, i, w);
    true
}

// Sets a slot to a text, if it is not too long.
fn set_text(work: &mut [u8; ROOM], i: usize, text: &[u8]) -> bool
    requires { i < slot_count }
{
    if Edition::TEXT < text.len() {
        return false;
    }
    run_room::set_text(work, i, text);
    true
}

// Sets a slot to the text of a field, if it is not too long. The text is put where the record is, and taken from there.
fn set_field(work: &mut [u8; ROOM], i: usize, text: &[u8]) -> bool
    requires { i < slot_count }
{
    let n = text.len();
    if Edition::TEXT < n {
        return false;
    }
    let from = run_room::record_start(0);
    buffer::copy(work, from, text);
    run_room::set_value(work, i, run_room::FIELD, 0, from, n);
    true
}

// Sets a slot to a value of a payload, and returns whether that is one.
pub fn set(work: &mut [u8; ROOM], i: usize, v: &[u8]) -> bool {
    if run_room::SLOTS <= i {
        return false;
    }
    match vectors_frames::byte(v, 0) {
        0 => {
            run_room::set_unset(work, i);
            v.len() == 3
        }
        1 => v.len() == 11 && set_number(work, i, vectors_frames::word(v, 3)),
        2 => set_text(work, i, bytes_of(v)),
        3 => set_field(work, i, bytes_of(v)),
        _ => false,
    }
}

// Tells whether a slot has a value of a payload: its kind, and its number or its text.
pub fn has(work: &[u8; ROOM], i: usize, v: &[u8]) -> bool {
    if run_room::SLOTS <= i {
        return false;
    }
    let kind = run_room::slot_kind(work, i);
    if kind != vectors_frames::byte(v, 0) {
        return false;
    }
    if kind == run_room::NUMBER {
        return v.len() == 11 && run_room::slot_number(work, i) == vectors_frames::word(v, 3);
    }
    check::same(run_room::slot_text(work, i), bytes_of(v))
}
