// Copies and fills, on a whole room.
//
// Payload: the kind (0 `copy`, 1 `copy_within`, 2 `fill`), the index to write at, the index to read from and the count,
// 2 bytes each, the byte to fill with, the room's length, 2 bytes, the room before, the room after, and the bytes that
// `copy` copies.
use crate::rooms;

// Runs `copy` on the room, if it fits.
fn copied(room: &mut [u8], at: usize, src: &[u8]) -> bool {
    if room.len() < at {
        return false;
    }
    if room.len() - at < src.len() {
        return false;
    }
    buffer::copy(room, at, src);
    true
}

// Runs `copy_within` on the room, if it fits.
fn moved(room: &mut [u8], at: usize, from: usize, n: usize) -> bool {
    if room.len() < n {
        return false;
    }
    if room.len() - n < at {
        return false;
    }
    if room.len() - n < from {
        return false;
    }
    buffer::copy_within(room, from, at, n);
    true
}

// Runs `fill` on the room, if it fits.
fn filled(room: &mut [u8], at: usize, n: usize, b: u8) -> bool {
    if room.len() < at {
        return false;
    }
    if room.len() - at < n {
        return false;
    }
    buffer::fill(room, at, n, b);
    true
}

// Returns how many bytes there are to copy: as many as the count says, and none where the case does not copy from
// elsewhere.
fn source(p: &[u8]) -> usize {
    if vectors_frames::byte(p, 0) == 0 {
        return vectors_frames::short(p, 5);
    }
    0
}

// Runs the payload's case on a room that is as before.
fn changes(p: &[u8], room: &mut [u8], src: &[u8]) -> bool {
    if src.len() != source(p) {
        return false;
    }
    let at = vectors_frames::short(p, 1);
    let n = vectors_frames::short(p, 5);
    match vectors_frames::byte(p, 0) {
        0 => copied(room, at, src),
        1 => moved(room, at, vectors_frames::short(p, 3), n),
        2 => filled(room, at, n, vectors_frames::byte(p, 7)),
        _ => false,
    }
}

// Tells whether the case in a payload passes.
pub fn passes(p: &[u8]) -> bool {
    if p.len() < 10 {
        return false;
    }
    let n = vectors_frames::short(p, 8);
    if (p.len() - 10) / 2 < n {
        return false;
    }
    let middle = 10 + n;
    let end = middle + n;
    rooms::runs(&p[10..middle], &p[middle..end], |room| {
        changes(p, room, &p[end..])
    })
}
