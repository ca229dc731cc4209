// Numbers in bytes.
//
// Payload: the width (8 for `get_word` and `put_word`, 2 for `get_short` and `put_short`), the index, 2 bytes, the
// number, 8 bytes, the room before the number is put and the room after it, which have the same length. It is got back
// from the room, which is then compared with the room after.
use crate::rooms;

// Puts a number in eight bytes, if they fit, and gets it back.
fn word(room: &mut [u8], at: usize, w: u64) -> bool {
    if room.len() < 8 {
        return false;
    }
    if room.len() - 8 < at {
        return false;
    }
    little_endian::put_word(room, at, w);
    little_endian::get_word(room, at) == w
}

// Puts a number in two bytes, if they fit, and gets it back.
fn short(room: &mut [u8], at: usize, w: u64) -> bool {
    if 65535 < w {
        return false;
    }
    if room.len() < 2 {
        return false;
    }
    if room.len() - 2 < at {
        return false;
    }
    little_endian::put_short(room, at, w as u16);
    little_endian::get_short(room, at) as u64 == w
}

// Runs the payload's case on a room that is as before.
fn changes(p: &[u8], room: &mut [u8]) -> bool {
    let at = vectors_frames::short(p, 1);
    let w = vectors_frames::word(p, 3);
    match vectors_frames::byte(p, 0) {
        8 => word(room, at, w),
        2 => short(room, at, w),
        _ => false,
    }
}

// Tells whether the case in a payload passes.
pub fn passes(p: &[u8]) -> bool {
    if p.len() < 11 {
        return false;
    }
    let middle = 11 + (p.len() - 11) / 2;
    rooms::runs(&p[11..middle], &p[middle..], |room| changes(p, room))
}
