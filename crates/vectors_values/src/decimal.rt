// Numbers as texts.
//
// Payload: the number, 8 bytes, the index to write at, 2 bytes, the text's length, 2 bytes, the room before and the
// room after, which have the same length.
use crate::rooms;

// Writes a number into the room, if it fits, and tells whether its text has the length that is expected.
fn writes(room: &mut [u8], at: usize, w: u64, length: usize) -> bool {
    if number::TOP < w {
        return false;
    }
    let n = decimals::decimal_length(w);
    if room.len() < n {
        return false;
    }
    if room.len() - n < at {
        return false;
    }
    n == length && decimals::write_decimal(room, at, w) == length
}

// Runs the payload's case on a room that is as before.
fn changes(p: &[u8], room: &mut [u8]) -> bool {
    writes(
        room,
        vectors_frames::short(p, 8),
        vectors_frames::word(p, 0),
        vectors_frames::short(p, 10),
    )
}

// Tells whether the case in a payload passes.
pub fn passes(p: &[u8]) -> bool {
    if p.len() < 12 {
        return false;
    }
    let middle = 12 + (p.len() - 12) / 2;
    rooms::runs(&p[12..middle], &p[middle..], |room| changes(p, room))
}
