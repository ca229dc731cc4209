// The rooms that are lent in the cases.

// What is in a room before.
pub const OLD: u8 = 165;

// Tells whether a room has the bytes in front, and is as it was beyond.
pub fn shows(room: &[u8], bytes: &[u8]) -> bool {
    let end = bytes.len();
    if room.len() < end {
        return false;
    }
    check::same(&room[..end], bytes) && room[end..].iter().all(|b| *b == OLD)
}
