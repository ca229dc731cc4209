// The content of an image, from its bytes.
//
// Payload: the outcome, the words of the room, 2 bytes, the words of the content, 2 bytes, 0 where the outcome is not
// 0, the content, 8 bytes a word, and the image.
use edition::Outcome;
use image::CopyError;

// The most words that the room of a case has.
const ROOM: usize = 4096;

// What a word of the room has before.
const BEFORE: u64 = 0xa5a5a5a5a5a5a5a5;

// Tells whether an answer is as a payload says, in its first byte and the two bytes from 3 on.
pub fn answers(p: &[u8], c: Result<usize, CopyError>) -> bool {
    let outcome = vectors_frames::wide(vectors_frames::byte(p, 0));
    let count = vectors_frames::short(p, 3);
    match c {
        Ok(n) => outcome == Outcome::DONE && count == n,
        Err(CopyError::Malformed) => outcome == Outcome::IMAGE_MALFORMED && count == 0,
        Err(CopyError::NoRoom) => outcome == Outcome::ROOM_TOO_SMALL && count == 0,
    }
}

// Returns what word k of the room has after.
fn after(content: &[u8], k: usize) -> u64 {
    if k < content.len() / 8 {
        return vectors_frames::word(content, 8 * k);
    }
    BEFORE
}

// Tells whether the room has the content in front, and is as before after it.
fn is_after(room: &[u64], content: &[u8]) -> bool {
    for (k, word) in room.iter().enumerate() {
        if *word != after(content, k) {
            return false;
        }
    }
    true
}

// Reads an image, and tells whether the answer and the room are as the payload says.
fn runs(p: &[u8], content: &[u8], image: &[u8]) -> bool {
    let n = vectors_frames::short(p, 1);
    if ROOM < n {
        return false;
    }
    let mut space = [BEFORE; ROOM];
    let room = &mut space[0..n];
    answers(p, image::read(image, room)) && is_after(room, content)
}

// Tells whether the case in a payload passes.
pub fn passes(p: &[u8]) -> bool {
    if p.len() < 5 {
        return false;
    }
    let n = vectors_frames::short(p, 3);
    if (p.len() - 5) / 8 < n {
        return false;
    }
    let middle = 5 + 8 * n;
    runs(p, &p[5..middle], &p[middle..])
}
