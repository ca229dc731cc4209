// The bytes of an image, from its content.
//
// Payload: the outcome, the bytes of the room, 2 bytes, the bytes of the image, 2 bytes, 0 where the outcome is not 0,
// the image, and the content, 8 bytes a word.
use crate::reading;

// The most bytes that the room of a case has.
const ROOM: usize = 8192;

// The most words that the content of a case has.
const CONTENT: usize = 4096;

// What a byte of the room has before.
const BEFORE: u8 = 0xa5;

// Tells whether the room has the image in front, and is as before after it.
fn is_after(room: &[u8], image: &[u8]) -> bool {
    let n = room.len();
    let m = image.len();
    if ROOM < n {
        return false;
    }
    if n < m {
        return false;
    }
    let before = [BEFORE; ROOM];
    check::same(&room[0..m], image) && check::same(&room[m..n], &before[m..n])
}

// Puts the words of a payload's bytes into a room for them.
fn load(words: &mut [u64], bytes: &[u8]) {
    for (k, word) in words.iter_mut().enumerate() {
        *word = vectors_frames::word(bytes, 8 * k);
    }
}

// Writes an image, and tells whether the answer and the room are as the payload says.
fn runs(p: &[u8], image: &[u8], bytes: &[u8]) -> bool {
    let n = vectors_frames::short(p, 1);
    if ROOM < n {
        return false;
    }
    let m = bytes.len() / 8;
    if CONTENT < m {
        return false;
    }
    let mut words = [0u64; CONTENT];
    let content = &mut words[0..m];
    load(content, bytes);
    let mut space = [BEFORE; ROOM];
    let room = &mut space[0..n];
    reading::answers(p, image_writer::write(content, room)) && is_after(room, image)
}

// Tells whether the case in a payload passes.
pub fn passes(p: &[u8]) -> bool {
    if p.len() < 5 {
        return false;
    }
    let n = vectors_frames::short(p, 3);
    if p.len() - 5 < n {
        return false;
    }
    let middle = 5 + n;
    runs(p, &p[5..middle], &p[middle..])
}
