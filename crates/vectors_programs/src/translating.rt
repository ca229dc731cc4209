// The translation of a filter text.
//
// Payload: the outcome, the place, the size of the image room and the image's length, 2 bytes each, 0 where the outcome
// is not 0, the image and the text.
use crate::rooms;
use crate::rooms::OLD;

// The most bytes that an image room has here.
const MOST: usize = 16384;

// Translates a text into a room of a size, and returns whether the answer and the room are as expected.
fn translates(p: &[u8], image: &[u8], text: &[u8], size: usize) -> bool {
    if MOST < size {
        return false;
    }
    let mut space = [OLD; MOST];
    let room = &mut space[0..size];
    let t = translator::translate(text, room);
    if vectors_frames::wide(vectors_frames::byte(p, 0)) != t.outcome {
        return false;
    }
    vectors_frames::short(p, 1) == t.place && rooms::shows(room, image)
}

// Tells whether the case in a payload passes.
pub fn passes(p: &[u8]) -> bool {
    if p.len() < 7 {
        return false;
    }
    let n = vectors_frames::short(p, 5);
    if p.len() - 7 < n {
        return false;
    }
    let text = 7 + n;
    translates(p, &p[7..text], &p[text..], vectors_frames::short(p, 3))
}
