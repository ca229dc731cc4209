// A whole run.
//
// Payload: the outcome, steps, 8 bytes, records, 8 bytes, the budget, 8 bytes, the size of the output room, the number
// of bytes written and the image's length, 2 bytes each, the bytes that are written, the image and the lines.
use crate::rooms;
use crate::rooms::OLD;
use runner::Answer;

// The most bytes that an output room has here.
const MOST: usize = 4096;

// Tells whether what a run answers is as the payload says.
fn answers(p: &[u8], a: Answer) -> bool {
    if vectors_frames::wide(vectors_frames::byte(p, 0)) != a.outcome {
        return false;
    }
    vectors_frames::word(p, 1) == a.steps
        && vectors_frames::word(p, 9) == a.records
        && vectors_frames::short(p, 27) as u64 == a.bytes
}

// Runs the image with a part of a room, and returns whether the answer and the room are as expected.
pub fn runs(
    p: &[u8],
    written: &[u8],
    image: &[u8],
    lines: &[u8],
    size: usize,
    room: &mut [u8],
) -> bool {
    if room.len() < size {
        return false;
    }
    let mut work = [OLD; 49152];
    let a = runner::run(
        image,
        lines,
        &mut room[0..size],
        &mut work,
        vectors_frames::word(p, 17),
    );
    answers(p, a) && rooms::shows(room, written)
}

// Tells whether the case in a payload passes.
pub fn passes(p: &[u8]) -> bool {
    if p.len() < 31 {
        return false;
    }
    let written = vectors_frames::short(p, 27);
    let size = vectors_frames::short(p, 29);
    if p.len() - 31 < written {
        return false;
    }
    if p.len() - 31 - written < size {
        return false;
    }
    let image = 31 + written;
    let lines = image + size;
    let mut room = [OLD; MOST];
    runs(
        p,
        &p[31..image],
        &p[image..lines],
        &p[lines..],
        vectors_frames::short(p, 25),
        &mut room,
    )
}
