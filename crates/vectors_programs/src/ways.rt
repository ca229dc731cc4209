// A whole way: a filter text is translated, and what was written is run.
//
// Payload: as that of a run, with the text in the place of the image. The text is one that is translated.

use crate::rooms::OLD;
use crate::runs;

// The most bytes that an image and an output room have here.
const IMAGE: usize = 16384;

const MOST: usize = 4096;

// Translates a text, and returns the image's length; none where the text is refused.
fn translated(text: &[u8], image: &mut [u8]) -> Option<usize> {
    let t = translator::translate(text, image);
    if t.outcome == 0 { Some(t.place) } else { None }
}

// Translates the text and runs what it is translated to.
fn goes(
    p: &[u8],
    written: &[u8],
    text: &[u8],
    lines: &[u8],
    image: &mut [u8],
    room: &mut [u8],
) -> bool {
    let Some(n) = translated(text, image) else {
        return false;
    };
    if image.len() < n {
        return false;
    }
    runs::runs(
        p,
        written,
        &image[0..n],
        lines,
        vectors_frames::short(p, 25),
        room,
    )
}

// Tells whether the case in a payload passes.
pub fn passes(p: &[u8]) -> bool {
    if p.len() < 31 {
        return false;
    }
    let written = vectors_frames::short(p, 27);
    let size = vectors_frames::short(p, 29);
    if p.len() - 31 < written {
        return false;
    }
    if p.len() - 31 - written < size {
        return false;
    }
    let text = 31 + written;
    let lines = text + size;
    let mut image = [OLD; IMAGE];
    let mut room = [OLD; MOST];
    goes(
        p,
        &p[31..text],
        &p[text..lines],
        &p[lines..],
        &mut image,
        &mut room,
    )
}
