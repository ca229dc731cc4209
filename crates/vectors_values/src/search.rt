// The first place of a byte, or of a part.
//
// Payload: 0 for a byte, that byte, the index, 2 bytes, the length where there is none, and the text; or 1 for a part,
// whether it is found, its index, 2 bytes, 0 where it is not, the part's length, 2 bytes, the part and the text.

// Tells whether a part was found where the payload says.
fn found(f: Option<usize>, is_found: u8, at: usize) -> bool {
    match f {
        Some(k) => is_found == 1 && at == k,
        None => is_found == 0 && at == 0,
    }
}

// Tells whether the first place of a byte is as the payload says.
fn finds_byte(p: &[u8]) -> bool {
    if p.len() < 4 {
        return false;
    }
    buffer::first_byte(&p[4..], p[1]) == vectors_frames::short(p, 2)
}

// Tells whether the first place of a part is as the payload says.
fn finds_part(p: &[u8]) -> bool {
    if p.len() < 6 {
        return false;
    }
    let n = vectors_frames::short(p, 4);
    if p.len() - 6 < n {
        return false;
    }
    let middle = 6 + n;
    found(
        lanes::find(&p[middle..], &p[6..middle]),
        p[1],
        vectors_frames::short(p, 2),
    )
}

// Tells whether the case in a payload passes.
pub fn passes(p: &[u8]) -> bool {
    if p.len() == 0 {
        return false;
    }
    match p[0] {
        0 => finds_byte(p),
        1 => finds_part(p),
        _ => false,
    }
}
