// The argument of -b.
//
// Payload: whether it is a budget, its number, 8 bytes, and the word.

// Tells whether the case in a payload passes.
pub fn passes(p: &[u8]) -> bool {
    if p.len() < 9 {
        return false;
    }
    match front_options::read_budget(&p[9..]) {
        Some(n) => vectors_frames::byte(p, 0) == 1 && vectors_frames::word(p, 1) == n,
        None => vectors_frames::byte(p, 0) == 0,
    }
}
