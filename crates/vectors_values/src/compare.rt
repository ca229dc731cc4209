// Comparison of byte strings.
//
// Payload: how the first compares with the second (0 less, 1 equal, 2 greater), the first's length, 2 bytes, the first,
// the second.
use std::cmp::Ordering;

// Returns the payload's number of an order.
fn order(o: Ordering) -> u8 {
    match o {
        Ordering::Less => 0,
        Ordering::Equal => 1,
        Ordering::Greater => 2,
    }
}

// Tells whether `compare` and `equal` say what is expected.
fn stands(a: &[u8], b: &[u8], expected: u8) -> bool {
    order(buffer::compare(a, b)) == expected && buffer::equal(a, b) == (expected == 1)
}

// Tells whether the case in a payload passes.
pub fn passes(p: &[u8]) -> bool {
    if p.len() < 3 {
        return false;
    }
    let n = vectors_frames::short(p, 1);
    if p.len() - 3 < n {
        return false;
    }
    let middle = 3 + n;
    stands(&p[3..middle], &p[middle..], p[0])
}
