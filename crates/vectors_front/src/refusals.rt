// Why a filter is refused.
//
// Payload: the place, 2 bytes, the outcome, the lengths of name and text, 2 bytes each, name, text and the message.

// Tells whether the message is as expected.
fn says(name: &[u8], text: &[u8], place: usize, outcome: u64, expected: &[u8]) -> bool {
    if text.len() < place {
        return false;
    }
    if 65535 < text.len() {
        return false;
    }
    if 65535 < name.len() {
        return false;
    }
    let mut room = io::buffer();
    let n = front_messages::put_refusal(&mut room, name, text, place, outcome);
    if 4096 < n {
        return false;
    }
    check::same(&room[0..n], expected)
}

// Tells whether the case in a payload passes.
pub fn passes(p: &[u8]) -> bool {
    if p.len() < 7 {
        return false;
    }
    let name = vectors_frames::short(p, 3);
    let text = vectors_frames::short(p, 5);
    if p.len() - 7 < name {
        return false;
    }
    let middle = 7 + name;
    if p.len() - middle < text {
        return false;
    }
    let end = middle + text;
    let outcome = vectors_frames::wide(vectors_frames::byte(p, 2));
    says(
        &p[7..middle],
        &p[middle..end],
        vectors_frames::short(p, 0),
        outcome,
        &p[end..],
    )
}
