// Tells whether a summary of how a run ended is as expected.
//
// Payload: the outcome, then records, steps and bytes, 8 bytes each, and the message.
pub fn passes(p: &[u8]) -> bool {
    if p.len() < 25 {
        return false;
    }
    let outcome = vectors_frames::wide(vectors_frames::byte(p, 0));
    let records = vectors_frames::word(p, 1);
    let steps = vectors_frames::word(p, 9);
    let bytes = vectors_frames::word(p, 17);
    let mut room = io::buffer();
    let n = front_messages::put_summary(&mut room, outcome, records, steps, bytes);
    if 4096 < n {
        return false;
    }
    check::same(&room[0..n], &p[25..])
}
