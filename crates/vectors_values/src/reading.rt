// Texts as numbers.
//
// Payload: the outcome, the number, 8 bytes, 0 where the outcome is not 0, the length of the numeric prefix, 2 bytes,
// whether the text looks numeric, and the text.
use edition::Outcome;
use numeral::{Reading, Unreadable};

// Tells whether a text's number is as the payload says.
fn valued(v: Result<u64, Unreadable>, outcome: u64, number: u64) -> bool {
    match v {
        Ok(w) => outcome == Outcome::DONE && number == w,
        Err(e) => outcome == e.outcome() && number == 0,
    }
}

// Tells whether what was read is as the payload says.
fn agrees(p: &[u8], r: Reading) -> bool {
    if r.length != vectors_frames::short(p, 9) {
        return false;
    }
    if u8::from(r.numeric) != vectors_frames::byte(p, 11) {
        return false;
    }
    valued(
        r.value,
        vectors_frames::wide(vectors_frames::byte(p, 0)),
        vectors_frames::word(p, 1),
    )
}

// Tells whether the case in a payload passes.
pub fn passes(p: &[u8]) -> bool {
    if p.len() < 12 {
        return false;
    }
    agrees(p, numeral::read_number(&p[12..]))
}
