// The leftmost, longest match of an ERE in a text.
//
// Payload: the outcome, whether there is a match, its start from 0 and its length, 2 bytes each, 0 where there is none,
// the ERE's length, 2 bytes, the ERE and the text.
use edition::Outcome;
use ere::Refusal;

// Tells whether a match, or that there is none, is as the payload says.
fn spans(p: &[u8], is_found: u8, start: usize, length: usize) -> bool {
    if vectors_frames::byte(p, 1) != is_found {
        return false;
    }
    vectors_frames::short(p, 2) == start && vectors_frames::short(p, 4) == length
}

// Tells whether what a search answers is as the payload says.
fn answers(p: &[u8], m: Result<Option<(usize, usize)>, Refusal>) -> bool {
    let outcome = vectors_frames::wide(vectors_frames::byte(p, 0));
    match m {
        Ok(Some((start, length))) => outcome == Outcome::DONE && spans(p, 1, start, length),
        Ok(None) => outcome == Outcome::DONE && spans(p, 0, 0, 0),
        Err(Refusal::BadEre) => outcome == Outcome::BAD_ERE && spans(p, 0, 0, 0),
        Err(Refusal::LongText) => outcome == Outcome::TEXT_TOO_LONG && spans(p, 0, 0, 0),
    }
}

// Tells whether the case in a payload passes.
pub fn passes(p: &[u8]) -> bool {
    if p.len() < 8 {
        return false;
    }
    let n = vectors_frames::short(p, 6);
    if p.len() - 8 < n {
        return false;
    }
    let middle = 8 + n;
    answers(p, ere::search(&p[8..middle], &p[middle..]))
}
