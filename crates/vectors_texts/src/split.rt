// The fields of a record, counted.
//
// Payload: the outcome, the count, 2 bytes, 0 where the outcome is not 0, the separator's length, 2 bytes, the
// separator and the record.
use edition::Outcome;
use fields::SplitError;

// Returns the outcome of a split that is refused.
fn refusal(e: SplitError) -> u64 {
    match e {
        SplitError::LongRecord => Outcome::RECORD_TOO_LONG,
        SplitError::BadSeparator => Outcome::BAD_SEPARATOR,
        SplitError::ManyFields => Outcome::BAD_FIELD_NUMBER,
    }
}

// Tells whether what a split answers is as the payload says, in its first three bytes.
pub fn answers(p: &[u8], s: Result<usize, SplitError>) -> bool {
    let outcome = vectors_frames::wide(vectors_frames::byte(p, 0));
    let count = vectors_frames::short(p, 1);
    match s {
        Ok(n) => outcome == Outcome::DONE && count == n,
        Err(e) => outcome == refusal(e) && count == 0,
    }
}

// Tells whether the case in a payload passes.
pub fn passes(p: &[u8]) -> bool {
    if p.len() < 5 {
        return false;
    }
    let n = vectors_frames::short(p, 3);
    if p.len() - 5 < n {
        return false;
    }
    let middle = 5 + n;
    answers(p, fields::split(&p[middle..], &p[5..middle]))
}
