// The check of an image.
//
// Payload: the outcome and the image.
use edition::Outcome;
use image_check::CheckError;

// Returns the number of a verdict.
fn number(v: Result<(), CheckError>) -> u64 {
    match v {
        Ok(()) => Outcome::DONE,
        Err(CheckError::Malformed) => Outcome::IMAGE_MALFORMED,
        Err(CheckError::Rejected) => Outcome::IMAGE_FAILS_CHECK,
    }
}

// Tells whether the case in a payload passes.
pub fn passes(p: &[u8]) -> bool {
    if p.len() < 1 {
        return false;
    }
    number(image_check::check(&p[1..])) == vectors_frames::wide(vectors_frames::byte(p, 0))
}
