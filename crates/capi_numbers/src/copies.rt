// The numbers of what the reader or the writer of images answers.
ghost use Rattle.std.specs.Prelude.{◌≡◌, []};
ghost use Rattle.image.specs.Copy.{copying_of};

use edition::Outcome;
use image::CopyError;

// Returns the number of an answer's outcome.
pub fn copied_outcome(c: Result<usize, CopyError>) -> u64
    ensures { result ≡ (copying_of c []).outcome }
{
    match c {
        Ok(_) => Outcome::DONE,
        Err(CopyError::Malformed) => Outcome::IMAGE_MALFORMED,
        Err(CopyError::NoRoom) => Outcome::ROOM_TOO_SMALL,
    }
}

// Returns the length written, 0 on a refusal.
pub fn copied_length(c: Result<usize, CopyError>) -> u64
    ensures { result ≡ (copying_of c []).length }
{
    match c {
        Ok(n) => n as u64,
        Err(_) => 0,
    }
}
