// The number of the checker's verdict.
ghost use Rattle.std.specs.Prelude.{◌≡◌};
ghost use Rattle.image_check.specs.Verdict.{outcome_of};

use edition::Outcome;
use image_check::CheckError;

// Returns the number of a verdict.
pub fn verdict_outcome(v: Result<(), CheckError>) -> u64
    ensures { result ≡ outcome_of v }
{
    match v {
        Ok(()) => Outcome::DONE,
        Err(CheckError::Malformed) => Outcome::IMAGE_MALFORMED,
        Err(CheckError::Rejected) => Outcome::IMAGE_FAILS_CHECK,
    }
}
