// The numbers of a split's answer.
ghost use Rattle.std.specs.Prelude.{◌≡◌};
ghost use Rattle.fields.specs.Answer.{counting_of};

use edition::Outcome;
use fields::SplitError;

// Returns the number of a split's outcome.
pub fn split_outcome(s: Result<usize, SplitError>) -> u64
    ensures { result ≡ (counting_of s).outcome }
{
    match s {
        Ok(_) => Outcome::DONE,
        Err(SplitError::LongRecord) => Outcome::RECORD_TOO_LONG,
        Err(SplitError::BadSeparator) => Outcome::BAD_SEPARATOR,
        Err(SplitError::ManyFields) => Outcome::BAD_FIELD_NUMBER,
    }
}

// Returns how many fields there are, 0 of a refused record.
pub fn split_count(s: Result<usize, SplitError>) -> u64
    ensures { result ≡ (counting_of s).count }
{
    match s {
        Ok(n) => n as u64,
        Err(_) => 0,
    }
}
