// The operators on numbers, by document 01.
ghost use Rattle.std.specs.Prelude.{◌≡◌, ◌≤◌};
ghost use Rattle.number.specs.Range.{unbias, top, ranged};
ghost use Rattle.number.specs.Arithmetic.{sum_of, difference_of, product_of, quotient_of, remainder_of, negation_of};
ghost use Rattle.number.specs.Answers.{outcome_of, Computes};

use crate::signed;
use edition::{Edition, Outcome};

// A number stays a plain u64, bounded by clauses, and gets no struct with an invariant: it is the word that a slot of
// the working room and an image hold, so each call of an operator would have to wrap and unwrap it.

// The u64 that stands for 0, and the greatest that stands for a number.
pub const ZERO: u64 = Edition::NUMBER;

pub const TOP: u64 = 2 * Edition::NUMBER;

// Why an operator gives no number.
#[derive(Clone, Copy, PartialEq, Eq)]
pub enum Stop {
    OutOfRange,
    NotWhole,
    ZeroDivisor,
}

impl Stop {
    // Returns the outcome number that document 01 gives it.
    pub fn outcome(self) -> u64
        ensures { result ≡ outcome_of self }
    {
        match self {
            Stop::OutOfRange => Outcome::NUMBER_OUT_OF_RANGE,
            Stop::NotWhole => Outcome::NUMBER_NOT_WHOLE,
            Stop::ZeroDivisor => Outcome::DIVISOR_ZERO,
        }
    }
}

// Returns a result, if it is in range.
fn checked(z: i64) -> Result<u64, Stop>
    ensures { Computes result (ranged z) }
{
    if signed::in_range(z) {
        Ok(signed::biased(z))
    } else {
        Err(Stop::OutOfRange)
    }
}

// The operators on two numbers share the two lines that read them, and nothing after these: one function that takes the
// rest as a closure would state each closure's needs and answer in clauses, and so is no plainer.

// Returns a + b, or that it is out of range.
pub fn add(a: u64, b: u64) -> Result<u64, Stop>
    requires { (a ≤ top) × (b ≤ top) }
    ensures { Computes result (sum_of (unbias a) (unbias b)) }
{
    let x = signed::unbiased(a);
    let y = signed::unbiased(b);
    checked(signed::sum(x, y))
}

// Returns a - b, or that it is out of range.
pub fn subtract(a: u64, b: u64) -> Result<u64, Stop>
    requires { (a ≤ top) × (b ≤ top) }
    ensures { Computes result (difference_of (unbias a) (unbias b)) }
{
    let x = signed::unbiased(a);
    let y = signed::unbiased(b);
    checked(signed::difference(x, y))
}

// Returns a * b, or that it is out of range, as a product that passes 64 bits is.
pub fn multiply(a: u64, b: u64) -> Result<u64, Stop>
    requires { (a ≤ top) × (b ≤ top) }
    ensures { Computes result (product_of (unbias a) (unbias b)) }
{
    let x = signed::unbiased(a);
    let y = signed::unbiased(b);
    match x.checked_mul(y) {
        Some(z) => checked(z),
        None => Err(Stop::OutOfRange),
    }
}

// Returns a / b: 13 if b is 0, 12 if the quotient is not whole.
pub fn divide(a: u64, b: u64) -> Result<u64, Stop>
    requires { (a ≤ top) × (b ≤ top) }
    ensures { Computes result (quotient_of (unbias a) (unbias b)) }
{
    let x = signed::unbiased(a);
    let y = signed::unbiased(b);
    if b == ZERO {
        return Err(Stop::ZeroDivisor);
    }
    let m = signed::biased(signed::rest(x, y));
    if m == ZERO {
        return checked(signed::quotient(x, y));
    }
    Err(Stop::NotWhole)
}

// Returns a % b, which has the sign of a or is 0: 13 if b is 0.
pub fn remainder(a: u64, b: u64) -> Result<u64, Stop>
    requires { (a ≤ top) × (b ≤ top) }
    ensures { Computes result (remainder_of (unbias a) (unbias b)) }
{
    let x = signed::unbiased(a);
    let y = signed::unbiased(b);
    if b == ZERO {
        return Err(Stop::ZeroDivisor);
    }
    checked(signed::rest(x, y))
}

// Returns -a, which is always in range.
pub fn negate(a: u64) -> Result<u64, Stop>
    requires { a ≤ top }
    ensures { Computes result (negation_of (unbias a)) }
{
    checked(signed::negated(signed::unbiased(a)))
}
