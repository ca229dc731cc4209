// Signed 64-bit arithmetic within the range of numbers.
ghost use Rattle.std.specs.Prelude.{◌≡◌, ◌≤◌, pos, neg_ℤ, ◌+ℤ◌, ◌-ℤ◌};
ghost use Rattle.std.specs.Int.Signed.{rem_z, quot_z};
ghost use Rattle.number.specs.Range.{InRange, in_range, unbias, top};

use edition::Edition;

const MOST: i64 = Edition::NUMBER as i64;

const LEAST: i64 = -MOST;

// Tells whether a number is in range.
pub fn in_range(z: i64) -> bool
    ensures { result ≡ in_range z }
{
    LEAST <= z && z <= MOST
}

// Returns a number's distance from the least number.
pub fn biased(z: i64) -> u64
    requires { InRange z }
    ensures { (unbias result ≡ z) × (result ≤ top) }
{
    (z + MOST) as u64
}

// Returns the number at a distance from the least one.
pub fn unbiased(w: u64) -> i64
    requires { w ≤ top }
    ensures { (result ≡ unbias w) × InRange result }
{
    w as i64 - MOST
}

// Adds two numbers in range; the sum fits 64 bits.
pub fn sum(a: i64, b: i64) -> i64
    requires { InRange a × InRange b }
    ensures { result ≡ a +ℤ b }
{
    a + b
}

// Subtracts two numbers in range; the difference fits 64 bits.
pub fn difference(a: i64, b: i64) -> i64
    requires { InRange a × InRange b }
    ensures { result ≡ a -ℤ b }
{
    a - b
}

// Returns the quotient, rounded toward 0.
pub fn quotient(a: i64, b: i64) -> i64
    requires { InRange a × (b ≡ pos 0 → ⊥) }
    ensures { result ≡ quot_z a b }
{
    a / b
}

// Returns the remainder of that quotient.
pub fn rest(a: i64, b: i64) -> i64
    requires { InRange a × (b ≡ pos 0 → ⊥) }
    ensures { result ≡ rem_z a b }
{
    a % b
}

// Returns the number with the other sign.
pub fn negated(a: i64) -> i64
    requires { InRange a }
    ensures { result ≡ neg_ℤ a }
{
    -a
}
