// A text's number and its numeric look.
ghost use Rattle.std.specs.Prelude.{◌≡◌, cond, false, ◌+◌, ◌≤◌, eqb};
ghost use Rattle.numeral.specs.Capped.{judged_by};
ghost use Rattle.numeral.specs.Answers.{outcome_of, Values, ReadsStripped, Reads};

use crate::{digits, prefix};
use edition::{Edition, Outcome};

// Why a text has no number. It isn't `number::Stop`, whose third case, a divisor of 0, no text has.
#[derive(Clone, Copy, PartialEq, Eq)]
pub enum Unreadable {
    OutOfRange,
    NotWhole,
}

impl Unreadable {
    // Returns the outcome number that document 01 gives it.
    pub fn outcome(self) -> u64
        ensures { result ≡ outcome_of self }
    {
        match self {
            Unreadable::OutOfRange => Outcome::NUMBER_OUT_OF_RANGE,
            Unreadable::NotWhole => Outcome::NUMBER_NOT_WHOLE,
        }
    }
}

// What a text says as a number: the length of the numeric prefix after its leading blanks, 0 where there is none;
// whether the whole text looks numeric; and its number.
#[derive(Drop)]
pub struct Reading {
    pub length: usize,
    pub numeric: bool,
    pub value: Result<u64, Unreadable>,
}

// Returns a number by its sign and the values of its digits before and after the point, or 11 or 12.
fn judge(negative: bool, whole: u64, fraction: u64) -> Result<u64, Unreadable>
    ensures { Values result (judged_by negative whole fraction) }
{
    if Edition::NUMBER < whole {
        return Err(Unreadable::OutOfRange);
    }
    if 0 < fraction {
        return Err(Unreadable::NotWhole);
    }
    if negative {
        Ok(Edition::NUMBER - whole)
    } else {
        Ok(Edition::NUMBER + whole)
    }
}

// Tells whether a prefix that is there, and blanks after it, are all of a text.
fn fills(length: usize, blanks: usize, all: usize) -> bool
    requires { length + blanks ≤ all }
    ensures { result ≡ cond (eqb length 0) false (eqb (length + blanks) all) }
{
    if length == 0 {
        return false;
    }
    length + blanks == all
}

// Reads what a text without leading blanks says as a number.
fn read_stripped(t: &[u8]) -> Reading
    ensures { ReadsStripped result t.now }
{
    let p = prefix::read_prefix(t);
    let length = p.length;
    let blanks = digits::count_blanks(&t[length..]);
    Reading {
        length,
        numeric: fills(length, blanks, t.len()),
        value: judge(p.negative, p.whole, p.fraction),
    }
}

// Reads a text's numeric prefix, look and number.
pub fn read_number(t: &[u8]) -> Reading
    ensures { Reads result t.now }
{
    let from = digits::count_blanks(t);
    read_stripped(&t[from..])
}
