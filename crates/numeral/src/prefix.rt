// The longest prefix of a text that has the form of a number.
ghost use Rattle.std.specs.Prelude.{◌≡◌, cond, get_or, eqb};
ghost use Rattle.numeral.specs.Form.{is_sign};
ghost use Rattle.numeral.specs.Capped.{ReadsPrefix};

use crate::digits;

// A prefix: its length, its sign, and the values of its digits before and after the point, each up to one past the
// greatest number. The length is 0 where there is none, and no Option: `prefix_length` of the definitions has it so.
#[derive(Drop)]
pub struct Prefix {
    pub length: usize,
    pub negative: bool,
    pub whole: u64,
    pub fraction: u64,
}

// Returns the byte at an index, 0 past the end.
fn byte_at(t: &[u8], at: usize) -> u8
    ensures { result ≡ get_or t.now at 0 }
{
    if at < t.len() { t[at] } else { 0 }
}

// Tells whether a byte is `+` or `-`.
fn is_sign(b: u8) -> bool
    ensures { result ≡ is_sign b }
{
    b == b'+' || b == b'-'
}

// Returns how many bytes the sign takes that a text with this first byte begins with.
fn sign_length(first: u8) -> usize
    ensures { result ≡ cond (is_sign first) 1 0 }
{
    usize::from(is_sign(first))
}

// Returns a prefix, if it has a digit: one without is none.
fn with_digits(count: usize, length: usize) -> usize
    ensures { result ≡ cond (eqb count 0) 0 length }
{
    if count == 0 { 0 } else { length }
}

// Reads the numeric prefix that the text begins with.
pub fn read_prefix(t: &[u8]) -> Prefix
    ensures { ReadsPrefix result t.now }
{
    let first = byte_at(t, 0);
    let negative = first == b'-';
    let sign = sign_length(first);
    let whole = digits::read_digits(&t[sign..]);
    let count = whole.count;
    let point = sign + count;
    if byte_at(t, point) != b'.' {
        return Prefix {
            length: with_digits(count, point),
            negative,
            whole: whole.value,
            fraction: 0,
        };
    }
    let from = point + 1;
    let fraction = digits::read_digits(&t[from..]);
    let more = fraction.count;
    Prefix {
        length: with_digits(count + more, from + more),
        negative,
        whole: whole.value,
        fraction: fraction.value,
    }
}
