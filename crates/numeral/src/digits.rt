// Runs of bytes of one kind at the front of a text.
ghost use Rattle.std.specs.Prelude.{◌≡◌, ◌+◌, ◌≤◌};
ghost use Rattle.lists.specs.Elements.{leading};
ghost use Rattle.edition.specs.Limits.{number_bound};
ghost use Rattle.numeral.specs.Form.{is_blank, is_digit};
ghost use Rattle.numeral.specs.Judgement.{appended};
ghost use Rattle.numeral.specs.Capped.{capped, ReadsDigits};

use edition::Edition;

// Digits at the front of a text: how many, and their value up to one past the greatest number.
#[derive(Drop)]
pub struct Digits {
    pub count: usize,
    pub value: u64,
}

// Tells whether a byte is a space or a tab.
pub fn is_blank(b: u8) -> bool
    ensures { result ≡ is_blank b }
{
    b == b' ' || b == b'\t'
}

// Tells whether a byte is a digit.
pub fn is_digit(b: u8) -> bool
    ensures { result ≡ is_digit b }
{
    b.is_ascii_digit()
}

// Returns how many blanks the text begins with.
pub fn count_blanks(t: &[u8]) -> usize
    ensures { result ≡ leading is_blank t.now }
{
    for (k, b) in t.iter().enumerate() {
        if !is_blank(*b) {
            return k;
        }
    }
    t.len()
}

// Returns a value with one digit more, up to one past the greatest number.
fn with_digit(value: u64, digit: u8) -> u64
    requires { (value ≤ number_bound + 1) × (48 ≤ digit) × (digit ≤ 57) }
    ensures { result ≡ capped (appended value digit) }
{
    let next = value * 10 + (digit - b'0') as u64;
    next.min(Edition::NUMBER + 1)
}

// Reads the digits that the text begins with.
pub fn read_digits(t: &[u8]) -> Digits
    ensures { ReadsDigits result t.now }
{
    let mut value: u64 = 0;
    for (k, b) in t.iter().enumerate() {
        if !is_digit(*b) {
            return Digits { count: k, value };
        }
        value = with_digit(value, *b);
    }
    Digits {
        count: t.len(),
        value,
    }
}
