// A number as decimal text.
ghost use Rattle.std.specs.Prelude.{◌≡◌, ◌+◌, ◌≤◌, ◌<◌, length};
ghost use Rattle.edition.specs.Limits.{number_bound};
ghost use Rattle.buffer.specs.Parts.{put};
ghost use Rattle.number.specs.Range.{unbias, top};
ghost use Rattle.decimals.specs.Decimal.{decimal_digits, decimal_text};

use edition::Edition;

// The most bytes that a number's text has.
pub const DECIMAL_BYTES: usize = 17;

// Returns how many digits `n` has, which is below 10^8. Comparisons wait for nothing, as divisions one after the other
// would.
fn few_digits(n: u64) -> usize
    requires { n < 100000000 }
    ensures { result ≡ length (decimal_digits n) }
{
    if n < 10000 {
        if n < 100 {
            return if n < 10 { 1 } else { 2 };
        }
        return if n < 1000 { 3 } else { 4 };
    }
    if n < 1000000 {
        return if n < 100000 { 5 } else { 6 };
    }
    if n < 10000000 { 7 } else { 8 }
}

// Returns how many digits `n` has.
fn digit_count(n: u64) -> usize
    requires { n ≤ number_bound }
    ensures { result ≡ length (decimal_digits n) }
{
    if n < 100000000 {
        return few_digits(n);
    }
    8 + few_digits(n / 100000000)
}

// Writes the digits of `n`, of which there are `count`, from index `at` on.
fn write_digits(out: &mut [u8], at: usize, n: u64, count: usize)
    requires { (count ≡ length (decimal_digits n)) × (at + count ≤ length out.old) }
    ensures { out.new ≡ put out.old at (decimal_digits n) }
{
    let mut rest = n;
    for i in (0..count).rev() {
        out[at + i] = b'0' + (rest % 10) as u8;
        rest /= 10;
    }
}

// Returns the length of a number's text.
pub fn decimal_length(w: u64) -> usize
    requires { w ≤ top }
    ensures { result ≡ length (decimal_text (unbias w)) }
{
    if w < Edition::NUMBER {
        1 + digit_count(Edition::NUMBER - w)
    } else {
        digit_count(w - Edition::NUMBER)
    }
}

// Writes a number's text from index `at` on, and answers its length. `write!` is no plainer here: it answers a Result,
// though the text is known to fit, and the number's sign has to be told from its distance first.
pub fn write_decimal(out: &mut [u8], at: usize, w: u64) -> usize
    requires { (w ≤ top) × (at + length (decimal_text (unbias w)) ≤ length out.old) }
    ensures { (result ≡ length (decimal_text (unbias w)))
        × (out.new ≡ put out.old at (decimal_text (unbias w))) }
{
    if w < Edition::NUMBER {
        let n = Edition::NUMBER - w;
        let count = digit_count(n);
        out[at] = b'-';
        write_digits(out, at + 1, n, count);
        1 + count
    } else {
        let n = w - Edition::NUMBER;
        let count = digit_count(n);
        write_digits(out, at, n, count);
        count
    }
}
