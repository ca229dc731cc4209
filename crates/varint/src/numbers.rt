// A number off an image's bytes: groups of seven bits, the low one first.
ghost use Rattle.std.specs.Prelude.{◌≡◌, ◌≤◌, ◌<◌, ◌^◌, not, ◌&&◌, length, eqb};
ghost use Rattle.varint.specs.Take.{TakesAt, last_of};

use edition::Edition;

// Groups of a number at most, but for the last.
const GROUPS: usize = 7;

// Tells whether the last group g is needless: a 0 after other groups.
fn needless(scale: u64, g: u64) -> bool
    ensures { result ≡ (eqb g 0 && not (eqb scale 1)) }
{
    g == 0 && scale != 1
}

// Returns the number of which `value` is what was read so far, with the last group g, which counts `scale` times, and
// the end of its bytes, `end`; or that there is no such number.
fn last(value: u64, scale: u64, g: u64, end: usize) -> Option<(u64, usize)>
    requires { (value < scale) × (scale ≤ 2 ^ 49) × (g < 128) }
    ensures { result ≡ last_of value scale g end }
{
    if needless(scale, g) {
        return None;
    }
    let n = value + scale * g;
    if Edition::NUMBER < n {
        return None;
    }
    Some((n, end))
}

// Reads the number whose bytes start at `at`; returns it and the place after it.
pub fn take_number(image: &[u8], at: usize) -> Option<(u64, usize)>
    requires { at ≤ length image.now }
    ensures { TakesAt image.now at result }
{
    let mut value: u64 = 0;
    let mut scale: u64 = 1;
    // By index: by a `for` over `image[at..].iter().enumerate()`, reading an image takes a fifth longer.
    let mut k: usize = 0;
    while at + k < image.len() {
        let b = image[at + k] as u64;
        if b < 128 {
            return last(value, scale, b, at + k + 1);
        }
        if k == GROUPS {
            return None;
        }
        value += scale * (b - 128);
        scale *= 128;
        k += 1;
    }
    None
}
