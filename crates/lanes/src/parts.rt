// The first place of a part: it is compared where its first byte is.
ghost use Rattle.std.specs.Prelude.{◌≡◌, ◌<◌, length};
ghost use Rattle.lists.specs.Answers.{option_of};
ghost use Rattle.buffer.specs.First.{first_part};

use crate::pairs::first_byte_from;

// Finds a part that isn't empty.
fn find_some(s: &[u8], t: &[u8]) -> Option<usize>
    requires { 0 < length t.now }
    ensures { option_of result ≡ first_part t.now s.now }
{
    let b = t[0];
    let mut k = first_byte_from(s, 0, b);
    while t.len() <= s.len() - k {
        let e = k + t.len();
        if buffer::equal(&s[k..e], t) {
            return Some(k);
        }
        k = first_byte_from(s, k + 1, b);
    }
    None
}

// Finds the first index of `s` at which `t` is. An empty `t` is at index 0.
pub fn find(s: &[u8], t: &[u8]) -> Option<usize>
    ensures { option_of result ≡ first_part t.now s.now }
{
    if t.len() == 0 {
        return Some(0);
    }
    find_some(s, t)
}
