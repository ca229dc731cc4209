// The line and the column of a byte of a text.
ghost use Rattle.std.specs.Prelude.{◌≡◌, cond, ◌+◌, ◌≤◌, ◌<◌, ◌^◌, length, eqb};
ghost use Rattle.front_places.specs.Places.{NEWLINE, newlines, since_newline, line_at, column_at};

// Counts the newlines of a text.
fn count_newlines(s: &[u8]) -> usize
    ensures { (result ≡ newlines s.now) × (result ≤ length s.now) }
{
    s.iter().filter(|b| **b == b'\n').count()
}

// Counts the bytes since the last newline by one byte more.
fn since(n: usize, b: u8) -> usize
    requires { n + 1 < 2 ^ 64 }
    ensures { (result ≡ cond (eqb b NEWLINE) 0 (n + 1)) × (result ≤ n + 1) }
{
    if b == b'\n' { 0 } else { n + 1 }
}

// Counts the bytes after the last newline of a text, or all of them where it has none.
pub fn since_newline(s: &[u8]) -> usize
    ensures { (result ≡ since_newline 0 s.now) × (result ≤ length s.now) }
{
    let mut n: usize = 0;
    for b in s {
        n = since(n, *b);
    }
    n
}

// Returns the line of a place, from 1.
pub fn line_at(text: &[u8], place: usize) -> usize
    requires { (place ≤ length text.now) × (length text.now < 2 ^ 32) }
    ensures { result ≡ line_at text.now place }
{
    1 + count_newlines(&text[0..place])
}

// Returns the column of a place, from 1.
pub fn column_at(text: &[u8], place: usize) -> usize
    requires { (place ≤ length text.now) × (length text.now < 2 ^ 32) }
    ensures { result ≡ column_at text.now place }
{
    1 + since_newline(&text[0..place])
}
