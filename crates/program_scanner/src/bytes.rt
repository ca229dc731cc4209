// Single bytes of a text, and runs of them.
ghost use Rattle.std.specs.Prelude.{◌≡◌, false, ◌+◌, get_or, drop};
ghost use Rattle.lists.specs.Elements.{leading};
ghost use Rattle.program_tokens.specs.Tokens.{is_letter, is_word_byte, skipped};

// Returns the byte at a place, 0 past the text's end.
pub fn byte_at(s: &[u8], i: usize) -> u8
    ensures { result ≡ get_or s.now i 0 }
{
    if i < s.len() {
        return s[i];
    }
    0
}

// Tells whether a word can begin with a byte.
pub fn is_letter(b: u8) -> bool
    ensures { result ≡ is_letter b }
{
    ((b'a' <= b) & (b <= b'z')) | (((b'A' <= b) & (b <= b'Z')) | (b == b'_'))
}

// Tells whether a word can go on with a byte.
pub fn is_word_byte(b: u8) -> bool
    ensures { result ≡ is_word_byte b }
{
    is_letter(b) | numeral::is_digit(b)
}

// Returns the place of the next token: after blanks and comments.
pub fn skip(s: &[u8], at: usize) -> usize
    ensures { result ≡ at + skipped false (drop at s.now) }
{
    let mut comment = false;
    for i in at..s.len() {
        let b = s[i];
        if b == b'\n' {
            return i;
        }
        comment = comment | (b == b'#');
        if !(comment | numeral::is_blank(b)) {
            return i;
        }
    }
    at.max(s.len())
}

// Returns how many bytes the word at a place has.
pub fn word_length(s: &[u8], at: usize) -> usize
    ensures { result ≡ leading is_word_byte (drop at s.now) }
{
    for i in at..s.len() {
        if !is_word_byte(s[i]) {
            return i - at;
        }
    }
    s.len().saturating_sub(at)
}
