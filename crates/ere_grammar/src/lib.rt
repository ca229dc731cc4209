// The grammar of EREs: what a byte of an ERE stands for.
#![tactic(auto)]

ghost use Rattle.std.specs.Prelude.{◌≡◌};
ghost use Rattle.lists.specs.Answers.{option_of};
ghost use Rattle.lists.specs.Elements.{one_of};
ghost use Rattle.ere_grammar.specs.Bytes.{marks, lookup, string_escapes, escape_of, is_plain};

// The control bytes that have no letter of their own in code.
const BELL: u8 = 7;

const BACKSPACE: u8 = 8;

const VERTICAL_TAB: u8 = 11;

const FORM_FEED: u8 = 12;

// A bit for each byte that is a mark.
const MARKS: [u64; 4] = [0x80004f1000000000, 0x3800000068000000, 0, 0];

// Tells whether a byte is one of `^ $ . [ ] | ( ) * + ? { }`, which a backslash makes plain.
fn is_mark(b: u8) -> bool
    ensures { result ≡ one_of marks b }
{
    (MARKS[(b / 64) as usize] >> (b % 64)) % 2 == 1
}

// Tells whether a byte is itself outside brackets.
pub fn is_plain(b: u8) -> bool
    ensures { result ≡ is_plain b }
{
    (b == b']') | !((b == b'\\') | is_mark(b))
}

// Returns the byte that a backslash and `b` spell in a STRING, if they spell one.
#[tactic(auto, unfolding(crate::specs::Bytes::lookup))]
pub fn string_escape_of(b: u8) -> Option<u8>
    ensures { option_of result ≡ lookup string_escapes b }
{
    match b {
        b'"' => Some(b'"'),
        b'\\' => Some(b'\\'),
        b'/' => Some(b'/'),
        b'a' => Some(BELL),
        b'b' => Some(BACKSPACE),
        b't' => Some(b'\t'),
        b'n' => Some(b'\n'),
        b'v' => Some(VERTICAL_TAB),
        b'f' => Some(FORM_FEED),
        b'r' => Some(b'\r'),
        _ => None,
    }
}

// Returns the byte that a backslash and `b` spell in an ERE, if they spell one.
#[tactic(auto, unfolding(crate::specs::Bytes::escape_of))]
pub fn escape_of(b: u8) -> Option<u8>
    ensures { option_of result ≡ escape_of b }
{
    if is_mark(b) {
        Some(b)
    } else {
        string_escape_of(b)
    }
}
