// Where a STRING or an ERE ends.
ghost use Rattle.std.specs.Prelude.{◌≡◌, false, drop};
ghost use Rattle.ere_grammar.specs.Bytes.{lookup, string_escapes};
ghost use Rattle.lists.specs.Elements.{is_some};
ghost use Rattle.program_tokens.specs.Tokens.{read_string, ere_length};
ghost use Rattle.program_scanner.specs.Closings.{string_turn, string_close, ere_close};

// What a byte of a STRING is: a byte of its value, a backslash, the closing quote, or a byte that no STRING has there.
#[derive(Clone, Copy)]
enum Turn {
    Plain,
    Backslash,
    Quote,
    Refused,
}

// Tells whether a backslash and a byte are an escape of strings.
fn is_escape(b: u8) -> bool
    ensures { result ≡ is_some (lookup string_escapes b) }
{
    ere_grammar::string_escape_of(b).is_some()
}

// Tells what a byte of a STRING is, after a backslash or not.
fn string_turn(escaped: bool, b: u8) -> Turn
    ensures { result ≡ string_turn escaped b }
{
    if escaped {
        if is_escape(b) {
            return Turn::Plain;
        }
        return Turn::Refused;
    }
    match b {
        b'"' => Turn::Quote,
        b'\n' => Turn::Refused,
        b'\\' => Turn::Backslash,
        _ => Turn::Plain,
    }
}

// Returns the place after the quote that ends a STRING, from the place after its first quote on.
pub fn string_close(s: &[u8], at: usize) -> Option<usize>
    ensures { result ≡ string_close s.now (read_string false (drop at s.now)) }
{
    let mut escaped = false;
    for i in at..s.len() {
        match string_turn(escaped, s[i]) {
            Turn::Plain => escaped = false,
            Turn::Backslash => escaped = true,
            Turn::Quote => return Some(i + 1),
            Turn::Refused => return None,
        }
    }
    None
}

// Returns the place of the slash that ends an ERE, from the place after its first slash on.
pub fn ere_close(s: &[u8], at: usize) -> Option<usize>
    ensures { result ≡ ere_close at (ere_length false (drop at s.now)) }
{
    let mut escaped = false;
    for i in at..s.len() {
        let b = s[i];
        if b == b'\n' {
            return None;
        }
        if !escaped & (b == b'/') {
            return Some(i);
        }
        escaped = !escaped & (b == b'\\');
    }
    None
}
