// Tokens of a filter text, by their places.
ghost use Rattle.std.specs.Prelude.{◌≡◌, false, suc, ◌+◌, ◌≤◌, ◌<◌, length, drop, get_or};
ghost use Rattle.program_tokens.specs.Tokens.{
  number_token,
  word_token,
  read_string,
  string_token,
  operator_token,
  token_of,
  token_at,
  token_after,
  ere_length,
  ere_token,
  as_operand,
};
ghost use Rattle.program_lexer.specs.Coded.{coded, decoded, kind_count};

use edition::Edition;

// A token: where it starts, the number of its kind, and the place after it.
#[derive(Clone, Copy)]
pub struct Token {
    pub start: usize,
    pub kind: u64,
    pub stop: usize,
}

// Reads a NUMBER, from its first digit on.
fn number(s: &[u8], a: usize) -> Token
    requires { a ≤ length s.now }
    ensures { result ≡ coded (number_token a (drop a s.now)) }
{
    let digits = numeral::read_digits(&s[a..]);
    let stop = a + digits.count;
    let after = program_scanner::byte_at(s, stop);
    if (Edition::NUMBER < digits.value) | (program_scanner::is_letter(after) | (after == b'.')) {
        return Token {
            start: a,
            kind: program_scanner::BAD,
            stop,
        };
    }
    Token {
        start: a,
        kind: program_scanner::NUMBER,
        stop,
    }
}

// Reads a word, from its first letter on.
fn word(s: &[u8], a: usize, edition: Edition) -> Token
    requires { a ≤ length s.now }
    ensures { result ≡ coded (word_token edition.number a (drop a s.now)) }
{
    let n = program_scanner::word_length(s, a);
    Token {
        start: a,
        kind: program_scanner::word_kind(&s[a..a + n], edition),
        stop: a + n,
    }
}

// Reads a STRING, from its first quote on.
fn string(s: &[u8], a: usize) -> Token
    requires { a < length s.now }
    ensures { result ≡ coded
        (string_token a (drop (suc a) s.now) (read_string false (drop (suc a) s.now))) }
{
    let Some(stop) = program_scanner::string_close(s, a + 1) else {
        return Token {
            start: a,
            kind: program_scanner::BAD,
            stop: a + 1,
        };
    };
    Token {
        start: a,
        kind: program_scanner::STRING,
        stop,
    }
}

// Reads an operator, the longest that fits, from its first byte on.
fn operator(s: &[u8], a: usize, edition: Edition) -> Token
    requires { a < length s.now }
    ensures { result ≡ coded (operator_token edition.number a (drop a s.now)) }
{
    let pair = &s[a..s.len().min(a + 2)];
    let two = program_scanner::operator_kind(pair, edition);
    if two != program_scanner::BAD {
        return Token {
            start: a,
            kind: two,
            stop: a + pair.len(),
        };
    }
    Token {
        start: a,
        kind: program_scanner::operator_kind(&s[a..a + 1], edition),
        stop: a + 1,
    }
}

// Returns the token that starts at a place.
pub fn token_of(s: &[u8], a: usize, edition: Edition) -> Token
    ensures { result ≡ coded (token_of edition.number a (drop a s.now)) }
{
    if s.len() <= a {
        return Token {
            start: a,
            kind: program_scanner::TEXT_END,
            stop: a,
        };
    }
    let b = s[a];
    if b == b'\n' {
        return Token {
            start: a,
            kind: program_scanner::NEWLINE,
            stop: a + 1,
        };
    }
    if program_scanner::is_letter(b) {
        return word(s, a, edition);
    }
    if numeral::is_digit(b) {
        return number(s, a);
    }
    if b == b'"' {
        return string(s, a);
    }
    operator(s, a, edition)
}

// Returns the first token at or after a place.
pub fn token_at(s: &[u8], p: usize, edition: Edition) -> Token
    ensures { result ≡ coded (token_at edition.number s.now p) }
{
    token_of(s, program_scanner::skip(s, p), edition)
}

// Returns the token after a token.
pub fn token_after(s: &[u8], t: Token, edition: Edition) -> Token
    ensures { result ≡ coded (token_after edition.number s.now (decoded t)) }
{
    let stop = t.stop;
    if (t.kind == program_scanner::USER_NAME) & (program_scanner::byte_at(s, stop) == b'(') {
        return Token {
            start: stop,
            kind: program_scanner::CALL_PAREN,
            stop: stop + 1,
        };
    }
    token_at(s, stop, edition)
}

// Reads an ERE, from its first slash on.
fn ere_at(s: &[u8], a: usize, edition: Edition) -> Token
    requires { a ≤ length s.now }
    ensures { result ≡ coded
        (ere_token edition.number a (drop (suc a) s.now)
        (ere_length false (drop (suc a) s.now))) }
{
    let Some(end) = program_scanner::ere_close(s, a + 1) else {
        return Token {
            start: a,
            kind: program_scanner::BAD,
            stop: a + 1,
        };
    };
    let mut table = [0u64; ere_table::TABLE_WORDS];
    if ere::compile(&s[a + 1..end], edition, &mut table) {
        return Token {
            start: a,
            kind: program_scanner::ERE,
            stop: end + 1,
        };
    }
    Token {
        start: a,
        kind: program_scanner::BAD_ERE,
        stop: end + 1,
    }
}

// Returns the token where the grammar allows an ERE: a `/` or `/=` is read again from its slash on.
pub fn as_operand(s: &[u8], t: Token, edition: Edition) -> Token
    requires { (t.kind < kind_count) × (t.start ≤ length s.now) }
    ensures { result ≡ coded (as_operand edition.number s.now (decoded t)) }
{
    if (t.kind != program_scanner::SLASH) & (t.kind != program_scanner::DIV_ASSIGN) {
        return t;
    }
    ere_at(s, t.start, edition)
}
