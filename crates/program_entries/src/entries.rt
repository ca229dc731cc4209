// What an operand of a word names: a constant, a variable or an ERE, as an entry of a table.
ghost use Rattle.std.specs.Prelude.{◌≡◌, true, false, ◌≤◌, ◌<◌, length, eqb};
ghost use Rattle.edition.specs.Limits.{filter_text, first_edition};
ghost use Rattle.image_format.specs.Image.{text};
ghost use Rattle.program_lexer.specs.Coded.{coded, decoded, kind_count};
ghost use Rattle.program_tokens.specs.Tokens.{spelling};
ghost use Rattle.program_parser.specs.Meaning.{constant_at, name_at, ere_at};
ghost use Rattle.program_names.specs.Walk.{spanned};
ghost use Rattle.program_entries.specs.Named.{
  is_named,
  named,
  operand_bound,
  variable_of,
  special_number,
  IsSpecial,
  string_from,
  Stands,
  WordToken,
};

use edition::Edition;
use program_lexer::Token;
use program_parser::kinds;
use program_tables::Entry;

// What the entries of a table are.
pub const CONSTANTS: u64 = 0;

pub const VARIABLES: u64 = 1;

pub const ERES: u64 = 2;

// Tells whether an instruction with this code names an entry of a table.
pub fn is_named(what: u64, op: u64) -> bool
    ensures { result ≡ is_named what op }
{
    match what {
        CONSTANTS => op == program_words::CONSTANT,
        VARIABLES => (op == program_words::GET) | (op == program_words::SET),
        ERES => (op == program_words::MATCHES) | (op == program_words::MATCH),
        _ => false,
    }
}

// Tells whether the texts of a table are STRINGs, which have escapes.
pub fn has_escapes(what: u64) -> bool
    ensures { result ≡ eqb what 0 }
{
    match what {
        CONSTANTS => true,
        VARIABLES => false,
        ERES => false,
        _ => false,
    }
}

// Returns the text of a STRING from the place after its first quote on; it is empty where no STRING is closed.
fn string_entry(s: &[u8], at: usize) -> Entry
    requires { (0 < at) × (at ≤ filter_text) }
    ensures { Stands s.now true (text (string_from s.now at)) result }
{
    let Some(end) = program_scanner::string_close(s, at) else {
        return Entry {
            value: at,
            stop: at,
        };
    };
    Entry {
        value: at,
        stop: end - 1,
    }
}

// Returns the constant of an operand: a number that the text doesn't have, or the token at a place.
fn constant_at(s: &[u8], x: usize, edition: Edition) -> Entry
    requires { x < operand_bound }
    ensures { Stands s.now true (constant_at edition.number s.now x) result }
{
    if Edition::FILTER_TEXT <= x {
        return Entry {
            value: x - Edition::FILTER_TEXT,
            stop: 0,
        };
    }
    let t = program_lexer::token_of(s, x, edition);
    if t.kind == kinds::NUMBER {
        let digits = numeral::read_digits(&s[x..]);
        return Entry {
            value: digits.value as usize,
            stop: 0,
        };
    }
    string_entry(s, x + 1)
}

// Returns the number of the special variable whose name has n bytes from place a on.
fn special(s: &[u8], a: usize, n: usize) -> usize
    requires { IsSpecial s.now a n }
    ensures { result ≡ special_number s.now a n }
{
    let second = s[a + 1];
    match n {
        2 => {
            if s[a] == b'F' {
                return 2;
            }
            if second == b'F' {
                return 0;
            }
            1
        }
        3 => {
            if second == b'F' {
                return 3;
            }
            4
        }
        6 => 5,
        _ => 6,
    }
}

// Returns the entry of a name: a special variable's number, or the text of a user's name.
pub fn name_entry(s: &[u8], t: Token) -> Entry
    requires { WordToken s.now (decoded t) × (length s.now ≤ filter_text) }
    ensures { Stands s.now false (variable_of (spelling s.now (decoded t))) result }
{
    if (t.kind == kinds::VARIABLE) | (t.kind == kinds::FIXED_VARIABLE) {
        return Entry {
            value: special(s, t.start, t.stop - t.start),
            stop: 0,
        };
    }
    Entry {
        value: t.start,
        stop: t.stop,
    }
}

// Returns the entry of the name at a place; past the text's end it is empty.
fn variable_at(s: &[u8], x: usize, edition: Edition) -> Entry
    requires { (length s.now ≤ filter_text) × (x < operand_bound) × (first_edition ≤ edition.number) }
    ensures { Stands s.now false (variable_of (name_at edition.number s.now x)) result }
{
    if s.len() <= x {
        return Entry {
            value: x + 1,
            stop: x + 1,
        };
    }
    name_entry(s, program_lexer::token_of(s, x, edition))
}

// Returns a token where a `/` starts an ERE: a `/` or `/=` up to the slash that closes it. The ERE was judged before.
pub fn as_ere(s: &[u8], t: Token) -> Token
    requires { (t.kind < kind_count) × (t.start < operand_bound) }
    ensures { result ≡ coded (spanned s.now (decoded t)) }
{
    if (t.kind != kinds::SLASH) & (t.kind != program_scanner::DIV_ASSIGN) {
        return t;
    }
    let Some(end) = program_scanner::ere_close(s, t.start + 1) else {
        return t;
    };
    Token {
        start: t.start,
        kind: kinds::ERE,
        stop: end + 1,
    }
}

// Returns the entry of the ERE whose first slash is at a place.
fn ere_at(s: &[u8], x: usize, edition: Edition) -> Entry
    requires { x < operand_bound }
    ensures { Stands s.now false (text (ere_at edition.number s.now x)) result }
{
    let t = as_ere(s, program_lexer::token_of(s, x, edition));
    if t.stop < t.start + 2 {
        return Entry {
            value: x + 1,
            stop: x + 1,
        };
    }
    Entry {
        value: x + 1,
        stop: t.stop - 1,
    }
}

// Returns the entry that an operand names.
pub fn entry_at(s: &[u8], x: usize, what: u64, edition: Edition) -> Entry
    requires { (length s.now ≤ filter_text) × (x < operand_bound) × (first_edition ≤ edition.number) }
    ensures { Stands s.now (eqb what 0) (named edition.number s.now what x) result }
{
    match what {
        CONSTANTS => constant_at(s, x, edition),
        VARIABLES => variable_at(s, x, edition),
        _ => ere_at(s, x, edition),
    }
}
