// The variables by first appearance in the text: a walk over the tokens of a text that is a program.
ghost use Rattle.std.specs.Prelude.{◌≡◌, true, false, ◌*◌, ◌≤◌, ◌<◌, length};
ghost use Rattle.edition.specs.Limits.{filter_text, first_edition};
ghost use Rattle.program_lexer.specs.Coded.{coded, decoded, kind_of, kind_count};
ghost use Rattle.program_tokens.specs.Kinds.{user_name};
ghost use Rattle.program_tokens.specs.Tokens.{is};
ghost use Rattle.program_names.specs.Walk.{open_after, ere_follows, next_in};
ghost use Rattle.program_tables.specs.Tables.{AllInside};
ghost use Rattle.program_entries.specs.Named.{WordToken};
ghost use Rattle.program_entries.specs.Variables.{specials_in, Held, Enters, variables_of, Walked};

use crate::entries;
use edition::Edition;
use program_lexer::Token;
use program_parser::kinds;

// How many special variables there are.
pub const SPECIALS: usize = 7;

// Returns how many parentheses of a condition are open after a token, and 1 more: 1 is after `if` or `while`; outside
// conditions it is 0.
fn open_after(kind: u64, parens: u64) -> u64
    requires { (kind < kind_count) × (parens ≤ filter_text) }
    ensures { result ≡ open_after (kind_of kind) parens }
{
    match kind {
        kinds::IF => 1,
        kinds::WHILE => 1,
        kinds::OPEN_PAREN => {
            if parens == 0 {
                return 0;
            }
            parens + 1
        }
        kinds::CLOSE_PAREN => {
            if parens <= 2 {
                return 0;
            }
            parens - 1
        }
        _ => parens,
    }
}

// Tells whether a `/` after a token starts an ERE: not after an operand, but after the `)` of a condition.
fn ere_follows(kind: u64, parens: u64) -> bool
    requires { kind < kind_count }
    ensures { result ≡ ere_follows (kind_of kind) parens }
{
    match kind {
        kinds::NUMBER => false,
        kinds::STRING => false,
        kinds::ERE => false,
        kinds::USER_NAME => false,
        kinds::VARIABLE => false,
        kinds::FIXED_VARIABLE => false,
        kinds::CLOSE_PAREN => parens == 2,
        _ => true,
    }
}

// Returns the token after t.
fn next_token(s: &[u8], t: Token, parens: u64, edition: Edition) -> Token
    requires { (t.kind < kind_count) × Walked edition.number s.now (decoded t)
        × (length s.now ≤ filter_text) }
    ensures { result ≡ coded (next_in edition.number s.now (decoded t) parens) }
{
    let u = program_lexer::token_after(s, t, edition);
    if ere_follows(t.kind, parens) {
        return entries::as_ere(s, u);
    }
    u
}

// Stores the special variables.
fn enter_specials(table: &mut [u64])
    requires { 14 ≤ length table.old }
    ensures { table.new ≡ specials_in table.old }
{
    for k in 0..SPECIALS {
        table[2 * k] = k as u64;
        table[2 * k + 1] = 0;
    }
}

// Enters a token's name, if it is a user's, into a table of n, if it has room; returns how many there are then, at most
// 1 more than there is room for.
fn enter_name(s: &[u8], table: &mut [u64], n: usize, t: Token) -> usize
    requires { (2 * n ≤ length table.old → AllInside s.now table.old n)
        × (is user_name (decoded t) ≡ true → WordToken s.now (decoded t)) × (length s.now ≤ filter_text) }
    ensures { Enters s.now (decoded t) table.old n table.new result }
{
    if (t.kind != kinds::USER_NAME) | (table.len() / 2 < n) {
        return n;
    }
    let k = program_tables::enter(s, table, n, entries::name_entry(s, t), false);
    if k < n {
        return n;
    }
    n + 1
}

// Stores the variables, the special ones first; returns how many there are, or 1 more than there is room for.
pub fn enter_variables(s: &[u8], table: &mut [u64], edition: Edition) -> usize
    requires { (length s.now ≤ filter_text) × (14 ≤ length table.old) × (first_edition ≤ edition.number) }
    ensures { Held s.now false table.new result
        (variables_of edition.number s.now) }
{
    enter_specials(table);
    let mut t = entries::as_ere(s, program_lexer::token_at(s, 0, edition));
    let mut parens: u64 = 0;
    let mut n = SPECIALS;
    while t.kind != kinds::TEXT_END {
        n = enter_name(s, table, n, t);
        let u = next_token(s, t, parens, edition);
        parens = open_after(t.kind, parens);
        t = u;
    }
    n
}
