// The condition of an `if` or a `while`, and the `else` of an `if`.
ghost use Rattle.std.specs.Prelude.{◌≡◌, false, ◌≤◌, ◌<◌, length};
ghost use Rattle.edition.specs.Limits.{nesting_depth};
ghost use Rattle.program_reader.specs.Statements.{condition_at, else_after};
ghost use Rattle.program_lexer.specs.Coded.{decoded, kind_count};
ghost use Rattle.program_parser.specs.Reading.{Good, Ready};
ghost use Rattle.program_simple.specs.Statements.{ReadingCondition, else_of};

use edition::Edition;
use program_lexer::Token;
use program_operators::operators;
use program_parser::{Read, kinds, read};

// Reads a condition in parentheses, at its `(`.
pub fn condition(
    s: &[u8],
    section: &mut [u64],
    edition: Edition,
    u: Token,
    n: usize,
    levels: usize,
) -> Read
    requires { Ready edition.number s.now u n × (levels ≤ nesting_depth) }
    ensures { ReadingCondition edition.number s.now (decoded u) n section.old
        (condition_at edition.number s.now levels (decoded u)) result section.new }
{
    if u.kind != kinds::OPEN_PAREN {
        return read::refuse(u);
    }
    let first = read::operand_after(s, u, edition);
    let r = program_expressions::inside(
        s,
        section,
        edition,
        u,
        first,
        n,
        0,
        levels,
        false,
        operators::EXPRESSIONS,
    );
    read::closed(s, r, edition)
}

// Returns the token after the `else` that follows a then-part, if there is one; t is the first token after that part.
// Where the then-part still needs an end (`free` is false), a newline or a `;` must be before the `else`.
pub fn else_after(s: &[u8], edition: Edition, t: Token, free: bool) -> Option<Token>
    requires { Good edition.number s.now 0 (decoded t) × (t.kind < kind_count) }
    ensures { result ≡ else_of (else_after edition.number s.now (length s.now) free false
        (decoded t)) }
{
    let mut u = t;
    let mut ended = free;
    let mut semicolons = false;
    loop {
        let kind = u.kind;
        let after = program_lexer::token_after(s, u, edition);
        if (kind == kinds::ELSE) & ended {
            return Some(after);
        }
        if (kind != kinds::NEWLINE) & ((kind != kinds::SEMICOLON) | semicolons) {
            return None;
        }
        semicolons = semicolons | (kind == kinds::SEMICOLON);
        ended = true;
        u = after;
    }
}
