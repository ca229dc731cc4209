// Tokens past newlines and semicolons.
ghost use Rattle.std.specs.Prelude.{◌≡◌, false, ◌<◌};
ghost use Rattle.program_tokens.specs.Kinds.{among};
ghost use Rattle.program_reader.specs.Read.{past as past_of, past_newlines};
ghost use Rattle.program_lexer.specs.Coded.{coded, decoded, kind_of, kind_count};
ghost use Rattle.program_parser.specs.Reading.{Good};
ghost use Rattle.program_newlines.specs.Passing.{passing};

use edition::Edition;
use program_lexer::Token;
use program_parser::kinds;

// Tells whether a token of this kind is passed: a newline, and `;` where that holds.
fn is_passed(kind: u64, semicolons: bool) -> bool
    requires { kind < kind_count }
    ensures { result ≡ among (passing semicolons) (kind_of kind) }
{
    (kind == kinds::NEWLINE) | (semicolons & (kind == kinds::SEMICOLON))
}

// Returns the first token, of t and those after it, that is no newline and, where `semicolons` holds, no `;`.
pub fn past(s: &[u8], t: Token, semicolons: bool, edition: Edition) -> Token
    requires { Good edition.number s.now 0 (decoded t) × (t.kind < kind_count) }
    ensures { result ≡ coded (past_of edition.number s.now (passing semicolons) (decoded t)) }
{
    let mut u = t;
    while is_passed(u.kind, semicolons) {
        u = program_lexer::token_after(s, u, edition);
    }
    u
}

// Returns the first token after newlines, where the grammar allows an operand or a statement.
pub fn past_newlines(s: &[u8], t: Token, edition: Edition) -> Token
    requires { Good edition.number s.now 0 (decoded t) × (t.kind < kind_count) }
    ensures { result ≡ coded (past_newlines edition.number s.now (decoded t)) }
{
    let u = past(s, t, false, edition);
    program_lexer::as_operand(s, u, edition)
}
