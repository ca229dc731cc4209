// What a reader answers, the refusals, and the tokens after a token.
ghost use Rattle.std.specs.Prelude.{◌≡◌, ◌<◌};
ghost use Rattle.edition.specs.Outcomes.{size_passed};
ghost use Rattle.program_reader.specs.Read.{operand_after};
ghost use Rattle.program_lexer.specs.Coded.{coded, decoded, kind_count};
ghost use Rattle.program_parser.specs.Reading.{answered, refusal, refused_by, closed_of, Good};

use crate::kinds;
use edition::{Edition, Outcome};
use program_lexer::Token;

// What the tree that was read exactly is, where it matters: a name that can be assigned, a `$` form; of a statement,
// one that nothing need end.
pub const OTHER: u64 = 0;

pub const NAME: u64 = 1;

pub const FIELD: u64 = 2;

pub const ENDED: u64 = 3;

// What a reader answers: the first token after what it read, how many instructions the section has then, and what the
// tree is; or an outcome, and a token that starts at its place.
#[derive(Drop)]
pub struct Read {
    pub token: Token,
    pub count: usize,
    pub outcome: u64,
    pub form: u64,
}

// Answers what was read.
pub fn ok(token: Token, count: usize, form: u64) -> Read
    ensures { result ≡ answered token count form }
{
    Read {
        token,
        count,
        outcome: 0,
        form,
    }
}

// Answers an outcome and its place.
fn no(outcome: u64, place: usize) -> Read
    ensures { result ≡ refusal outcome place }
{
    let token = Token {
        start: place,
        kind: 0,
        stop: 0,
    };
    Read {
        token,
        count: 0,
        outcome,
        form: OTHER,
    }
}

// Refuses a token that can't continue any program: 3 before 5 before 4.
pub fn refuse(t: Token) -> Read
    requires { t.kind < kind_count }
    ensures { result ≡ refusal (refused_by (decoded t)) t.start }
{
    let kind = t.kind;
    if kind == kinds::BAD {
        return no(Outcome::BAD_TOKEN, t.start);
    }
    if kind == kinds::BAD_ERE {
        return no(Outcome::BAD_ERE, t.start);
    }
    no(Outcome::MISPLACED_TOKEN, t.start)
}

// Refuses a token that opens a level too many.
pub fn too_deep(t: Token) -> Read
    ensures { result ≡ refusal size_passed t.start }
{
    no(Outcome::SIZE_PASSED, t.start)
}

// Returns the token after t, where the grammar allows an operand.
pub fn operand_after(s: &[u8], t: Token, edition: Edition) -> Token
    requires { Good edition.number s.now 0 (decoded t) }
    ensures { result ≡ coded (operand_after edition.number s.now (decoded t)) }
{
    let u = program_lexer::token_after(s, t, edition);
    program_lexer::as_operand(s, u, edition)
}

// Demands a `)` after what was read, and goes past it.
pub fn closed(s: &[u8], r: Read, edition: Edition) -> Read
    requires { r.token.kind < kind_count }
    ensures { result ≡ closed_of edition.number s.now r }
{
    if r.outcome != 0 {
        return r;
    }
    let t = r.token;
    let kind = t.kind;
    if kind != kinds::CLOSE_PAREN {
        return refuse(t);
    }
    ok(program_lexer::token_after(s, t, edition), r.count, OTHER)
}
