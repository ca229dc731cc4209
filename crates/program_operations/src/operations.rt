// Operators between two operands, and what is between the arguments of a call.
ghost use Rattle.std.specs.Prelude.{◌≡◌, cond, ◌≤◌, ◌<◌};
ghost use Rattle.program_tokens.specs.Tokens.{token_after};
ghost use Rattle.program_reader.specs.Read.{operand_after, past_newlines};
ghost use Rattle.program_reader.specs.Expressions.{right_of};
ghost use Rattle.program_lexer.specs.Coded.{coded, decoded, kind_count};
ghost use Rattle.program_parser.specs.Reading.{Good};
ghost use Rattle.program_operations.specs.Parts.{applied, applied_to};

use edition::Edition;
use program_lexer::Token;
use program_newlines::newlines;
use program_operators::operators;
use program_parser::{Read, kinds, read};

// Returns the first token after t and newlines.
fn line_after(s: &[u8], t: Token, edition: Edition) -> Token
    requires { Good edition.number s.now 0 (decoded t) × (t.kind < kind_count) }
    ensures { result ≡ coded (past_newlines edition.number s.now
        (token_after edition.number s.now (decoded t))) }
{
    newlines::past_newlines(s, program_lexer::token_after(s, t, edition), edition)
}

// Returns the token where an argument starts: newlines may follow the `,` before it, and not the `(`.
pub fn argument_after(s: &[u8], t: Token, first: bool, edition: Edition) -> Token
    requires { Good edition.number s.now 0 (decoded t) × (t.kind < kind_count) }
    ensures { result ≡ coded (cond first (operand_after edition.number s.now (decoded t))
        (past_newlines edition.number s.now (token_after edition.number s.now
        (decoded t)))) }
{
    if first {
        return read::operand_after(s, t, edition);
    }
    line_after(s, t, edition)
}

// Returns the token where the right operand starts.
pub fn right_of(s: &[u8], t: Token, tier: u64, edition: Edition) -> Token
    requires { Good edition.number s.now 0 (decoded t) × (t.kind < kind_count) }
    ensures { result ≡ coded (right_of edition.number s.now tier (decoded t)) }
{
    if tier == operators::CONCATENATIONS {
        return t;
    }
    if operators::CONJUNCTIONS <= tier {
        return line_after(s, t, edition);
    }
    read::operand_after(s, t, edition)
}

// Writes an operator's instructions, but its operands'; j is the first after the left operand, r what follows the
// right one.
pub fn apply(section: &mut [u64], r: Read, kind: u64, depth: u64, j: usize) -> Read
    requires { (r.count < 1000000) × (j < 1000000) × (depth ≤ 60000) × (kind < kind_count) }
    ensures { (result ≡ applied r kind) × (section.new ≡ applied_to section.old r.count kind
        depth j) }
{
    let n = r.count;
    let t = r.token;
    if kind == kinds::AND_AND {
        let count = program_emitter::emit_both(section, n, depth, j);
        return read::ok(t, count, read::OTHER);
    }
    if kind == kinds::OR_OR {
        let count = program_emitter::emit_either(section, n, depth, j);
        return read::ok(t, count, read::OTHER);
    }
    let op = operators::operator_code(kind);
    let count = program_emitter::emit(section, n, op, depth + 2, 0);
    read::ok(t, count, read::OTHER)
}
