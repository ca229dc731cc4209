// The statements that hold no statement.
ghost use Rattle.std.specs.Prelude.{◌≡◌, true, false, [], ◌∷◌, ◌+◌, ◌≤◌, ◌<◌, length};
ghost use Rattle.std.proofs.lemmas.List.Edits.{sets};
ghost use Rattle.edition.specs.Limits.{nesting_depth};
ghost use Rattle.program_tokens.specs.Tokens.{token_after};
ghost use Rattle.program_tree.specs.Tree.{expression as expression-of, print as print-of};
ghost use Rattle.program_reader.specs.Read.{map, operand_after};
ghost use Rattle.program_reader.specs.Expressions.{expression_at};
ghost use Rattle.program_reader.specs.Statements.{listed, print_at};
ghost use Rattle.program_lexer.specs.Coded.{decoded};
ghost use Rattle.program_words.specs.Words.{word};
ghost use Rattle.program_parser.specs.Reading.{success, Ready, ReadingStatement};

use edition::Edition;
use program_lexer::Token;
use program_newlines::newlines;
use program_operators::operators;
use program_parser::{Read, kinds, read};

// Writes a statement that is one instruction and names nothing, and goes past its word.
pub fn single(s: &[u8], section: &mut [u64], edition: Edition, t: Token, n: usize, op: u64) -> Read
    requires { Ready edition.number s.now t n × (op < 256) }
    ensures { (result ≡ success (token_after edition.number s.now (decoded t)) (n + 1) 0)
        × (section.new ≡ sets section.old n (word op 0 0 ∷ [])) }
{
    let count = program_emitter::emit(section, n, op, 0, 0);
    read::ok(
        program_lexer::token_after(s, t, edition),
        count,
        read::OTHER,
    )
}

// Reads an expression statement, and drops its value.
pub fn expression(
    s: &[u8],
    section: &mut [u64],
    edition: Edition,
    t: Token,
    n: usize,
    levels: usize,
) -> Read
    requires { Ready edition.number s.now t n × (levels ≤ nesting_depth) }
    ensures { ReadingStatement edition.number s.now (decoded t) n section.old
        (map expression-of (expression_at edition.number s.now levels false (decoded t))) result
        section.new }
{
    let r = program_expressions::tier(
        s,
        section,
        edition,
        t,
        n,
        0,
        levels,
        false,
        operators::EXPRESSIONS,
    );
    if r.outcome != 0 {
        return r;
    }
    let count = program_emitter::emit(section, r.count, program_words::DROP, 1, 0);
    read::ok(r.token, count, read::OTHER)
}

// Reads a print list from its first token on, and prints it.
fn print_list(
    s: &[u8],
    section: &mut [u64],
    edition: Edition,
    u: Token,
    n: usize,
    levels: usize,
) -> Read
    requires { Ready edition.number s.now u n × (levels ≤ nesting_depth) }
    ensures { ReadingStatement edition.number s.now (decoded u) n section.old
        (map print-of (listed edition.number s.now levels (length s.now)
        (map (λ e. e ∷ []) (expression_at edition.number s.now levels true (decoded u))))) result
        section.new }
{
    let mut first = u;
    let mut count = n;
    let mut d = 0;
    loop {
        let r = program_expressions::tier(
            s,
            section,
            edition,
            first,
            count,
            d,
            levels,
            true,
            operators::EXPRESSIONS,
        );
        if r.outcome != 0 {
            return r;
        }
        d += 1;
        count = r.count;
        let t = r.token;
        if t.kind != kinds::COMMA {
            let end = program_emitter::emit(section, count, program_words::PRINT, d, d);
            return read::ok(t, end, read::OTHER);
        }
        first = newlines::past_newlines(s, program_lexer::token_after(s, t, edition), edition);
    }
}

// Reads `print`, at its word, with its list.
pub fn print(
    s: &[u8],
    section: &mut [u64],
    edition: Edition,
    t: Token,
    n: usize,
    levels: usize,
) -> Read
    requires { Ready edition.number s.now t n × (levels ≤ nesting_depth) × (t.kind ≡ 16) }
    ensures { ReadingStatement edition.number s.now (decoded t) n section.old
        (print_at edition.number s.now levels
        (operand_after edition.number s.now (decoded t))) result
        section.new }
{
    let u = read::operand_after(s, t, edition);
    if kinds::starts_expression(u.kind, edition) {
        return print_list(s, section, edition, u, n, levels);
    }
    read::ok(u, program_emitter::emit_print(section, n), read::OTHER)
}
