// The reader of statements: it calls itself for each inner level, and the levels left fall.
//
// Every function here has the same contract, `ReadingStatement` of program_parser/specs/Reading.antt, which says of a
// statement what `Reading` says of an expression: from instruction n on the section has the code of the definition's
// tree, and the answer is the token and the count after it, or the definition's outcome and place.
ghost use Rattle.std.specs.Prelude.{◌≡◌, ◌≤◌, ◌<◌};
ghost use Rattle.edition.specs.Limits.{nesting_depth};
ghost use Rattle.program_reader.specs.Statements.{body_at, if_at, while_at, statement_at, block_of};
ghost use Rattle.program_lexer.specs.Coded.{decoded, kind_count};
ghost use Rattle.program_parser.specs.Reading.{Ready, ReadingStatement};
ghost use Rattle.program_simple.specs.Statements.{place_of, body_of, followed_of};

use edition::Edition;
use program_lexer::Token;
use program_newlines::newlines;
use program_parser::{Read, kinds, read};
use program_simple::{conditions, simple};

// Reads the body of an `if`, an `else` or a `while`, from the token after the `)` or the `else` on.
#[cycle(block_body_if_else_repeat_statement)]
fn body(
    s: &[u8],
    section: &mut [u64],
    edition: Edition,
    t: Token,
    n: usize,
    levels: usize,
    in_main: bool,
) -> Read
    requires { Ready edition.number s.now t n × (levels ≤ nesting_depth) }
    ensures { ReadingStatement edition.number s.now (place_of (decoded t)) n section.old
        (body_at edition.number s.now (body_of edition.number s.now in_main levels)
        (decoded t)) result
        section.new }
{
    let first = newlines::past_newlines(s, t, edition);
    if levels == 0 {
        if kinds::starts_statement(first.kind, in_main, edition) {
            return read::too_deep(first);
        }
        return read::refuse(first);
    }
    statement(s, section, edition, first, n, levels - 1, in_main)
}

// Reads an `if`, from the token after it on.
#[cycle(block_body_if_else_repeat_statement)]
fn if_else(
    s: &[u8],
    section: &mut [u64],
    edition: Edition,
    u: Token,
    n: usize,
    levels: usize,
    in_main: bool,
) -> Read
    requires { Ready edition.number s.now u n × (levels ≤ nesting_depth) }
    ensures { ReadingStatement edition.number s.now (decoded u) n section.old
        (if_at edition.number s.now (body_of edition.number s.now in_main levels) levels
        (decoded u)) result
        section.new }
{
    let c = conditions::condition(s, section, edition, u, n, levels);
    if c.outcome != 0 {
        return c;
    }
    let j = c.count;
    let a = body(s, section, edition, c.token, j + 1, levels, in_main);
    if a.outcome != 0 {
        return a;
    }
    let i = a.count;
    let Some(w) = conditions::else_after(s, edition, a.token, a.form == read::ENDED) else {
        program_emitter::emit(section, j, program_words::JUMP_IF_FALSE, 1, i as u64);
        return a;
    };
    let b = body(s, section, edition, w, i + 1, levels, in_main);
    if b.outcome != 0 {
        return b;
    }
    program_emitter::emit(section, i, program_words::JUMP, 0, b.count as u64);
    program_emitter::emit(section, j, program_words::JUMP_IF_FALSE, 1, (i + 1) as u64);
    b
}

// Reads a `while`, from the token after it on.
#[cycle(block_body_if_else_repeat_statement)]
fn repeat(
    s: &[u8],
    section: &mut [u64],
    edition: Edition,
    u: Token,
    n: usize,
    levels: usize,
    in_main: bool,
) -> Read
    requires { Ready edition.number s.now u n × (levels ≤ nesting_depth) }
    ensures { ReadingStatement edition.number s.now (decoded u) n section.old
        (while_at edition.number s.now (body_of edition.number s.now in_main levels) levels
        (decoded u)) result
        section.new }
{
    let c = conditions::condition(s, section, edition, u, n, levels);
    if c.outcome != 0 {
        return c;
    }
    let j = c.count;
    let a = body(s, section, edition, c.token, j + 1, levels, in_main);
    if a.outcome != 0 {
        return a;
    }
    let count = program_emitter::emit(section, a.count, program_words::JUMP, 0, n as u64);
    program_emitter::emit(section, j, program_words::JUMP_IF_FALSE, 1, count as u64);
    read::ok(a.token, count, a.form)
}

// Reads a statement, at its first token.
#[cycle(block_body_if_else_repeat_statement)]
fn statement(
    s: &[u8],
    section: &mut [u64],
    edition: Edition,
    t: Token,
    n: usize,
    levels: usize,
    in_main: bool,
) -> Read
    requires { Ready edition.number s.now t n × (levels ≤ nesting_depth) }
    ensures { ReadingStatement edition.number s.now (decoded t) n section.old
        (statement_at edition.number s.now in_main levels (decoded t)) result section.new }
{
    let kind = t.kind;
    if kind == kinds::OPEN_BRACE {
        if levels == 0 {
            return read::too_deep(t);
        }
        return block(s, section, edition, t, n, levels - 1, in_main);
    }
    if kind == kinds::SEMICOLON {
        return read::ok(program_lexer::token_after(s, t, edition), n, read::ENDED);
    }
    if kind == kinds::IF {
        let u = program_lexer::token_after(s, t, edition);
        return if_else(s, section, edition, u, n, levels, in_main);
    }
    if kind == kinds::WHILE {
        let v = program_lexer::token_after(s, t, edition);
        return repeat(s, section, edition, v, n, levels, in_main);
    }
    if kind == kinds::PRINT {
        return simple::print(s, section, edition, t, n, levels);
    }
    if kind == kinds::EXIT {
        return simple::single(s, section, edition, t, n, program_words::EXIT);
    }
    if (kind == kinds::NEXT) & in_main {
        return simple::single(s, section, edition, t, n, program_words::NEXT);
    }
    simple::expression(s, section, edition, t, n, levels)
}

// Demands an end after a statement of a block, unless it is ended or a `}` follows, and goes past it.
fn followed(s: &[u8], edition: Edition, r: Read) -> Read
    requires { r.token.kind < kind_count }
    ensures { result ≡ followed_of edition.number s.now r }
{
    if (r.outcome != 0) | (r.form == read::ENDED) {
        return r;
    }
    let t = r.token;
    let kind = t.kind;
    if kinds::is_ender(kind) {
        return read::ok(
            program_lexer::token_after(s, t, edition),
            r.count,
            read::OTHER,
        );
    }
    if kind == kinds::CLOSE_BRACE {
        return r;
    }
    read::refuse(t)
}

// Reads a block, at its `{`.
#[cycle(block_body_if_else_repeat_statement)]
pub fn block(
    s: &[u8],
    section: &mut [u64],
    edition: Edition,
    t: Token,
    n: usize,
    levels: usize,
    in_main: bool,
) -> Read
    requires { Ready edition.number s.now t n × (levels ≤ nesting_depth) × (t.kind ≡ 36) }
    ensures { ReadingStatement edition.number s.now (decoded t) n section.old
        (block_of edition.number s.now (statement_at edition.number s.now in_main levels)
        (decoded t)) result
        section.new }
{
    let mut r = read::ok(program_lexer::token_after(s, t, edition), n, read::OTHER);
    loop {
        let u = r.token;
        let kind = u.kind;
        if kind == kinds::CLOSE_BRACE {
            return read::ok(
                program_lexer::token_after(s, u, edition),
                r.count,
                read::ENDED,
            );
        }
        if kind == kinds::NEWLINE {
            r = read::ok(
                program_lexer::token_after(s, u, edition),
                r.count,
                read::OTHER,
            );
            continue;
        }
        let first = newlines::past_newlines(s, u, edition);
        let a = statement(s, section, edition, first, r.count, levels, in_main);
        r = followed(s, edition, a);
        if r.outcome != 0 {
            return r;
        }
    }
}
