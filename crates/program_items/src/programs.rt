// The reader of items and of whole programs.
//
// What `Reading` of program_parser/specs/Reading.antt says of an expression, the contracts here say of items, of each
// section by itself: from its instruction n on a section has the code of those parts of the definition's tree that go
// there, and the others are as they were.
ghost use Rattle.std.specs.Prelude.{◌≡◌, true, false, ◌≤◌, length};
ghost use Rattle.edition.specs.Limits.{filter_text, nesting_depth};
ghost use Rattle.program_reader.specs.Expressions.{expression_at};
ghost use Rattle.program_reader.specs.Programs.{action_at, after_pattern, item_at, read_program};
ghost use Rattle.program_lexer.specs.Coded.{decoded};
ghost use Rattle.program_parser.specs.Reading.{Ready, ReadingStatement};
ghost use Rattle.program_items.specs.Programs.{each, ReadingProgram};
ghost use Rattle.program_items.specs.Items.{ReadingMain, ReadingItem, Onward};

use edition::Edition;
use program_lexer::Token;
use program_newlines::newlines;
use program_operators::operators;
use program_parser::{Read, kinds, read};

// What was read of a program: the first token after it and how many instructions each section has; or an outcome, and a
// token that starts at its place.
#[derive(Drop)]
pub struct Program {
    pub token: Token,
    pub outcome: u64,
    pub begin: usize,
    pub main: usize,
    pub end: usize,
}

// Reads an action, at its `{`, which opens the first level.
fn action(
    s: &[u8],
    section: &mut [u64],
    edition: Edition,
    t: Token,
    n: usize,
    in_main: bool,
) -> Read
    requires { Ready edition.number s.now t n }
    ensures { ReadingStatement edition.number s.now (decoded t) n section.old
        (action_at edition.number s.now in_main (decoded t)) result section.new }
{
    if t.kind != kinds::OPEN_BRACE {
        return read::refuse(t);
    }
    program_statements::block(s, section, edition, t, n, Edition::NESTING - 1, in_main)
}

// Reads a pattern, from its first token on, and its action; without one the action prints.
fn guarded(s: &[u8], section: &mut [u64], edition: Edition, t: Token, n: usize) -> Read
    requires { Ready edition.number s.now t n }
    ensures { ReadingMain edition.number s.now (decoded t) n section.old
        (after_pattern edition.number s.now
        (expression_at edition.number s.now nesting_depth false (decoded t)))
        result section.new }
{
    let e = program_expressions::tier(
        s,
        section,
        edition,
        t,
        n,
        0,
        Edition::NESTING,
        false,
        operators::EXPRESSIONS,
    );
    if e.outcome != 0 {
        return e;
    }
    let u = e.token;
    let kind = u.kind;
    let j = e.count;
    if kinds::is_ender(kind) | (kind == kinds::TEXT_END) {
        let count = program_emitter::emit_print(section, j + 1);
        program_emitter::emit(section, j, program_words::JUMP_IF_FALSE, 1, count as u64);
        return read::ok(u, count, read::OTHER);
    }
    let r = action(s, section, edition, u, j + 1, true);
    if r.outcome != 0 {
        return r;
    }
    program_emitter::emit(section, j, program_words::JUMP_IF_FALSE, 1, r.count as u64);
    r
}

// Reads an item at its first token, which is not `BEGIN` or `END`.
fn main_item(s: &[u8], section: &mut [u64], edition: Edition, t: Token, n: usize) -> Read
    requires { Ready edition.number s.now t n × (t.kind ≡ 11 → ⊥) × (t.kind ≡ 12 → ⊥) }
    ensures { ReadingMain edition.number s.now (decoded t) n section.old
        (item_at edition.number s.now (decoded t)) result section.new }
{
    if t.kind == kinds::OPEN_BRACE {
        return action(s, section, edition, t, n, true);
    }
    guarded(s, section, edition, t, n)
}

// Reads an item, at its first token.
fn item(
    s: &[u8],
    begin: &mut [u64],
    main: &mut [u64],
    end: &mut [u64],
    edition: Edition,
    p: Program,
) -> Program
    requires { Onward edition.number s.now p }
    ensures { ReadingItem edition.number s.now (decoded p.token) p
        (each begin.old main.old end.old)
        (item_at edition.number s.now (decoded p.token)) result
        (each begin.new main.new end.new) }
{
    let t = p.token;
    let kind = t.kind;
    if kind == kinds::BEGIN {
        let u = program_lexer::token_after(s, t, edition);
        let b = action(s, begin, edition, u, p.begin, false);
        let after_begin = b.token;
        return Program {
            token: after_begin,
            outcome: b.outcome,
            begin: b.count,
            main: p.main,
            end: p.end,
        };
    }
    if kind == kinds::END {
        let v = program_lexer::token_after(s, t, edition);
        let e = action(s, end, edition, v, p.end, false);
        let after_end = e.token;
        return Program {
            token: after_end,
            outcome: e.outcome,
            begin: p.begin,
            main: p.main,
            end: e.count,
        };
    }
    let r = main_item(s, main, edition, t, p.main);
    let token = r.token;
    Program {
        token,
        outcome: r.outcome,
        begin: p.begin,
        main: r.count,
        end: p.end,
    }
}

// Reads a whole text: writes the code of each section, its last instruction included; or answers the outcome and the
// place of its refusal.
pub fn read_program(
    s: &[u8],
    begin: &mut [u64],
    main: &mut [u64],
    end: &mut [u64],
    edition: Edition,
) -> Program
    requires { length s.now ≤ filter_text }
    ensures { ReadingProgram edition.number s.now
        (each begin.old main.old end.old)
        (read_program edition.number s.now) result
        (each begin.new main.new end.new) }
{
    let first = newlines::past_newlines(s, program_lexer::token_at(s, 0, edition), edition);
    let mut p = Program {
        token: first,
        outcome: 0,
        begin: 0,
        main: 0,
        end: 0,
    };
    loop {
        let t = p.token;
        if t.kind == kinds::TEXT_END {
            let b = program_emitter::emit(begin, p.begin, program_words::SECTION_END, 0, 0);
            let m = program_emitter::emit(main, p.main, program_words::SECTION_END, 0, 0);
            let e = program_emitter::emit(end, p.end, program_words::SECTION_END, 0, 0);
            return Program {
                token: t,
                outcome: 0,
                begin: b,
                main: m,
                end: e,
            };
        }
        let q = item(s, begin, main, end, edition, p);
        if q.outcome != 0 {
            return q;
        }
        let u = newlines::past(s, q.token, true, edition);
        let next = program_lexer::as_operand(s, u, edition);
        p = Program {
            token: next,
            outcome: 0,
            begin: q.begin,
            main: q.main,
            end: q.end,
        };
    }
}
