// The parts of an expression that hold no other expression.
ghost use Rattle.std.specs.Prelude.{◌≡◌, cond, [], ◌∷◌, ◌+◌, ◌≤◌, ◌<◌, eqb};
ghost use Rattle.std.proofs.lemmas.List.Edits.{sets};
ghost use Rattle.program_tokens.specs.Tokens.{token_after};
ghost use Rattle.program_reader.specs.Expressions.{matching as matching_of};
ghost use Rattle.program_lexer.specs.Coded.{decoded};
ghost use Rattle.program_words.specs.Words.{Fits, word, ere_words};
ghost use Rattle.program_parser.specs.Reading.{Ready, success};
ghost use Rattle.program_operations.specs.Parts.{Suffixed, Continues};

use edition::Edition;
use program_lexer::Token;
use program_parser::{Read, kinds, read};

// A call of which arguments are left: its code, the shapes of those that are left, as in `calls`, the place of an ERE
// among those before, and its `(`.
#[derive(Clone, Copy)]
pub struct PendingCall {
    pub op: u64,
    pub shapes: u64,
    pub operand: u64,
    pub opener: Token,
}

// Reads a token that is an operand by itself, as one instruction.
pub fn leaf(
    s: &[u8],
    section: &mut [u64],
    edition: Edition,
    t: Token,
    n: usize,
    depth: u64,
    op: u64,
    form: u64,
) -> Read
    requires { Ready edition.number s.now t n × (depth ≤ 60000) × (op < 256) }
    ensures { (result ≡ success (token_after edition.number s.now (decoded t)) (n + 1) form) ×
        (section.new ≡ sets section.old n (word op depth t.start ∷ [])) }
{
    let count = program_emitter::emit(section, n, op, depth, t.start as u64);
    read::ok(program_lexer::token_after(s, t, edition), count, form)
}

// Writes an instruction after what was read.
pub fn suffix(section: &mut [u64], r: Read, op: u64, depth: u64, operand: u64, form: u64) -> Read
    requires { (r.count < 1048576) × Fits op depth operand 0 }
    ensures { Suffixed r op depth operand form section.old result section.new }
{
    if r.outcome != 0 {
        return r;
    }
    let count = program_emitter::emit(section, r.count, op, depth, operand);
    read::ok(r.token, count, form)
}

// Returns what a name is: one that can be assigned, or not.
pub fn name_form(kind: u64) -> u64
    ensures { result ≡ cond (eqb kind 9) 0 1 }
{
    if kind == kinds::FIXED_VARIABLE {
        return read::OTHER;
    }
    read::NAME
}

// Reads an ERE alone.
pub fn ere(s: &[u8], section: &mut [u64], edition: Edition, t: Token, n: usize, depth: u64) -> Read
    requires { Ready edition.number s.now t n × (depth ≤ 60000) }
    ensures { (result ≡ success (token_after edition.number s.now (decoded t)) (n + 3) 0) ×
        (section.new ≡ sets section.old n (ere_words depth t.start)) }
{
    let count = program_emitter::emit_ere(section, n, depth, t.start);
    read::ok(
        program_lexer::token_after(s, t, edition),
        count,
        read::OTHER,
    )
}

// Reads `~` or `!~` and its ERE, if one follows what was read.
pub fn matching(s: &[u8], section: &mut [u64], edition: Edition, r: Read, depth: u64) -> Read
    requires { Ready edition.number s.now r.token r.count × (depth ≤ 60000) }
    ensures { Continues edition.number s.now depth (matching_of edition.number s.now)
        r section.old result section.new }
{
    let t = r.token;
    let kind = t.kind;
    if (kind != kinds::TILDE) & (kind != kinds::NO_MATCH) {
        return r;
    }
    let u = read::operand_after(s, t, edition);
    let found = u.kind;
    if found != kinds::ERE {
        return read::refuse(u);
    }
    let n = program_emitter::emit(
        section,
        r.count,
        program_words::MATCHES,
        depth + 1,
        u.start as u64,
    );
    let next = program_lexer::token_after(s, u, edition);
    if kind == kinds::TILDE {
        return read::ok(next, n, read::OTHER);
    }
    let count = program_emitter::emit(section, n, program_words::NOT, depth + 1, 0);
    read::ok(next, count, read::OTHER)
}
