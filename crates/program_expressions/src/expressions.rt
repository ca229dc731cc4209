// The reader of expressions: recursive descent by tiers of operators; it calls itself for each inner level, and the
// levels left fall.
//
// Every function here has the same contract, `Reading` of program_parser/specs/Reading.antt. Of the definition's tree,
// read from the same token: the section has from instruction n on the tree's code at this depth, as `compile` of
// program_code gives it, as far as there is room, and is as it was elsewhere; the answer is the token after the tree,
// the count of instructions after it, and what the tree is. Where the definition refuses, the answer is its outcome and
// place. No text has more than 8 instructions for each of its bytes.
ghost use Rattle.std.specs.Prelude.{◌≡◌, ◌+◌, ◌-◌, ◌*◌, ◌/◌, ◌≤◌, ◌<◌};
ghost use Rattle.program_tree.specs.Functions.{function_of};
ghost use Rattle.program_reader.specs.Operators.{expressions};
ghost use Rattle.program_reader.specs.Expressions.{turns, calling, primary as primaryOf, field_form, prefix_form, assignment as assignmentOf, more as moreOf, tier as tier_of, inside as inside_of};
ghost use Rattle.program_lexer.specs.Coded.{decoded, kind_of};
ghost use Rattle.program_parser.specs.Reading.{Ready, Reading};
ghost use Rattle.program_operations.specs.Parts.{Continues, ContinuesFrom, pending, Calls, arguments_left};

use edition::Edition;
use program_lexer::Token;
use program_operations::parts::PendingCall;
use program_operations::{operations, parts};
use program_operators::operators;
use program_operators::operators::{EXPRESSIONS, FIELDS, PREFIXED};
use program_parser::{Read, calls, kinds, read};
use program_words::{CONSTANT, FIELD, GET, SET, SET_FIELD};

// Reads a form of a tier one level further in, which the token `opener` opens.
#[cycle(arguments_assignment_call_field_form_inside_more_nested_prefix_form_primary_tier)]
pub fn inside(
    s: &[u8],
    section: &mut [u64],
    edition: Edition,
    opener: Token,
    t: Token,
    n: usize,
    depth: u64,
    levels: usize,
    printed: bool,
    k: u64,
) -> Read
    requires { Ready edition.number s.now t n × (depth + 16 * levels ≤ 60006) × (k ≤ 10) }
    ensures { Reading edition.number s.now (decoded t) n depth section.old
        (inside_of edition.number s.now levels printed k (decoded opener) (decoded t)) result
        section.new }
{
    if levels == 0 {
        return read::too_deep(opener);
    }
    tier(s, section, edition, t, n, depth, levels - 1, printed, k)
}

// Reads an expression one level further in, which the token `opener` opens.
#[cycle(arguments_assignment_call_field_form_inside_more_nested_prefix_form_primary_tier)]
fn nested(
    s: &[u8],
    section: &mut [u64],
    edition: Edition,
    opener: Token,
    t: Token,
    n: usize,
    depth: u64,
    levels: usize,
    printed: bool,
) -> Read
    requires { Ready edition.number s.now t n × (depth + 16 * levels ≤ 60006) }
    ensures { Reading edition.number s.now (decoded t) n depth section.old
        (inside_of edition.number s.now levels printed expressions (decoded opener) (decoded t)) result
        section.new }
{
    let k = EXPRESSIONS;
    inside(s, section, edition, opener, t, n, depth, levels, printed, k)
}

// Returns what is left of a call after an argument.
fn after_argument(f: PendingCall, operand: u64) -> PendingCall
    ensures { result ≡ pending f.op (f.shapes / 4) operand f.opener }
{
    let opener = f.opener;
    PendingCall {
        op: f.op,
        shapes: f.shapes / 4,
        operand,
        opener,
    }
}

// Reads the arguments of a call that are left, after the token t: the `(`, or what follows an argument; and the `)`.
#[cycle(arguments_assignment_call_field_form_inside_more_nested_prefix_form_primary_tier)]
fn arguments(
    s: &[u8],
    section: &mut [u64],
    edition: Edition,
    f: PendingCall,
    t: Token,
    n: usize,
    depth: u64,
    levels: usize,
    first: bool,
) -> Read
    requires { Ready edition.number s.now t n × (depth + 16 * levels + arguments_left f.shapes ≤ 60003) ×
        (f.shapes < 64) × (f.op < 256) × (f.operand < 1048576) }
    ensures { Calls edition.number s.now levels f first t n depth section.old result
        section.new }
{
    let shapes = f.shapes;
    if shapes == 0 {
        let r = read::closed(s, read::ok(t, n, read::OTHER), edition);
        return parts::suffix(section, r, f.op, depth, f.operand, read::OTHER);
    }
    if !first & (t.kind != kinds::COMMA) {
        return read::refuse(t);
    }
    let start = operations::argument_after(s, t, first, edition);
    if shapes % 4 == calls::AN_EXPRESSION {
        let opener = f.opener;
        let r = nested(s, section, edition, opener, start, n, depth, levels, false);
        if r.outcome != 0 {
            return r;
        }
        let rest = after_argument(f, f.operand);
        let next = r.token;
        let m = r.count;
        let d = depth + 1;
        return arguments(s, section, edition, rest, next, m, d, levels, false);
    }
    if start.kind != kinds::ERE {
        return read::refuse(start);
    }
    let rest = after_argument(f, start.start as u64);
    let next = program_lexer::token_after(s, start, edition);
    arguments(s, section, edition, rest, next, n, depth, levels, false)
}

// Reads a call of the function that the word t names.
#[cycle(arguments_assignment_call_field_form_inside_more_nested_prefix_form_primary_tier)]
fn call(
    s: &[u8],
    section: &mut [u64],
    edition: Edition,
    t: Token,
    n: usize,
    depth: u64,
    levels: usize,
) -> Read
    requires { Ready edition.number s.now t n × (depth + 16 * levels ≤ 60000) }
    ensures { Reading edition.number s.now (decoded t) n depth section.old
        (calling edition.number s.now (inside_of edition.number s.now levels) (decoded t)
        (function_of edition.number (kind_of t.kind))) result section.new }
{
    let Some(f) = calls::function_of(t.kind, edition) else {
        return read::refuse(t);
    };
    let opener = program_lexer::token_after(s, t, edition);
    if opener.kind != kinds::OPEN_PAREN {
        return read::refuse(opener);
    }
    let all = PendingCall {
        op: f.op,
        shapes: f.shapes,
        operand: 0,
        opener,
    };
    arguments(s, section, edition, all, opener, n, depth, levels, true)
}

// Reads a primary.
#[cycle(arguments_assignment_call_field_form_inside_more_nested_prefix_form_primary_tier)]
fn primary(
    s: &[u8],
    section: &mut [u64],
    edition: Edition,
    t: Token,
    n: usize,
    depth: u64,
    levels: usize,
) -> Read
    requires { Ready edition.number s.now t n × (depth + 16 * levels ≤ 60000) }
    ensures { Reading edition.number s.now (decoded t) n depth section.old
        (primaryOf edition.number s.now (inside_of edition.number s.now levels) (decoded t))
        result section.new }
{
    let kind = t.kind;
    if (kind == kinds::NUMBER) | (kind == kinds::STRING) {
        return parts::leaf(s, section, edition, t, n, depth, CONSTANT, read::OTHER);
    }
    if kind == kinds::ERE {
        return parts::ere(s, section, edition, t, n, depth);
    }
    if kinds::is_name(kind) {
        let form = parts::name_form(kind);
        return parts::leaf(s, section, edition, t, n, depth, GET, form);
    }
    if kind != kinds::OPEN_PAREN {
        return call(s, section, edition, t, n, depth, levels);
    }
    let first = read::operand_after(s, t, edition);
    let r = nested(s, section, edition, t, first, n, depth, levels, false);
    read::closed(s, r, edition)
}

// Reads `$` before a primary or another `$`, or a primary.
#[cycle(arguments_assignment_call_field_form_inside_more_nested_prefix_form_primary_tier)]
fn field_form(
    s: &[u8],
    section: &mut [u64],
    edition: Edition,
    t: Token,
    n: usize,
    depth: u64,
    levels: usize,
) -> Read
    requires { Ready edition.number s.now t n × (depth + 16 * levels ≤ 60000) }
    ensures { Reading edition.number s.now (decoded t) n depth section.old
        (field_form edition.number s.now (inside_of edition.number s.now levels) (decoded t))
        result section.new }
{
    if t.kind != kinds::DOLLAR {
        return primary(s, section, edition, t, n, depth, levels);
    }
    let first = read::operand_after(s, t, edition);
    let r = inside(
        s, section, edition, t, first, n, depth, levels, false, FIELDS,
    );
    parts::suffix(section, r, FIELD, depth + 1, 0, read::FIELD)
}

// Reads a prefix operator before its operand, or a `$` form or a primary.
#[cycle(arguments_assignment_call_field_form_inside_more_nested_prefix_form_primary_tier)]
fn prefix_form(
    s: &[u8],
    section: &mut [u64],
    edition: Edition,
    t: Token,
    n: usize,
    depth: u64,
    levels: usize,
) -> Read
    requires { Ready edition.number s.now t n × (depth + 16 * levels ≤ 60000) }
    ensures { Reading edition.number s.now (decoded t) n depth section.old
        (prefix_form edition.number s.now (inside_of edition.number s.now levels)
        (field_form edition.number s.now (inside_of edition.number s.now levels))
        (decoded t)) result section.new }
{
    let kind = t.kind;
    if !kinds::is_prefix(kind) {
        return field_form(s, section, edition, t, n, depth, levels);
    }
    let first = read::operand_after(s, t, edition);
    let r = inside(
        s, section, edition, t, first, n, depth, levels, false, PREFIXED,
    );
    let op = operators::prefix_code(kind);
    parts::suffix(section, r, op, depth + 1, 0, read::OTHER)
}

// Reads `=` and its right side, if one follows what was read from the place `start` on.
#[cycle(arguments_assignment_call_field_form_inside_more_nested_prefix_form_primary_tier)]
fn assignment(
    s: &[u8],
    section: &mut [u64],
    edition: Edition,
    r: Read,
    start: usize,
    depth: u64,
    levels: usize,
    printed: bool,
) -> Read
    requires { Ready edition.number s.now r.token r.count × (0 < r.count) × (start < 1048576) ×
        (depth + 16 * levels ≤ 60000) }
    ensures { ContinuesFrom edition.number s.now start depth
        (assignmentOf edition.number s.now (inside_of edition.number s.now levels) printed)
        r section.old result section.new }
{
    let t = r.token;
    if (t.kind != kinds::ASSIGN) | (r.form == read::OTHER) {
        return r;
    }
    let first = read::operand_after(s, t, edition);
    let n = r.count - 1;
    if r.form == read::NAME {
        let e = nested(s, section, edition, t, first, n, depth, levels, printed);
        return parts::suffix(section, e, SET, depth + 1, start as u64, read::OTHER);
    }
    let d = depth + 1;
    let e = nested(s, section, edition, t, first, n, d, levels, printed);
    parts::suffix(section, e, SET_FIELD, depth + 2, 0, read::OTHER)
}

// Reads the operators of a tier that follow, with their right operands.
#[cycle(arguments_assignment_call_field_form_inside_more_nested_prefix_form_primary_tier)]
fn more(
    s: &[u8],
    section: &mut [u64],
    edition: Edition,
    left: Read,
    depth: u64,
    levels: usize,
    printed: bool,
    k: u64,
) -> Read
    requires { Ready edition.number s.now left.token left.count × (depth + 16 * levels + k ≤ 60000) ×
        (2 ≤ k) × (k ≤ 10) }
    ensures { Continues edition.number s.now depth
        (moreOf edition.number s.now printed k (tier_of edition.number s.now
        (inside_of edition.number s.now levels) printed (k - 1)) (turns s.now k)) left
        section.old result section.new }
{
    let mut r = left;
    loop {
        let t = r.token;
        let kind = t.kind;
        if operators::tier_of(kind, printed, edition) != k {
            return r;
        }
        let first = operations::right_of(s, t, k, edition);
        let j = r.count;
        let m = j + operators::between(kind);
        let d = operators::right_depth(kind, depth);
        let right = tier(s, section, edition, first, m, d, levels, printed, k - 1);
        if right.outcome != 0 {
            return right;
        }
        r = operations::apply(section, right, kind, depth, j);
        if k == operators::COMPARED {
            return r;
        }
    }
}

// Reads a form of a tier, from its first token on.
#[cycle(arguments_assignment_call_field_form_inside_more_nested_prefix_form_primary_tier)]
pub fn tier(
    s: &[u8],
    section: &mut [u64],
    edition: Edition,
    t: Token,
    n: usize,
    depth: u64,
    levels: usize,
    printed: bool,
    k: u64,
) -> Read
    requires { Ready edition.number s.now t n × (depth + 16 * levels + k ≤ 60000) × (k ≤ 10) }
    ensures { Reading edition.number s.now (decoded t) n depth section.old
        (tier_of edition.number s.now (inside_of edition.number s.now levels) printed k
        (decoded t)) result section.new }
{
    if k == FIELDS {
        return field_form(s, section, edition, t, n, depth, levels);
    }
    if k == PREFIXED {
        return prefix_form(s, section, edition, t, n, depth, levels);
    }
    let r = tier(s, section, edition, t, n, depth, levels, printed, k - 1);
    if r.outcome != 0 {
        return r;
    }
    if k == operators::MATCHED {
        return parts::matching(s, section, edition, r, depth);
    }
    if k == EXPRESSIONS {
        return assignment(s, section, edition, r, t.start, depth, levels, printed);
    }
    more(s, section, edition, r, depth, levels, printed, k)
}
