// Whether an instruction of a section passes the check.
ghost use Rattle.std.specs.Prelude.{◌≡◌, true, not, ◌||◌, ◌≤◌, ◌<◌, length, eqb};
ghost use Rattle.edition.specs.Limits.{user_names};
ghost use Rattle.image_instructions.specs.Judge.{terminates_of, pops_of, variables_of, exists_of, allowed_of, placed_of, leads_of, has_depth, judged_at, Judges};

use crate::context::Context;
use edition::Edition;

// Tells whether a code leads nowhere in its section.
fn terminates(code: u64) -> bool
    ensures { result ≡ terminates_of code }
{
    code == opcodes::END || code == opcodes::NEXT || code == opcodes::EXIT
}

// Returns how many operands a code takes, by its row.
fn pops(row: u64, first: u64) -> u64
    ensures { result ≡ pops_of row first }
{
    if row / 8 % 8 == opcodes::COUNT {
        return first;
    }
    row % 4
}

// Returns how many variables there are.
fn variables(context: Context) -> u64
    requires { context.users ≤ user_names }
    ensures { result ≡ variables_of context }
{
    opcodes::specials(context.edition) + context.users
}

// Tells whether what a number names is there, and keeps the rule of its kind.
fn exists(context: Context, count: usize, names: u64, v: u64) -> bool
    requires { context.users ≤ user_names }
    ensures { result ≡ exists_of context count names v }
{
    if names == opcodes::CONSTANT {
        return v < context.constants;
    }
    if names == opcodes::VARIABLE {
        return v < variables(context);
    }
    if names == opcodes::ERE {
        return v < context.eres;
    }
    if names == opcodes::INSTRUCTION {
        return v < count as u64;
    }
    if names == opcodes::COUNT {
        return 1 <= v;
    }
    if names == opcodes::ASSIGNABLE {
        return v < variables(context) && opcodes::assignable(context.edition, v);
    }
    true
}

// Tells whether a code may be in the section.
fn allowed(context: Context, code: u64) -> bool
    ensures { result ≡ allowed_of context code }
{
    code != opcodes::NEXT || context.main
}

// Tells whether a depth is 0, if it has to be.
fn zero_if(over: bool, depth: u64) -> bool
    ensures { result ≡ (not over || eqb depth 0) }
{
    !over || depth == 0
}

// Tells whether a code and its depth may be at instruction n.
fn check_position(context: Context, count: usize, n: usize, code: u64, depth: u64) -> bool
    requires { n < count }
    ensures { result ≡ placed_of context count n code depth true }
{
    if (code == opcodes::END) != (n + 1 == count) {
        return false;
    }
    if !zero_if(n == 0, depth) {
        return false;
    }
    if !zero_if(terminates(code), depth) {
        return false;
    }
    depth <= Edition::DEPTH as u64
}

// Tells whether instruction m is there, with this depth before it.
fn has_depth(index: &[u32], count: usize, m: u64, depth: u64) -> bool
    requires { count ≤ length index.now }
    ensures { result ≡ has_depth index.now count m depth }
{
    if count as u64 <= m {
        return false;
    }
    let j = image_access::instruction(index, m as usize);
    j.depth == depth
}

// Tells whether each instruction that comes after instruction n is there, with the depth that this one leaves.
fn check_successors(
    index: &[u32],
    context: Context,
    count: usize,
    n: usize,
    code: u64,
    v: u64,
    after: u64,
) -> bool
    requires { (count ≤ length index.now) × (n < count) }
    ensures { result ≡ leads_of context count (has_depth index.now count) n code v after }
{
    if terminates(code) {
        return true;
    }
    if code == opcodes::JUMP {
        return has_depth(index, count, v, after);
    }
    if !has_depth(index, count, n as u64 + 1, after) {
        return false;
    }
    if code == opcodes::JUMP_IF_FALSE {
        return has_depth(index, count, v, after);
    }
    true
}

// Tells whether instruction n passes.
fn check_instruction(index: &[u32], context: Context, count: usize, n: usize) -> bool
    requires { (count ≤ length index.now) × (n < count) × (context.users ≤ user_names) }
    ensures { result ≡ judged_at context index.now count n }
{
    let j = image_access::instruction(index, n);
    let code = j.code;
    if !opcodes::known_code(context.edition, code) {
        return false;
    }
    let row = opcodes::row(context.edition, code);
    if !exists(context, count, row / 8 % 8, j.first) {
        return false;
    }
    if !exists(context, count, row / 64, j.second) {
        return false;
    }
    if !check_position(context, count, n, code, j.depth) {
        return false;
    }
    let taken = pops(row, j.first);
    if j.depth < taken {
        return false;
    }
    let after = j.depth - taken + row / 4 % 2;
    check_successors(index, context, count, n, code, j.first, after) && allowed(context, code)
}

// Tells whether all instructions of a section pass.
pub fn check_instructions(index: &[u32], context: Context, count: usize) -> bool
    requires { (count ≤ length index.now) × (context.users ≤ user_names) }
    ensures { Judges context index.now count result }
{
    for n in 0..count {
        if !check_instruction(index, context, count, n) {
            return false;
        }
    }
    true
}
