// The table of operators.
ghost use Rattle.std.specs.Prelude.{◌≡◌, false, ◌<◌, ◌≤◌};
ghost use Rattle.program_reader.specs.Operators.{tier_of};
ghost use Rattle.program_lexer.specs.Coded.{kind_of, kind_count};
ghost use Rattle.program_parser.specs.Tables.{joined_tier, operator_code, prefix_code, between as betweenOf, right_depth};

use edition::Edition;
use program_parser::kinds;

// The tiers, from the tightest; 7 is free.
pub const FIELDS: u64 = 0;

pub const PREFIXED: u64 = 1;

pub const PRODUCTS: u64 = 2;

pub const SUMS: u64 = 3;

pub const CONCATENATIONS: u64 = 4;

pub const COMPARED: u64 = 5;

pub const MATCHED: u64 = 6;

pub const CONJUNCTIONS: u64 = 8;

pub const DISJUNCTIONS: u64 = 9;

pub const EXPRESSIONS: u64 = 10;

// Returns the tier of a kind that is no operator: it may begin the right operand of a concatenation.
fn joined_tier(kind: u64, edition: Edition) -> u64
    requires { kind < kind_count }
    ensures { result ≡ joined_tier edition.number (kind_of kind) }
{
    if kinds::starts_joined(kind, edition) {
        return CONCATENATIONS;
    }
    FIELDS
}

// Returns the tier of the operator that a token is or begins, outside a print list.
fn plain_tier(kind: u64, edition: Edition) -> u64
    requires { kind < kind_count }
    ensures { result ≡ tier_of edition.number false (kind_of kind) }
{
    match kind {
        kinds::OR_OR => DISJUNCTIONS,
        kinds::AND_AND => CONJUNCTIONS,
        kinds::LESS => COMPARED,
        kinds::AT_MOST => COMPARED,
        kinds::EQUAL => COMPARED,
        kinds::DIFFERENT => COMPARED,
        kinds::GREATER => COMPARED,
        kinds::AT_LEAST => COMPARED,
        kinds::PLUS => SUMS,
        kinds::MINUS => SUMS,
        kinds::STAR => PRODUCTS,
        kinds::SLASH => PRODUCTS,
        kinds::PERCENT => PRODUCTS,
        _ => joined_tier(kind, edition),
    }
}

// Returns the tier of the operator that a token is or begins; in a print list outside parentheses `>` has none.
pub fn tier_of(kind: u64, printed: bool, edition: Edition) -> u64
    requires { kind < kind_count }
    ensures { result ≡ tier_of edition.number printed (kind_of kind) }
{
    if printed & (kind == kinds::GREATER) {
        return FIELDS;
    }
    plain_tier(kind, edition)
}

// Returns the code of the instruction after both operands.
pub fn operator_code(kind: u64) -> u64
    requires { kind < kind_count }
    ensures { result ≡ operator_code (kind_of kind) }
{
    match kind {
        kinds::PLUS => program_words::ADD,
        kinds::MINUS => program_words::SUBTRACT,
        kinds::STAR => program_words::MULTIPLY,
        kinds::SLASH => program_words::DIVIDE,
        kinds::PERCENT => program_words::REMAINDER,
        kinds::LESS => program_words::LESS,
        kinds::AT_MOST => program_words::AT_MOST,
        kinds::EQUAL => program_words::EQUAL,
        kinds::DIFFERENT => program_words::DIFFERENT,
        kinds::GREATER => program_words::GREATER,
        kinds::AT_LEAST => program_words::AT_LEAST,
        _ => program_words::JOIN,
    }
}

// Returns the code of a prefix operator.
pub fn prefix_code(kind: u64) -> u64
    requires { kind < kind_count }
    ensures { result ≡ prefix_code (kind_of kind) }
{
    match kind {
        kinds::BANG => program_words::NOT,
        kinds::PLUS => program_words::TO_NUMBER,
        _ => program_words::NEGATE,
    }
}

// Returns how many instructions an operator has between its operands.
pub fn between(kind: u64) -> usize
    ensures { result ≡ betweenOf kind }
{
    if kind == kinds::AND_AND {
        return 1;
    }
    if kind == kinds::OR_OR {
        return 3;
    }
    0
}

// Returns the depth of the right operand.
pub fn right_depth(kind: u64, depth: u64) -> u64
    requires { depth ≤ 60000 }
    ensures { result ≡ right_depth kind depth }
{
    if (kind == kinds::AND_AND) | (kind == kinds::OR_OR) {
        return depth;
    }
    depth + 1
}
