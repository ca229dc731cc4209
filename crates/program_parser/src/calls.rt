// The table of built-in functions.
ghost use Rattle.std.specs.Prelude.{◌≡◌, ◌<◌};
ghost use Rattle.program_tree.specs.Functions.{function_of};
ghost use Rattle.program_lexer.specs.Coded.{kind_of, kind_count};
ghost use Rattle.program_parser.specs.Tables.{described, with_since};

use crate::kinds;
use edition::Edition;

// A function: its code, and the shapes of its arguments, two bits each, the first lowest.
#[derive(Drop)]
pub struct Function {
    pub op: u64,
    pub shapes: u64,
}

// The shapes of an argument.
pub const AN_EXPRESSION: u64 = 1;

pub const AN_ERE: u64 = 2;

// The shapes of one, two and three expressions, and of an expression and an ERE.
const ONE: u64 = AN_EXPRESSION;

const TWO: u64 = AN_EXPRESSION + 4 * ONE;

const THREE: u64 = AN_EXPRESSION + 4 * TWO;

const ONE_AND_ERE: u64 = AN_EXPRESSION + 4 * AN_ERE;

// Returns a function to the editions that have it.
fn with_since(op: u64, shapes: u64, since: u64, edition: Edition) -> Option<Function>
    ensures { result ≡ with_since op shapes since edition.number }
{
    if since <= edition.number {
        return Some(Function { op, shapes });
    }
    None
}

// Returns the function that a word calls in an edition, if there is one.
pub fn function_of(kind: u64, edition: Edition) -> Option<Function>
    requires { kind < kind_count }
    ensures { result ≡ described (function_of edition.number (kind_of kind)) }
{
    match kind {
        kinds::LENGTH => with_since(program_words::LENGTH, ONE, Edition::FIRST, edition),
        kinds::INDEX => with_since(program_words::INDEX, TWO, Edition::FIRST, edition),
        kinds::SUBSTR => with_since(program_words::SUBSTR, THREE, Edition::FIRST, edition),
        kinds::MATCH => with_since(program_words::MATCH, ONE_AND_ERE, Edition::FIRST, edition),
        _ => None,
    }
}
