// The kinds of tokens that the grammar names, and its sets of kinds.
ghost use Rattle.std.specs.Prelude.{◌≡◌, [], ◌∷◌, ◌<◌};
ghost use Rattle.program_tokens.specs.Kinds.{NUMBER as NUMBER-kind, STRING as STRING-kind, open_paren, dollar, among};
ghost use Rattle.program_grammar.specs.Sets.{names, prefixes, enders, starts_joined, starts_expression, starts_statement};
ghost use Rattle.program_parser.specs.Tables.{forms};
ghost use Rattle.program_lexer.specs.Coded.{kind_of, kind_count};

use crate::calls;
use edition::Edition;
pub use program_scanner::kinds::{
    AND_AND, ASSIGN, AT_LEAST, AT_MOST, BAD, BAD_ERE, BANG, BEGIN, CLOSE_BRACE, CLOSE_PAREN, COMMA,
    DIFFERENT, DOLLAR, ELSE, END, EQUAL, ERE, EXIT, FIXED_VARIABLE, GREATER, IF, INDEX, LENGTH,
    LESS, MATCH, MINUS, NEWLINE, NEXT, NO_MATCH, NUMBER, OPEN_BRACE, OPEN_PAREN, OR_OR, PERCENT,
    PLUS, PRINT, SEMICOLON, SLASH, STAR, STRING, SUBSTR, TEXT_END, TILDE, USER_NAME, VARIABLE,
    WHILE,
};

// Tells whether a kind is newline or `;`, which end a statement.
pub fn is_ender(kind: u64) -> bool
    requires { kind < kind_count }
    ensures { result ≡ among enders (kind_of kind) }
{
    (kind == NEWLINE) | (kind == SEMICOLON)
}

// Tells whether a kind is that of a name.
pub fn is_name(kind: u64) -> bool
    requires { kind < kind_count }
    ensures { result ≡ among names (kind_of kind) }
{
    (kind == USER_NAME) | ((kind == VARIABLE) | (kind == FIXED_VARIABLE))
}

// Tells whether a kind is `!`, `+` or `-`.
pub fn is_prefix(kind: u64) -> bool
    requires { kind < kind_count }
    ensures { result ≡ among prefixes (kind_of kind) }
{
    (kind == BANG) | ((kind == PLUS) | (kind == MINUS))
}

// Tells whether a kind begins the right operand of a concatenation, functions aside.
fn starts_operand(kind: u64) -> bool
    requires { kind < kind_count }
    ensures { result ≡ among (NUMBER-kind ∷ STRING-kind ∷ open_paren ∷ dollar ∷ names) (kind_of kind) }
{
    (kind == NUMBER)
        | ((kind == STRING) | ((kind == OPEN_PAREN) | ((kind == DOLLAR) | is_name(kind))))
}

// Tells whether a kind begins the right operand of a concatenation.
pub fn starts_joined(kind: u64, edition: Edition) -> bool
    requires { kind < kind_count }
    ensures { result ≡ starts_joined edition.number (kind_of kind) }
{
    starts_operand(kind) | calls::function_of(kind, edition).is_some()
}

// Tells whether a kind begins an expression.
pub fn starts_expression(kind: u64, edition: Edition) -> bool
    requires { kind < kind_count }
    ensures { result ≡ starts_expression edition.number (kind_of kind) }
{
    starts_joined(kind, edition) | ((kind == ERE) | is_prefix(kind))
}

// Tells whether a kind begins a statement of no expression.
fn starts_form(kind: u64) -> bool
    requires { kind < kind_count }
    ensures { result ≡ among forms (kind_of kind) }
{
    (kind == SEMICOLON)
        | ((kind == OPEN_BRACE)
            | ((kind == IF) | ((kind == WHILE) | ((kind == PRINT) | (kind == EXIT)))))
}

// Tells whether a kind begins a statement.
pub fn starts_statement(kind: u64, in_main: bool, edition: Edition) -> bool
    requires { kind < kind_count }
    ensures { result ≡ starts_statement edition.number in_main (kind_of kind) }
{
    starts_expression(kind, edition) | (starts_form(kind) | (in_main & (kind == NEXT)))
}
