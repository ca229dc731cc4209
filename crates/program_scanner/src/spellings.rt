// The table of words and operators: what kind a spelling has.
ghost use Rattle.std.specs.Prelude.{◌≡◌, map};
ghost use Rattle.program_tokens.specs.Kinds.{rank};
ghost use Rattle.program_tokens.specs.Words.{word_kind, operator_kind};
ghost use Rattle.program_scanner.specs.Spellings.{rank_in};

use crate::kinds;
use edition::Edition;

// A row is a spelling, the number of its kind, and the first edition that has it.
const WORDS: [(&[u8], u64, u64); 55] = [
    (b"BEGIN", kinds::BEGIN, 1),
    (b"END", kinds::END, 1),
    (b"if", kinds::IF, 1),
    (b"else", kinds::ELSE, 1),
    (b"while", kinds::WHILE, 1),
    (b"print", kinds::PRINT, 1),
    (b"next", kinds::NEXT, 1),
    (b"exit", kinds::EXIT, 1),
    (b"break", kinds::BREAK, 1),
    (b"continue", kinds::CONTINUE, 1),
    (b"delete", kinds::DELETE, 1),
    (b"do", kinds::DO, 1),
    (b"for", kinds::FOR, 1),
    (b"function", kinds::FUNCTION, 1),
    (b"getline", kinds::GETLINE, 1),
    (b"in", kinds::IN, 1),
    (b"printf", kinds::PRINTF, 1),
    (b"return", kinds::RETURN, 1),
    (b"length", kinds::LENGTH, 1),
    (b"index", kinds::INDEX, 1),
    (b"substr", kinds::SUBSTR, 1),
    (b"match", kinds::MATCH, 1),
    (b"sub", kinds::SUB, 1),
    (b"gsub", kinds::GSUB, 1),
    (b"atan2", kinds::OTHER_FUNCTION, 1),
    (b"close", kinds::OTHER_FUNCTION, 1),
    (b"cos", kinds::OTHER_FUNCTION, 1),
    (b"exp", kinds::OTHER_FUNCTION, 1),
    (b"int", kinds::OTHER_FUNCTION, 1),
    (b"log", kinds::OTHER_FUNCTION, 1),
    (b"rand", kinds::OTHER_FUNCTION, 1),
    (b"sin", kinds::OTHER_FUNCTION, 1),
    (b"split", kinds::OTHER_FUNCTION, 1),
    (b"sprintf", kinds::OTHER_FUNCTION, 1),
    (b"sqrt", kinds::OTHER_FUNCTION, 1),
    (b"srand", kinds::OTHER_FUNCTION, 1),
    (b"system", kinds::OTHER_FUNCTION, 1),
    (b"tolower", kinds::OTHER_FUNCTION, 1),
    (b"toupper", kinds::OTHER_FUNCTION, 1),
    (b"FS", kinds::VARIABLE, 1),
    (b"OFS", kinds::VARIABLE, 1),
    (b"ORS", kinds::VARIABLE, 1),
    (b"NF", kinds::FIXED_VARIABLE, 1),
    (b"NR", kinds::FIXED_VARIABLE, 1),
    (b"RSTART", kinds::FIXED_VARIABLE, 1),
    (b"RLENGTH", kinds::FIXED_VARIABLE, 1),
    (b"ARGC", kinds::OTHER_VARIABLE, 1),
    (b"ARGV", kinds::OTHER_VARIABLE, 1),
    (b"CONVFMT", kinds::OTHER_VARIABLE, 1),
    (b"ENVIRON", kinds::OTHER_VARIABLE, 1),
    (b"FILENAME", kinds::OTHER_VARIABLE, 1),
    (b"FNR", kinds::OTHER_VARIABLE, 1),
    (b"OFMT", kinds::OTHER_VARIABLE, 1),
    (b"RS", kinds::OTHER_VARIABLE, 1),
    (b"SUBSEP", kinds::OTHER_VARIABLE, 1),
];

const OPERATORS: [(&[u8], u64, u64); 39] = [
    (b"||", kinds::OR_OR, 1),
    (b"&&", kinds::AND_AND, 1),
    (b"!~", kinds::NO_MATCH, 1),
    (b"==", kinds::EQUAL, 1),
    (b"<=", kinds::AT_MOST, 1),
    (b">=", kinds::AT_LEAST, 1),
    (b"!=", kinds::DIFFERENT, 1),
    (b"+=", kinds::ADD_ASSIGN, 1),
    (b"-=", kinds::SUB_ASSIGN, 1),
    (b"*=", kinds::MUL_ASSIGN, 1),
    (b"/=", kinds::DIV_ASSIGN, 1),
    (b"%=", kinds::MOD_ASSIGN, 1),
    (b"^=", kinds::POW_ASSIGN, 1),
    (b"++", kinds::INCREMENT, 1),
    (b"--", kinds::DECREMENT, 1),
    (b">>", kinds::APPEND, 1),
    (b"{", kinds::OPEN_BRACE, 1),
    (b"}", kinds::CLOSE_BRACE, 1),
    (b"(", kinds::OPEN_PAREN, 1),
    (b")", kinds::CLOSE_PAREN, 1),
    (b"[", kinds::OPEN_BRACKET, 1),
    (b"]", kinds::CLOSE_BRACKET, 1),
    (b",", kinds::COMMA, 1),
    (b";", kinds::SEMICOLON, 1),
    (b"+", kinds::PLUS, 1),
    (b"-", kinds::MINUS, 1),
    (b"*", kinds::STAR, 1),
    (b"/", kinds::SLASH, 1),
    (b"%", kinds::PERCENT, 1),
    (b"^", kinds::CARET, 1),
    (b"!", kinds::BANG, 1),
    (b">", kinds::GREATER, 1),
    (b"<", kinds::LESS, 1),
    (b"|", kinds::BAR, 1),
    (b"?", kinds::QUESTION, 1),
    (b":", kinds::COLON, 1),
    (b"~", kinds::TILDE, 1),
    (b"$", kinds::DOLLAR, 1),
    (b"=", kinds::ASSIGN, 1),
];

// Returns the number of the kind that a table gives a spelling in an edition, or `other` where it has none.
fn kind_in(table: &[(&[u8], u64, u64)], spelling: &[u8], edition: Edition, other: u64) -> u64
    ensures { result ≡ rank_in edition.number other spelling.now (map (λ r. (r.0.now, r.1, r.2)) table.now) }
{
    for (word, kind, since) in table {
        if (*since <= edition.number) & (spelling == *word) {
            return *kind;
        }
    }
    other
}

// Returns the number of a word's kind. No word of the table is longer than 8 bytes.
pub fn word_kind(spelling: &[u8], edition: Edition) -> u64
    ensures { result ≡ rank (word_kind edition.number spelling.now) }
{
    if 8 < spelling.len() {
        return kinds::USER_NAME;
    }
    kind_in(&WORDS, spelling, edition, kinds::USER_NAME)
}

// Returns the number of an operator's kind.
pub fn operator_kind(spelling: &[u8], edition: Edition) -> u64
    ensures { result ≡ rank (operator_kind edition.number spelling.now) }
{
    kind_in(&OPERATORS, spelling, edition, kinds::BAD)
}
