// The numbers of the kinds of tokens.
pub const TEXT_END: u64 = 0;

pub const NEWLINE: u64 = 1;

pub const BAD: u64 = 2;

pub const BAD_ERE: u64 = 3;

pub const NUMBER: u64 = 4;

pub const STRING: u64 = 5;

pub const ERE: u64 = 6;

pub const USER_NAME: u64 = 7;

pub const VARIABLE: u64 = 8;

pub const FIXED_VARIABLE: u64 = 9;

pub const OTHER_VARIABLE: u64 = 10;

pub const BEGIN: u64 = 11;

pub const END: u64 = 12;

pub const IF: u64 = 13;

pub const ELSE: u64 = 14;

pub const WHILE: u64 = 15;

pub const PRINT: u64 = 16;

pub const NEXT: u64 = 17;

pub const EXIT: u64 = 18;

pub const BREAK: u64 = 19;

pub const CONTINUE: u64 = 20;

pub const DELETE: u64 = 21;

pub const DO: u64 = 22;

pub const FOR: u64 = 23;

pub const FUNCTION: u64 = 24;

pub const GETLINE: u64 = 25;

pub const IN: u64 = 26;

pub const PRINTF: u64 = 27;

pub const RETURN: u64 = 28;

pub const LENGTH: u64 = 29;

pub const INDEX: u64 = 30;

pub const SUBSTR: u64 = 31;

pub const MATCH: u64 = 32;

pub const SUB: u64 = 33;

pub const GSUB: u64 = 34;

pub const OTHER_FUNCTION: u64 = 35;

pub const OPEN_BRACE: u64 = 36;

pub const CLOSE_BRACE: u64 = 37;

pub const OPEN_PAREN: u64 = 38;

pub const CLOSE_PAREN: u64 = 39;

pub const OPEN_BRACKET: u64 = 40;

pub const CLOSE_BRACKET: u64 = 41;

pub const COMMA: u64 = 42;

pub const SEMICOLON: u64 = 43;

pub const CALL_PAREN: u64 = 44;

pub const PLUS: u64 = 45;

pub const MINUS: u64 = 46;

pub const STAR: u64 = 47;

pub const SLASH: u64 = 48;

pub const PERCENT: u64 = 49;

pub const CARET: u64 = 50;

pub const BANG: u64 = 51;

pub const GREATER: u64 = 52;

pub const LESS: u64 = 53;

pub const BAR: u64 = 54;

pub const QUESTION: u64 = 55;

pub const COLON: u64 = 56;

pub const TILDE: u64 = 57;

pub const DOLLAR: u64 = 58;

pub const ASSIGN: u64 = 59;

pub const OR_OR: u64 = 60;

pub const AND_AND: u64 = 61;

pub const NO_MATCH: u64 = 62;

pub const EQUAL: u64 = 63;

pub const AT_MOST: u64 = 64;

pub const AT_LEAST: u64 = 65;

pub const DIFFERENT: u64 = 66;

pub const ADD_ASSIGN: u64 = 67;

pub const SUB_ASSIGN: u64 = 68;

pub const MUL_ASSIGN: u64 = 69;

pub const DIV_ASSIGN: u64 = 70;

pub const MOD_ASSIGN: u64 = 71;

pub const POW_ASSIGN: u64 = 72;

pub const INCREMENT: u64 = 73;

pub const DECREMENT: u64 = 74;

pub const APPEND: u64 = 75;
