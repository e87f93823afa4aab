//! The punctuators (C99 6.4.6), by their places in the list of all, which both languages share.

/// `<<=`
pub const SHIFT_LEFT_ASSIGN: u8 = 0;

/// `>>=`
pub const SHIFT_RIGHT_ASSIGN: u8 = 1;

/// `++`
pub const INCREMENT: u8 = 2;

/// `--`
pub const DECREMENT: u8 = 3;

/// `->`
pub const ARROW: u8 = 4;

/// `<<`
pub const SHIFT_LEFT: u8 = 5;

/// `>>`
pub const SHIFT_RIGHT: u8 = 6;

/// `<=`
pub const LESS_EQUAL: u8 = 7;

/// `>=`
pub const GREATER_EQUAL: u8 = 8;

/// `==`
pub const EQUAL: u8 = 9;

/// `!=`
pub const NOT_EQUAL: u8 = 10;

/// `&&`
pub const AND_AND: u8 = 11;

/// `||`
pub const OR_OR: u8 = 12;

/// `+=`
pub const ADD_ASSIGN: u8 = 13;

/// `-=`
pub const SUBTRACT_ASSIGN: u8 = 14;

/// `*=`
pub const MULTIPLY_ASSIGN: u8 = 15;

/// `/=`
pub const DIVIDE_ASSIGN: u8 = 16;

/// `%=`
pub const REMAINDER_ASSIGN: u8 = 17;

/// `&=`
pub const AND_ASSIGN: u8 = 18;

/// `|=`
pub const OR_ASSIGN: u8 = 19;

/// `^=`
pub const XOR_ASSIGN: u8 = 20;

/// `+`
pub const PLUS: u8 = 21;

/// `-`
pub const MINUS: u8 = 22;

/// `*`
pub const TIMES: u8 = 23;

/// `/`
pub const DIVIDE: u8 = 24;

/// `%`
pub const PERCENT: u8 = 25;

/// `<`
pub const LESS: u8 = 26;

/// `>`
pub const GREATER: u8 = 27;

/// `=`
pub const ASSIGN: u8 = 28;

/// `!`
pub const EXCLAMATION: u8 = 29;

/// `~`
pub const TILDE: u8 = 30;

/// `&`
pub const AMPERSAND: u8 = 31;

/// `|`
pub const BAR: u8 = 32;

/// `^`
pub const CARET: u8 = 33;

/// `?`
pub const QUESTION: u8 = 34;

/// `:`
pub const COLON: u8 = 35;

/// `;`
pub const SEMICOLON: u8 = 36;

/// `,`
pub const COMMA: u8 = 37;

/// `.`
pub const DOT: u8 = 38;

/// `(`
pub const LEFT_PAREN: u8 = 39;

/// `)`
pub const RIGHT_PAREN: u8 = 40;

/// `[`
pub const LEFT_BRACKET: u8 = 41;

/// `]`
pub const RIGHT_BRACKET: u8 = 42;

/// `{`
pub const LEFT_BRACE: u8 = 43;

/// `}`
pub const RIGHT_BRACE: u8 = 44;

/// How many there are; those of annotations alone follow.
pub const COUNT: u8 = 45;

/// `<==>`
pub const EQUIVALENT: u8 = 45;

/// `==>`
pub const IMPLIES: u8 = 46;

/// `^^`
pub const CARET_CARET: u8 = 47;

/// `..`
pub const DOTS: u8 = 48;

/// How those of C are spelled.
pub const SPELLINGS: &[&[u8]] = &[
    b"<<=", b">>=", b"++", b"--", b"->", b"<<", b">>", b"<=", b">=", b"==", b"!=", b"&&", b"||",
    b"+=", b"-=", b"*=", b"/=", b"%=", b"&=", b"|=", b"^=", b"+", b"-", b"*", b"/", b"%", b"<",
    b">", b"=", b"!", b"~", b"&", b"|", b"^", b"?", b":", b";", b",", b".", b"(", b")", b"[", b"]",
    b"{", b"}",
];
