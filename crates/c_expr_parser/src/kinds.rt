//! Kinds of tokens, by which alternatives are told apart.

ghost use Rattle.std.specs.Prelude.{◌≡◌};
ghost use Rattle.c_syntax.specs.Tokens.{plain_token};
ghost use Rattle.c_model.specs.Vocabulary.{word_at};
ghost use Rattle.c_model.specs.ExpressionGrammar.{keyword_kind, kind, logic_word_kind, word_kind};

use c_model::punctuator;
use c_model::vocabulary::{Keyword, LogicWord, Word};
use c_syntax::{Token, TokenKind};

pub const NAME: u32 = 0;

pub const NUMBER: u32 = 1;

pub const LETTER: u32 = 2;

pub const TEXT: u32 = 3;

pub const TYPE_NAME: u32 = 4;

pub const LOGIC: u32 = 5;

pub const ANNOT_OPEN: u32 = 6;

pub const ANNOT_CLOSE: u32 = 7;

pub const HEAD: u32 = 8;

pub const CHAR: u32 = 10;

pub const SHORT: u32 = 11;

pub const INT: u32 = 12;

pub const LONG: u32 = 13;

pub const SIGNED: u32 = 14;

pub const UNSIGNED: u32 = 15;

pub const VOID: u32 = 16;

pub const CONST: u32 = 17;

pub const STATIC: u32 = 18;

pub const IF: u32 = 19;

pub const ELSE: u32 = 20;

pub const WHILE: u32 = 21;

pub const DO: u32 = 22;

pub const FOR: u32 = 23;

pub const BREAK: u32 = 24;

pub const CONTINUE: u32 = 25;

pub const RETURN: u32 = 26;

pub const SIZEOF: u32 = 27;

pub const STRUCT: u32 = 28;

pub const ENUM: u32 = 29;

pub const TYPEDEF: u32 = 30;

pub const SWITCH: u32 = 31;

pub const CASE: u32 = 32;

pub const DEFAULT: u32 = 33;

pub const KEPT: u32 = 34;

pub const NULL: u32 = 35;

pub const FACT: u32 = 36;

pub const QUESTION_WORD: u32 = 37;

pub const SEPARATED: u32 = 38;

pub const RESULT: u32 = 39;

pub const OLD: u32 = 40;

pub const AT: u32 = 41;

pub const QUANTIFIER: u32 = 42;

/// The kind of the first punctuator in the list of all; the others follow.
pub const FIRST_MARK: u32 = 60;

pub const ARROW: u32 = FIRST_MARK + punctuator::ARROW as u32;

pub const INCREMENT: u32 = FIRST_MARK + punctuator::INCREMENT as u32;

pub const DECREMENT: u32 = FIRST_MARK + punctuator::DECREMENT as u32;

pub const ASSIGN: u32 = FIRST_MARK + punctuator::ASSIGN as u32;

pub const PLUS: u32 = FIRST_MARK + punctuator::PLUS as u32;

pub const MINUS: u32 = FIRST_MARK + punctuator::MINUS as u32;

pub const TIMES: u32 = FIRST_MARK + punctuator::TIMES as u32;

pub const EXCLAMATION: u32 = FIRST_MARK + punctuator::EXCLAMATION as u32;

pub const TILDE: u32 = FIRST_MARK + punctuator::TILDE as u32;

pub const AMPERSAND: u32 = FIRST_MARK + punctuator::AMPERSAND as u32;

pub const DOT: u32 = FIRST_MARK + punctuator::DOT as u32;

pub const DOTS: u32 = FIRST_MARK + punctuator::DOTS as u32;

pub const QUESTION: u32 = FIRST_MARK + punctuator::QUESTION as u32;

pub const COLON: u32 = FIRST_MARK + punctuator::COLON as u32;

pub const SEMICOLON: u32 = FIRST_MARK + punctuator::SEMICOLON as u32;

pub const COMMA: u32 = FIRST_MARK + punctuator::COMMA as u32;

pub const LEFT_PAREN: u32 = FIRST_MARK + punctuator::LEFT_PAREN as u32;

pub const RIGHT_PAREN: u32 = FIRST_MARK + punctuator::RIGHT_PAREN as u32;

pub const LEFT_BRACKET: u32 = FIRST_MARK + punctuator::LEFT_BRACKET as u32;

pub const RIGHT_BRACKET: u32 = FIRST_MARK + punctuator::RIGHT_BRACKET as u32;

pub const LEFT_BRACE: u32 = FIRST_MARK + punctuator::LEFT_BRACE as u32;

pub const RIGHT_BRACE: u32 = FIRST_MARK + punctuator::RIGHT_BRACE as u32;

/// What the name of a number is.
pub fn word_at(words: &[Word], number: u32) -> Word
    ensures { result ≡ word_at words.now number }
{
    match words.get(number as usize) {
        Some(word) => *word,
        None => Word::Name,
    }
}

pub fn keyword_kind(keyword: Keyword) -> u32
    ensures { result ≡ keyword_kind keyword }
{
    match keyword {
        Keyword::Char => CHAR,
        Keyword::Short => SHORT,
        Keyword::Int => INT,
        Keyword::Long => LONG,
        Keyword::Signed => SIGNED,
        Keyword::Unsigned => UNSIGNED,
        Keyword::Void => VOID,
        Keyword::Const => CONST,
        Keyword::Static => STATIC,
        Keyword::If => IF,
        Keyword::Else => ELSE,
        Keyword::While => WHILE,
        Keyword::Do => DO,
        Keyword::For => FOR,
        Keyword::Break => BREAK,
        Keyword::Continue => CONTINUE,
        Keyword::Return => RETURN,
        Keyword::Sizeof => SIZEOF,
        Keyword::Struct => STRUCT,
        Keyword::Enum => ENUM,
        Keyword::Typedef => TYPEDEF,
        Keyword::Switch => SWITCH,
        Keyword::Case => CASE,
        Keyword::Default => DEFAULT,
        Keyword::Kept => KEPT,
    }
}

fn logic_word_kind(word: LogicWord) -> u32
    ensures { result ≡ logic_word_kind word }
{
    match word {
        LogicWord::Truth(_) | LogicWord::Kept => LOGIC,
        LogicWord::Null => NULL,
        LogicWord::Told(_) => FACT,
        LogicWord::Asks(_) => QUESTION_WORD,
        LogicWord::Separated => SEPARATED,
        LogicWord::Result => RESULT,
        LogicWord::Old => OLD,
        LogicWord::At => AT,
        LogicWord::Quantifier(_) => QUANTIFIER,
    }
}

pub fn word_kind(word: Word) -> u32
    ensures { result ≡ word_kind word }
{
    match word {
        Word::Keyword(keyword) => keyword_kind(keyword),
        Word::TypeName(_) => TYPE_NAME,
        Word::Logic(word) => logic_word_kind(word),
        Word::Clause(_) | Word::Integer | Word::Name => NAME,
    }
}

/// The kind of a token.
pub fn kind(words: &[Word], token: &Token) -> u32
    ensures { result ≡ kind words.now (plain_token token.now) }
{
    match &token.kind {
        TokenKind::Word(number) => word_kind(word_at(words, *number)),
        TokenKind::Number(_, _) => NUMBER,
        TokenKind::Letter(_) => LETTER,
        TokenKind::Chars(_) => TEXT,
        TokenKind::Mark(mark) => FIRST_MARK + *mark as u32,
        TokenKind::AnnotOpen => ANNOT_OPEN,
        TokenKind::AnnotClose => ANNOT_CLOSE,
        TokenKind::Head(_, _) => HEAD,
    }
}
