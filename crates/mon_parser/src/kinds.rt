//! Kinds of tokens, by which alternatives are told apart.

ghost use Rattle.std.specs.Prelude.{◌≡◌};
ghost use Rattle.c_syntax.specs.Tokens.{plain_token};
ghost use Rattle.mon_syntax.specs.Grammar.{kind, word_at, word_kind};

use c_model::punctuator;
use c_syntax::{Token, TokenKind};
use mon_syntax::Word;

pub const NAME: u32 = 0;

pub const TYPE: u32 = 1;

pub const CONSTANT: u32 = 2;

pub const VOID: u32 = 3;

pub const IF: u32 = 4;

pub const ELSE: u32 = 5;

pub const WHILE: u32 = 6;

pub const GOTO: u32 = 7;

pub const RETURN: u32 = 8;

pub const NUMBER: u32 = 10;

pub const TEXT: u32 = 11;

pub const HEAD: u32 = 12;
/// The kind of what no monitored text has.
pub const FOREIGN: u32 = 13;

pub const STATIC: u32 = 14;

pub const CONST: u32 = 15;

pub const CHAR: u32 = 16;
/// The kinds of the words of marks.
pub const INITIALIZE: u32 = 17;

pub const INITIALIZE_POINTER: u32 = 18;

// The kind of the first punctuator in the list of all; the others follow.
const FIRST_MARK: u32 = 20;

pub const MINUS: u32 = FIRST_MARK + punctuator::MINUS as u32;

pub const TIMES: u32 = FIRST_MARK + punctuator::TIMES as u32;

pub const ASSIGN: u32 = FIRST_MARK + punctuator::ASSIGN as u32;

pub const TILDE: u32 = FIRST_MARK + punctuator::TILDE as u32;

pub const COLON: u32 = FIRST_MARK + punctuator::COLON as u32;

pub const SEMICOLON: u32 = FIRST_MARK + punctuator::SEMICOLON as u32;

pub const COMMA: u32 = FIRST_MARK + punctuator::COMMA as u32;

pub const LEFT_PAREN: u32 = FIRST_MARK + punctuator::LEFT_PAREN as u32;

pub const RIGHT_PAREN: u32 = FIRST_MARK + punctuator::RIGHT_PAREN as u32;

pub const LEFT_BRACE: u32 = FIRST_MARK + punctuator::LEFT_BRACE as u32;

pub const RIGHT_BRACE: u32 = FIRST_MARK + punctuator::RIGHT_BRACE as u32;

pub const LEFT_BRACKET: u32 = FIRST_MARK + punctuator::LEFT_BRACKET as u32;

pub const RIGHT_BRACKET: u32 = FIRST_MARK + punctuator::RIGHT_BRACKET as u32;

/// What the name of a number is.
pub fn word_at(words: &[Word], number: u32) -> Word
    ensures { result ≡ word_at words.now number }
{
    match words.get(number as usize) {
        Some(word) => *word,
        None => Word::Name,
    }
}

pub fn word_kind(word: Word) -> u32
    ensures { result ≡ word_kind word }
{
    match word {
        Word::TypeName(_) => TYPE,
        Word::Constant(_) => CONSTANT,
        Word::Void => VOID,
        Word::If => IF,
        Word::Else => ELSE,
        Word::While => WHILE,
        Word::Goto => GOTO,
        Word::Return => RETURN,
        Word::Static => STATIC,
        Word::Const => CONST,
        Word::Char => CHAR,
        Word::Initialize => INITIALIZE,
        Word::InitializePointer => INITIALIZE_POINTER,
        Word::Runtime(_) | Word::Name => NAME,
    }
}

/// The kind of a token.
pub fn kind(words: &[Word], token: &Token) -> u32
    ensures { result ≡ kind words.now (plain_token token.now) }
{
    match &token.kind {
        TokenKind::Word(number) => word_kind(word_at(words, *number)),
        TokenKind::Number(_, _) => NUMBER,
        TokenKind::Chars(_) => TEXT,
        TokenKind::Mark(mark) => FIRST_MARK + *mark as u32,
        TokenKind::Head(_, _) => HEAD,
        TokenKind::Letter(_) | TokenKind::AnnotOpen | TokenKind::AnnotClose => FOREIGN,
    }
}
