//! Single tokens, and tests of the next one.

ghost use Rattle.std.specs.Prelude.{◌≡◌, ◌<◌, length, IfOk, IfErr, Ok, Err, [], ◌∷◌};
ghost use Rattle.grammar.specs.Syntax.{among, sees, one};
ghost use Rattle.c_model.specs.ExpressionGrammar.{kind, first_type, first_expression, first_any_name, first_postfix, kinds_of};
ghost use Rattle.c_model.specs.ExpressionGrammar.{fixed, name, any_name, number_of, letter_of};
ghost use Rattle.c_model.specs.Terminals.{placed};
ghost use Rattle.token_reader.specs.Reading.{Gives, TakesNoMemory, plain_list};

use crate::kinds::{
    AMPERSAND, ARROW, CHAR, CONST, DECREMENT, DOT, ENUM, EXCLAMATION, FIRST_MARK, INCREMENT,
    LEFT_BRACKET, LEFT_PAREN, LETTER, MINUS, NAME, NUMBER, PLUS, SIZEOF, STRUCT, TEXT, TILDE,
    TIMES, TYPE_NAME, UNSIGNED, VOID, kind, word_at, word_kind,
};
use c_model::vocabulary::Word;
use c_syntax::fault::ReadFault;
use c_syntax::{CInt, Place, Token, TokenKind};
use token_reader::terminals::left;

/// What was read before, with what was read after it.
pub fn kept<A: Drop, B>(before: A, after: Result<B, ReadFault>) -> Result<(A, B), ReadFault>
    ensures before { IfOk result (λ x. x.0 ≡ before) }
    ensures after { IfOk result (λ x. after ≡ Ok x.1) }
    ensures fault { IfErr result (λ e. after ≡ Err e) }
{
    match after {
        Ok(after) => Ok((before, after)),
        Err(fault) => Err(fault),
    }
}

pub fn next_is(words: &[Word], wanted: u32, tokens: &[Token]) -> bool
    ensures { result ≡ sees (kind words.now) (wanted ∷ []) (plain_list tokens.now) }
{
    match tokens {
        [] => false,
        [token, ..] => kind(words, token) == wanted,
    }
}

/// Whether a token of this kind begins a type.
pub fn begins_type(kind: u32) -> bool
    ensures { result ≡ among kind first_type }
{
    kind == CONST
        || kind == VOID
        || kind == TYPE_NAME
        || kind == STRUCT
        || kind == ENUM
        || (CHAR <= kind && kind <= UNSIGNED)
}

/// Whether a token of this kind begins an expression.
pub fn begins_expression(kind: u32) -> bool
    ensures { result ≡ among kind first_expression }
{
    kind == NAME
        || kind == NUMBER
        || kind == LETTER
        || kind == TEXT
        || kind == LEFT_PAREN
        || kind == PLUS
        || kind == MINUS
        || kind == EXCLAMATION
        || kind == TILDE
        || kind == TIMES
        || kind == AMPERSAND
        || kind == SIZEOF
        || kind == INCREMENT
        || kind == DECREMENT
}

/// Whether a postfix expression goes on with a token of this kind.
fn goes_on(kind: u32) -> bool
    ensures { result ≡ among kind first_postfix }
{
    kind == LEFT_BRACKET || kind == DOT || kind == ARROW || kind == INCREMENT || kind == DECREMENT
}

/// Whether a word of this kind names a tag or a member.
fn is_any_name(kind: u32) -> bool
    ensures { result ≡ among kind first_any_name }
{
    kind == NAME || kind == TYPE_NAME
}

pub fn next_begins_type(words: &[Word], tokens: &[Token]) -> bool
    ensures { result ≡ sees (kind words.now) first_type (plain_list tokens.now) }
{
    match tokens {
        [] => false,
        [token, ..] => begins_type(kind(words, token)),
    }
}

pub fn next_begins_expression(words: &[Word], tokens: &[Token]) -> bool
    ensures { result ≡ sees (kind words.now) first_expression (plain_list tokens.now) }
{
    match tokens {
        [] => false,
        [token, ..] => begins_expression(kind(words, token)),
    }
}

/// Whether a postfix expression goes on.
pub fn next_is_postfix(words: &[Word], tokens: &[Token]) -> bool
    ensures { result ≡ sees (kind words.now) first_postfix (plain_list tokens.now) }
{
    match tokens {
        [] => false,
        [token, ..] => goes_on(kind(words, token)),
    }
}

/// Whether the kind is that of a punctuator of the table.
fn is_in_table<T: Copy>(kind: u32, table: &[(u8, T)]) -> bool
    ensures { result ≡ among kind (kinds_of table.now) }
{
    let mut rest = table;
    'turn: while let [entry, after @ ..] = rest {
        if kind == FIRST_MARK + entry.0 as u32 {
            return true;
        }
        rest = after;
    }
    false
}

/// Whether a punctuator of the table comes next.
pub fn next_is_marked<T: Copy>(words: &[Word], table: &[(u8, T)], tokens: &[Token]) -> bool
    ensures { result ≡ sees (kind words.now) (kinds_of table.now) (plain_list tokens.now) }
{
    match tokens {
        [] => false,
        [token, ..] => is_in_table(kind(words, token), table),
    }
}

/// A token of this kind, by its place.
pub fn skip<'a>(
    words: &[Word],
    wanted: u32,
    tokens: &'a [Token],
) -> Result<(Place, &'a [Token]), ReadFault>
    ensures read { Gives (λ x. (x.0, plain_list x.1.now)) result ((fixed words.now wanted).parse (plain_list tokens.now)) }
    ensures shorter { IfOk result (λ x. length x.1.now < length tokens.now) }
    ensures sure { IfErr result TakesNoMemory }
{
    match tokens {
        [] => Err(ReadFault::At(0)),
        [token, rest @ ..] => {
            if kind(words, token) == wanted {
                Ok((token.place, rest))
            } else {
                Err(ReadFault::At(left(tokens)))
            }
        }
    }
}

/// A name, by its number.
pub fn name<'a>(words: &[Word], tokens: &'a [Token]) -> Result<(u32, Place, &'a [Token]), ReadFault>
    ensures read { Gives (λ x. ((x.0, x.1), plain_list x.2.now)) result ((name words.now).parse (plain_list tokens.now)) }
    ensures shorter { IfOk result (λ x. length x.2.now < length tokens.now) }
    ensures sure { IfErr result TakesNoMemory }
{
    match tokens {
        [] => Err(ReadFault::At(0)),
        [token, rest @ ..] => match &token.kind {
            TokenKind::Word(number) => {
                if word_kind(word_at(words, *number)) == NAME {
                    Ok((*number, token.place, rest))
                } else {
                    Err(ReadFault::At(left(tokens)))
                }
            }
            _ => Err(ReadFault::At(left(tokens))),
        },
    }
}

/// A tag or the name of a member, by its number.
pub fn any_name<'a>(
    words: &[Word],
    tokens: &'a [Token],
) -> Result<(u32, Place, &'a [Token]), ReadFault>
    ensures read { Gives (λ x. ((x.0, x.1), plain_list x.2.now)) result ((any_name words.now).parse (plain_list tokens.now)) }
    ensures shorter { IfOk result (λ x. length x.2.now < length tokens.now) }
    ensures sure { IfErr result TakesNoMemory }
{
    match tokens {
        [] => Err(ReadFault::At(0)),
        [token, rest @ ..] => match &token.kind {
            TokenKind::Word(number) => {
                if is_any_name(word_kind(word_at(words, *number))) {
                    Ok((*number, token.place, rest))
                } else {
                    Err(ReadFault::At(left(tokens)))
                }
            }
            _ => Err(ReadFault::At(left(tokens))),
        },
    }
}

/// An integer literal, by its value and type.
pub fn number(tokens: &[Token]) -> Result<(i128, Option<CInt>, Place, &[Token]), ReadFault>
    ensures read { Gives (λ x. (((x.0, x.1), x.2), plain_list x.3.now)) result ((one (placed number_of)).parse (plain_list tokens.now)) }
    ensures shorter { IfOk result (λ x. length x.3.now < length tokens.now) }
    ensures sure { IfErr result TakesNoMemory }
{
    match tokens {
        [] => Err(ReadFault::At(0)),
        [token, rest @ ..] => match &token.kind {
            TokenKind::Number(value, ctype) => Ok((*value, *ctype, token.place, rest)),
            _ => Err(ReadFault::At(left(tokens))),
        },
    }
}

/// A character literal, by its value.
pub fn letter(tokens: &[Token]) -> Result<(i8, Place, &[Token]), ReadFault>
    ensures read { Gives (λ x. ((x.0, x.1), plain_list x.2.now)) result ((one (placed letter_of)).parse (plain_list tokens.now)) }
    ensures shorter { IfOk result (λ x. length x.2.now < length tokens.now) }
    ensures sure { IfErr result TakesNoMemory }
{
    match tokens {
        [] => Err(ReadFault::At(0)),
        [token, rest @ ..] => match &token.kind {
            TokenKind::Letter(value) => Ok((*value, token.place, rest)),
            _ => Err(ReadFault::At(left(tokens))),
        },
    }
}
