//! Single tokens, and tests of the next one.

ghost use Rattle.std.specs.Prelude.{◌≡◌, [], ◌∷◌, IfErr};
ghost use Rattle.grammar.specs.Syntax.{sees, one};
ghost use Rattle.c_syntax.specs.Tokens.{plain_token_kind};
ghost use Rattle.c_model.specs.Terminals.{placed};
ghost use Rattle.mon_syntax.specs.Grammar.{kind, first_expression, first_argument, first_statement, first_function, fixed, name, number_of, text_of};
ghost use Rattle.mon_syntax.specs.Grammar.{type_of, constant_of, is_number, is_same_name, is_head, type_of_word, constant_of_word};
ghost use Rattle.mon_parser.specs.ParsedTrees.{plain_name};
ghost use Rattle.token_reader.specs.Reading.{Gives, TakesNoMemory, plain_list};

use crate::kinds::{
    CONSTANT, GOTO, HEAD, IF, LEFT_BRACE, LEFT_PAREN, NAME, NUMBER, RETURN, TEXT, TIMES, TYPE,
    VOID, WHILE, kind, word_at, word_kind,
};
use crate::parsed::NameUse;
use c_syntax::fault::ReadFault;
use c_syntax::{Name, Place, Token, TokenKind};
use mon_syntax::{MonType, Word};
use token_reader::terminals::left;

pub fn next_is(words: &[Word], wanted: u32, tokens: &[Token]) -> bool
    ensures { result ≡ sees (kind words.now) (wanted ∷ []) (plain_list tokens.now) }
{
    match tokens {
        [] => false,
        [token, ..] => kind(words, token) == wanted,
    }
}

pub fn next_begins_expression(words: &[Word], tokens: &[Token]) -> bool
    ensures { result ≡ sees (kind words.now) first_expression (plain_list tokens.now) }
{
    match tokens {
        [] => false,
        [token, ..] => {
            let k = kind(words, token);
            k == NAME || k == CONSTANT || k == LEFT_PAREN
        }
    }
}

pub fn next_begins_argument(words: &[Word], tokens: &[Token]) -> bool
    ensures { result ≡ sees (kind words.now) first_argument (plain_list tokens.now) }
{
    match tokens {
        [] => false,
        [token, ..] => {
            let k = kind(words, token);
            k == NUMBER || k == TEXT || k == NAME || k == CONSTANT || k == LEFT_PAREN
        }
    }
}

pub fn next_begins_statement(words: &[Word], tokens: &[Token]) -> bool
    ensures { result ≡ sees (kind words.now) first_statement (plain_list tokens.now) }
{
    match tokens {
        [] => false,
        [token, ..] => {
            let k = kind(words, token);
            k == NAME
                || k == TIMES
                || k == LEFT_BRACE
                || k == IF
                || k == WHILE
                || k == GOTO
                || k == RETURN
        }
    }
}

pub fn next_begins_function(words: &[Word], tokens: &[Token]) -> bool
    ensures { result ≡ sees (kind words.now) first_function (plain_list tokens.now) }
{
    match tokens {
        [] => false,
        [token, ..] => {
            let k = kind(words, token);
            k == TYPE || k == VOID
        }
    }
}

/// A token of this kind, by its place.
pub fn skip<'a>(
    words: &[Word],
    wanted: u32,
    tokens: &'a [Token],
) -> Result<(Place, &'a [Token]), ReadFault>
    ensures read { Gives (λ x. (x.0, plain_list x.1.now)) result ((fixed words.now wanted).parse (plain_list tokens.now)) }
    ensures sure { IfErr result TakesNoMemory }
{
    match tokens {
        [] => Err(ReadFault::At(0)),
        [token, rest @ ..] => {
            if kind(words, token) == wanted {
                Ok((token.place, rest))
            } else {
                Err(ReadFault::At(left(tokens)))
            }
        }
    }
}

/// A name, or a word of the runtime.
#[tactic(auto, unfolding(mon_syntax::specs::Grammar::name))]
pub fn name<'a>(words: &[Word], tokens: &'a [Token]) -> Result<(NameUse, &'a [Token]), ReadFault>
    ensures read { Gives (λ x. (plain_name x.0, plain_list x.1.now)) result ((name words.now).parse (plain_list tokens.now)) }
    ensures sure { IfErr result TakesNoMemory }
{
    match tokens {
        [] => Err(ReadFault::At(0)),
        [token, rest @ ..] => match &token.kind {
            TokenKind::Word(number) => {
                if word_kind(word_at(words, *number)) == NAME {
                    let x = NameUse {
                        place: token.place,
                        number: *number,
                    };
                    Ok((x, rest))
                } else {
                    Err(ReadFault::At(left(tokens)))
                }
            }
            _ => Err(ReadFault::At(left(tokens))),
        },
    }
}

/// A number without a sign.
pub fn number(tokens: &[Token]) -> Result<(i128, Place, &[Token]), ReadFault>
    ensures read { Gives (λ x. ((x.0, x.1), plain_list x.2.now)) result ((one (placed number_of)).parse (plain_list tokens.now)) }
    ensures sure { IfErr result TakesNoMemory }
{
    match tokens {
        [] => Err(ReadFault::At(0)),
        [token, rest @ ..] => match &token.kind {
            TokenKind::Number(value, _) => Ok((*value, token.place, rest)),
            _ => Err(ReadFault::At(left(tokens))),
        },
    }
}

/// A string, by its bytes.
pub fn text(tokens: &[Token]) -> Result<(&Name, Place, &[Token]), ReadFault>
    ensures read { Gives (λ x. ((x.0.now, x.1), plain_list x.2.now)) result ((one (placed text_of)).parse (plain_list tokens.now)) }
    ensures sure { IfErr result TakesNoMemory }
{
    match tokens {
        [] => Err(ReadFault::At(0)),
        [token, rest @ ..] => match &token.kind {
            TokenKind::Chars(bytes) => Ok((bytes, token.place, rest)),
            _ => Err(ReadFault::At(left(tokens))),
        },
    }
}

fn type_of_word(word: Word) -> Option<MonType>
    ensures { result ≡ type_of_word word }
{
    match word {
        Word::TypeName(t) => Some(t),
        _ => None,
    }
}

fn type_of(words: &[Word], kind: &TokenKind) -> Option<MonType>
    ensures { result ≡ type_of words.now (plain_token_kind kind.now) }
{
    match kind {
        TokenKind::Word(number) => type_of_word(word_at(words, *number)),
        _ => None,
    }
}

/// The name of a type.
pub fn type_name<'a>(
    words: &[Word],
    tokens: &'a [Token],
) -> Result<(MonType, Place, &'a [Token]), ReadFault>
    ensures read { Gives (λ x. ((x.0, x.1), plain_list x.2.now)) result ((one (placed (type_of words.now))).parse (plain_list tokens.now)) }
    ensures sure { IfErr result TakesNoMemory }
{
    match tokens {
        [] => Err(ReadFault::At(0)),
        [token, rest @ ..] => match type_of(words, &token.kind) {
            Some(t) => Ok((t, token.place, rest)),
            None => Err(ReadFault::At(left(tokens))),
        },
    }
}

fn constant_of_word(word: Word) -> Option<MonType>
    ensures { result ≡ constant_of_word word }
{
    match word {
        Word::Constant(t) => Some(t),
        _ => None,
    }
}

fn constant_of(words: &[Word], kind: &TokenKind) -> Option<MonType>
    ensures { result ≡ constant_of words.now (plain_token_kind kind.now) }
{
    match kind {
        TokenKind::Word(number) => constant_of_word(word_at(words, *number)),
        _ => None,
    }
}

/// The word of a constant, by its type.
pub fn constant_word<'a>(
    words: &[Word],
    tokens: &'a [Token],
) -> Result<(MonType, Place, &'a [Token]), ReadFault>
    ensures read { Gives (λ x. ((x.0, x.1), plain_list x.2.now)) result ((one (placed (constant_of words.now))).parse (plain_list tokens.now)) }
    ensures sure { IfErr result TakesNoMemory }
{
    match tokens {
        [] => Err(ReadFault::At(0)),
        [token, rest @ ..] => match constant_of(words, &token.kind) {
            Some(t) => Ok((t, token.place, rest)),
            None => Err(ReadFault::At(left(tokens))),
        },
    }
}

/// This number, by its place.
pub fn this_number(wanted: usize, tokens: &[Token]) -> Result<(Place, &[Token]), ReadFault>
    ensures read { Gives (λ x. ((tt, x.0), plain_list x.1.now)) result ((one (placed (is_number wanted))).parse (plain_list tokens.now)) }
    ensures sure { IfErr result TakesNoMemory }
{
    match tokens {
        [] => Err(ReadFault::At(0)),
        [token, rest @ ..] => match &token.kind {
            TokenKind::Number(value, _) => {
                if *value == wanted as i128 {
                    Ok((token.place, rest))
                } else {
                    Err(ReadFault::At(left(tokens)))
                }
            }
            _ => Err(ReadFault::At(left(tokens))),
        },
    }
}

/// The name with this number, by its place.
pub fn same_name(wanted: u32, tokens: &[Token]) -> Result<(Place, &[Token]), ReadFault>
    ensures read { Gives (λ x. ((tt, x.0), plain_list x.1.now)) result ((one (placed (is_same_name wanted))).parse (plain_list tokens.now)) }
    ensures sure { IfErr result TakesNoMemory }
{
    match tokens {
        [] => Err(ReadFault::At(0)),
        [token, rest @ ..] => match &token.kind {
            TokenKind::Word(number) => {
                if *number == wanted {
                    Ok((token.place, rest))
                } else {
                    Err(ReadFault::At(left(tokens)))
                }
            }
            _ => Err(ReadFault::At(left(tokens))),
        },
    }
}

/// The head of the text, on its first line.
pub fn head<'a>(words: &[Word], tokens: &'a [Token]) -> Result<&'a [Token], ReadFault>
    ensures read { Gives (λ x. (tt, plain_list x.now)) result ((one (is_head words.now)).parse (plain_list tokens.now)) }
    ensures sure { IfErr result TakesNoMemory }
{
    match tokens {
        [] => Err(ReadFault::At(0)),
        [token, rest @ ..] => {
            if kind(words, token) == HEAD && token.place.line == 1 {
                Ok(rest)
            } else {
                Err(ReadFault::At(left(tokens)))
            }
        }
    }
}
