//! The first word of a type, and the type after it (C99 6.7.2, 6.7.6).

ghost use Rattle.std.specs.Prelude.{◌≡◌, ◌≤◌, ◌<◌, length, IfOk, IfErr, option_map};
ghost use Rattle.grammar.specs.Syntax.{one};
ghost use Rattle.c_syntax.specs.Tokens.{plain_token_kind};
ghost use Rattle.c_model.specs.ExpressionGrammar.{StructStart, EnumStart, IntegerStart, type_start_of, type_start, type_behind};
ghost use Rattle.c_model.specs.Terminals.{placed};
ghost use Rattle.c_expr_parser.specs.Reading.{plain_base, plain_start, plain_started};
ghost use Rattle.token_reader.specs.Reading.{Gives, TakesNoMemory, plain_list};

use crate::kinds::word_at;
use crate::terminals::any_name;
use crate::types::{
    BaseType, NO_WORDS, constant, integer_type, more_words, named_type, type_words, words_with,
};
use c_model::vocabulary::{IntegerWords, Keyword, Word};
use c_syntax::fault::ReadFault;
use c_syntax::{Place, Token, TokenKind};
use token_reader::terminals::left;

/// The first word of a type.
#[derive(Clone, Copy)]
pub enum TypeStart {
    Const,
    Void,
    Struct,
    Enum,
    Name(BaseType),
    Integer(IntegerWords),
}

fn type_start_of(words: &[Word], number: u32, word: Word) -> Option<TypeStart>
    ensures { option_map plain_start result ≡ type_start_of words.now number word }
{
    match word {
        Word::TypeName(name) => Some(TypeStart::Name(named_type(number, name))),
        Word::Keyword(Keyword::Const) => Some(TypeStart::Const),
        Word::Keyword(Keyword::Void) => Some(TypeStart::Void),
        Word::Keyword(Keyword::Struct) => Some(TypeStart::Struct),
        Word::Keyword(Keyword::Enum) => Some(TypeStart::Enum),
        Word::Keyword(keyword) => match words_with(NO_WORDS, keyword) {
            Some(x) => Some(TypeStart::Integer(x)),
            None => None,
        },
        Word::Clause(_) | Word::Integer | Word::Logic(_) | Word::Name => None,
    }
}

fn start_of(words: &[Word], kind: &TokenKind) -> Option<(TypeStart, u32)>
    ensures { option_map plain_started result ≡ type_start words.now (plain_token_kind kind.now) }
{
    match kind {
        TokenKind::Word(number) => match type_start_of(words, *number, word_at(words, *number)) {
            Some(start) => Some((start, *number)),
            None => None,
        },
        _ => None,
    }
}

/// The first word of a type, with its number and its place.
pub fn type_start<'a>(
    words: &[Word],
    tokens: &'a [Token],
) -> Result<(TypeStart, u32, Place, &'a [Token]), ReadFault>
    ensures read { Gives (λ x. (((plain_start x.0, x.1), x.2), plain_list x.3.now)) result
        ((one (placed (type_start words.now))).parse (plain_list tokens.now)) }
    ensures shorter { IfOk result (λ x. length x.3.now < length tokens.now) }
    ensures sure { IfErr result TakesNoMemory }
{
    match tokens {
        [] => Err(ReadFault::At(0)),
        [token, rest @ ..] => match start_of(words, &token.kind) {
            Some((start, number)) => Ok((start, number, token.place, rest)),
            None => Err(ReadFault::At(left(tokens))),
        },
    }
}

/// `ANYNAME { "const" }`, after `struct`.
#[tactic(auto, unfolding(c_model::specs::ExpressionGrammar::type_behind))]
fn behind_struct<'a>(
    words: &[Word],
    tokens: &'a [Token],
) -> Result<(BaseType, &'a [Token]), ReadFault>
    ensures read { Gives (λ t. (plain_base t.0, plain_list t.1.now)) result ((type_behind words.now StructStart).parse (plain_list tokens.now)) }
    ensures shorter { IfOk result (λ t. length t.1.now ≤ length tokens.now) }
    ensures sure { IfErr result TakesNoMemory }
{
    let (tag, place, rest) = any_name(words, tokens)?;
    constant(words, BaseType::StructTag(tag, place), rest)
}

/// `ANYNAME { "const" }`, after `enum`.
#[tactic(auto, unfolding(c_model::specs::ExpressionGrammar::type_behind))]
fn behind_enum<'a>(
    words: &[Word],
    tokens: &'a [Token],
) -> Result<(BaseType, &'a [Token]), ReadFault>
    ensures read { Gives (λ t. (plain_base t.0, plain_list t.1.now)) result ((type_behind words.now EnumStart).parse (plain_list tokens.now)) }
    ensures shorter { IfOk result (λ t. length t.1.now ≤ length tokens.now) }
    ensures sure { IfErr result TakesNoMemory }
{
    let (tag, place, rest) = any_name(words, tokens)?;
    constant(words, BaseType::EnumTag(tag, place), rest)
}

/// More words of an integer type, and `{ "const" }`.
#[tactic(auto, unfolding(c_model::specs::ExpressionGrammar::type_behind, crate::specs::Reading::more_words))]
fn behind_word<'a>(
    words: &[Word],
    x: IntegerWords,
    tokens: &'a [Token],
) -> Result<(BaseType, &'a [Token]), ReadFault>
    ensures read { Gives (λ t. (plain_base t.0, plain_list t.1.now)) result ((type_behind words.now (IntegerStart x)).parse (plain_list tokens.now)) }
    ensures shorter { IfOk result (λ t. length t.1.now ≤ length tokens.now) }
    ensures sure { IfErr result TakesNoMemory }
{
    let (all, rest) = more_words(words, x, tokens)?;
    constant(words, BaseType::Int(integer_type(all)), rest)
}

/// The type after its first word.
#[tactic(auto, unfolding(c_model::specs::ExpressionGrammar::type_behind))]
pub fn type_behind<'a>(
    words: &[Word],
    start: TypeStart,
    tokens: &'a [Token],
) -> Result<(BaseType, &'a [Token]), ReadFault>
    ensures read { Gives (λ t. (plain_base t.0, plain_list t.1.now)) result ((type_behind words.now (plain_start start)).parse (plain_list tokens.now)) }
    ensures shorter { IfOk result (λ t. length t.1.now ≤ length tokens.now) }
    ensures sure { IfErr result TakesNoMemory }
{
    match start {
        TypeStart::Const => type_words(words, tokens),
        TypeStart::Void => constant(words, BaseType::Void, tokens),
        TypeStart::Struct => behind_struct(words, tokens),
        TypeStart::Enum => behind_enum(words, tokens),
        TypeStart::Name(t) => constant(words, t, tokens),
        TypeStart::Integer(x) => behind_word(words, x, tokens),
    }
}
