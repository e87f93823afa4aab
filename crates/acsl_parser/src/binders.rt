//! Names, and the binders of quantifiers (ACSL 2.2).

ghost use Rattle.std.specs.Prelude.{◌≤◌, ◌<◌, length, IfOk};
ghost use Rattle.c_syntax.specs.Formulas.{plain_cast_type};
ghost use Rattle.c_model.specs.AnnotationGrammar.{placed_name, next_name, some_names, binder_type, binders};
ghost use Rattle.acsl_parser.specs.Reading.{more_names};
ghost use Rattle.token_reader.specs.Reading.{Gives, plain_list};

use crate::span::Read;
use crate::terminals::{INTEGER, formula_name, integer_word, next_is};
use c_expr_parser::kinds::{COMMA, ENUM, SEMICOLON, TYPE_NAME};
use c_expr_parser::terminals::{kept, skip};
use c_expr_parser::types::{ctype_of, enum_tag, integer_words, typedef_name};
use c_model::vocabulary::Word;
use c_syntax::fault::ReadFault;
use c_syntax::logic::LogicType;
use c_syntax::{Place, Token};
use std::alloc::Global;

/// Names, each at its place.
pub type Names = Vec<(Place, u32)>;

/// A name, at its place.
#[tactic(auto, unfolding(c_model::specs::AnnotationGrammar::placed_name))]
pub fn placed_name<'a>(
    words: &[Word],
    tokens: &'a [Token],
) -> Result<((Place, u32), &'a [Token]), ReadFault>
    ensures read { Gives (λ x. (x.0, plain_list x.1.now)) result ((placed_name words.now).parse (plain_list tokens.now)) }
    ensures shorter { IfOk result (λ x. length x.1.now < length tokens.now) }
{
    let (name, place, rest) = formula_name(words, tokens)?;
    Ok(((place, name), rest))
}

/// `"," NAME`, behind others.
#[tactic(auto, unfolding(c_model::specs::AnnotationGrammar::next_name))]
fn next_name<'a>(
    words: &[Word],
    all: Names,
    tokens: &'a [Token],
) -> Result<(Names, &'a [Token]), ReadFault>
    ensures read { Gives (λ x. (x.0.items, plain_list x.1.now)) result ((next_name words.now all.items).parse (plain_list tokens.now)) }
    ensures shorter { IfOk result (λ x. length x.1.now < length tokens.now) }
{
    let (all, (_, rest)) = kept(all, skip(words, COMMA, tokens))?;
    let (mut all, (name, rest)) = kept(all, placed_name(words, rest))?;
    all.push(name)?;
    Ok((all, rest))
}

/// More names, each behind a comma.
#[tactic(auto, using(crate::proofs::Turns::names_rules))]
fn more_names<'a>(
    words: &[Word],
    all: Names,
    tokens: &'a [Token],
) -> Result<(Names, &'a [Token]), ReadFault>
    ensures read { Gives (λ x. (x.0.items, plain_list x.1.now)) result ((more_names words.now all.items).parse (plain_list tokens.now)) }
    ensures shorter { IfOk result (λ x. length x.1.now ≤ length tokens.now) }
{
    let mut all = all;
    let mut rest = tokens;
    'turn: while next_is(words, COMMA, rest) {
        let (more, after) = next_name(words, all, rest)?;
        all = more;
        rest = after;
    }
    Ok((all, rest))
}

/// Names between commas.
#[tactic(auto, unfolding(c_model::specs::AnnotationGrammar::some_names, crate::specs::Reading::more_names))]
pub fn some_names<'a>(alloc: Global, words: &[Word], tokens: &'a [Token]) -> Read<'a, Names>
    ensures read { Gives (λ x. (x.0.items, plain_list x.1.now)) result ((some_names words.now).parse (plain_list tokens.now)) }
    ensures shorter { IfOk result (λ x. length x.1.now < length tokens.now) }
{
    let (first, rest) = placed_name(words, tokens)?;
    more_names(words, vec![in alloc; first]?, rest)
}

/// The type of the values that binders take.
#[tactic(auto, unfolding(c_model::specs::AnnotationGrammar::binder_type))]
fn binder_type<'a>(words: &[Word], tokens: &'a [Token]) -> Read<'a, LogicType>
    ensures read { Gives (λ x. (plain_cast_type x.0, plain_list x.1.now)) result ((binder_type words.now).parse (plain_list tokens.now)) }
    ensures shorter { IfOk result (λ x. length x.1.now < length tokens.now) }
{
    if next_is(words, INTEGER, tokens) {
        let (_, rest) = integer_word(words, tokens)?;
        Ok((LogicType::Integer, rest))
    } else if next_is(words, ENUM, tokens) {
        let (base, rest) = enum_tag(words, tokens)?;
        Ok((LogicType::Of(ctype_of(base)), rest))
    } else if next_is(words, TYPE_NAME, tokens) {
        let (base, rest) = typedef_name(words, tokens)?;
        Ok((LogicType::Of(ctype_of(base)), rest))
    } else {
        let (base, rest) = integer_words(words, tokens)?;
        Ok((LogicType::Of(ctype_of(base)), rest))
    }
}

/// The binders of a quantifier: their type, and their names.
#[tactic(auto, unfolding(c_model::specs::AnnotationGrammar::binders))]
pub fn binders<'a>(
    alloc: Global,
    words: &[Word],
    tokens: &'a [Token],
) -> Read<'a, (LogicType, Names)>
    ensures read { Gives (λ x. ((plain_cast_type x.0.0, x.0.1.items), plain_list x.1.now)) result ((binders words.now).parse (plain_list tokens.now)) }
    ensures shorter { IfOk result (λ x. length x.1.now < length tokens.now) }
{
    let (to, rest) = binder_type(words, tokens)?;
    let (to, (names, rest)) = kept(to, some_names(alloc, words, rest))?;
    let (bound, (_, rest)) = kept((to, names), skip(words, SEMICOLON, rest))?;
    Ok((bound, rest))
}
