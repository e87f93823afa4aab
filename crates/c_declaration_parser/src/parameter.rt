//! Parameters of functions (C99 6.7.5.3).

ghost use Rattle.std.specs.Prelude.{map, false, []};
ghost use Rattle.c_syntax.specs.Statements.{plain_decl};
ghost use Rattle.c_model.specs.ExpressionGrammar.{closed};
ghost use Rattle.c_model.specs.DeclarationGrammar.{parameter_rest, void_parameter, parameter_behind, parameter, next_parameter, more_parameters};
ghost use Rattle.c_model.specs.DeclarationGrammar.{first_parameter, parameters};
ghost use Rattle.c_expr_parser.specs.Reading.{plain_base, plain_start};
ghost use Rattle.token_reader.specs.Reading.{Gives, plain_list};
ghost use Rattle.c_declaration_parser.specs.Reading.{other_parameters};

use crate::declarator::{full_abstract_dtor, is_nothing, parameter_of};
use c_expr_parser::kinds::{COMMA, RIGHT_PAREN};
use c_expr_parser::terminals::{next_is, skip};
use c_expr_parser::type_start::{TypeStart, type_behind, type_start};
use c_expr_parser::types::{BaseType, more_consts};
use c_model::vocabulary::Word;
use c_syntax::fault::ReadFault;
use c_syntax::{Decl, Place, Token};
use std::alloc::Global;
use token_reader::terminals::left;

/// What stands after the words of a parameter, whose first has this number and place.
#[tactic(auto, unfolding(c_model::specs::DeclarationGrammar::parameter_rest))]
fn parameter_rest<'a>(
    alloc: Global,
    words: &[Word],
    base: BaseType,
    number: u32,
    place: Place,
    tokens: &'a [Token],
) -> Result<(Decl, &'a [Token]), ReadFault>
    ensures { Gives (λ x. (plain_decl x.0, plain_list x.1.now)) result
        ((parameter_rest words.now (plain_base base) (number, place)).parse (plain_list tokens.now)) }
{
    let (d, rest) = full_abstract_dtor(alloc, words, tokens)?;
    Ok((parameter_of(alloc, base, number, place, d)?, rest))
}

/// A parameter after `void`, which stands at this place and isn't alone.
#[tactic(auto, unfolding(c_model::specs::DeclarationGrammar::void_parameter))]
fn void_parameter<'a>(
    alloc: Global,
    words: &[Word],
    number: u32,
    place: Place,
    tokens: &'a [Token],
) -> Result<(Decl, &'a [Token]), ReadFault>
    ensures { Gives (λ x. (plain_decl x.0, plain_list x.1.now)) result ((void_parameter words.now (number, place)).parse (plain_list tokens.now)) }
{
    let (constant, rest) = more_consts(words, false, tokens)?;
    let (d, rest) = full_abstract_dtor(alloc, words, rest)?;
    if !constant && is_nothing(&d) {
        Err(ReadFault::At(left(rest)))
    } else {
        Ok((parameter_of(alloc, BaseType::Void, number, place, d)?, rest))
    }
}

/// A parameter after its first word.
#[tactic(auto, unfolding(c_model::specs::DeclarationGrammar::parameter_behind))]
fn parameter_behind<'a>(
    alloc: Global,
    words: &[Word],
    start: TypeStart,
    number: u32,
    place: Place,
    tokens: &'a [Token],
) -> Result<(Decl, &'a [Token]), ReadFault>
    ensures { Gives (λ x. (plain_decl x.0, plain_list x.1.now)) result ((parameter_behind words.now (plain_start start) (number, place)).parse
        (plain_list tokens.now)) }
{
    match start {
        TypeStart::Void => void_parameter(alloc, words, number, place, tokens),
        TypeStart::Const
        | TypeStart::Struct
        | TypeStart::Enum
        | TypeStart::Name(_)
        | TypeStart::Integer(_) => {
            let (base, rest) = type_behind(words, start, tokens)?;
            parameter_rest(alloc, words, base, number, place, rest)
        }
    }
}

/// A parameter.
#[tactic(auto, unfolding(c_model::specs::DeclarationGrammar::parameter))]
fn parameter<'a>(
    alloc: Global,
    words: &[Word],
    tokens: &'a [Token],
) -> Result<(Decl, &'a [Token]), ReadFault>
    ensures { Gives (λ x. (plain_decl x.0, plain_list x.1.now)) result ((parameter words.now).parse (plain_list tokens.now)) }
{
    let (start, number, place, rest) = type_start(words, tokens)?;
    parameter_behind(alloc, words, start, number, place, rest)
}

/// `"," parameter`, after the parameters that are read.
#[tactic(auto, unfolding(c_model::specs::DeclarationGrammar::next_parameter))]
fn next_parameter<'a>(
    alloc: Global,
    words: &[Word],
    all: Vec<Decl>,
    tokens: &'a [Token],
) -> Result<(Vec<Decl>, &'a [Token]), ReadFault>
    ensures { Gives (λ x. (map plain_decl x.0.items, plain_list x.1.now)) result ((next_parameter words.now (map plain_decl all.items)).parse
        (plain_list tokens.now)) }
{
    let mut all = all;
    let (_, rest) = skip(words, COMMA, tokens)?;
    let (one, rest) = parameter(alloc, words, rest)?;
    all.push(one)?;
    Ok((all, rest))
}

/// The parameters after those that are read.
#[tactic(auto, using(crate::proofs::DeclarationSteps::parameters_rules))]
fn other_parameters<'a>(
    alloc: Global,
    words: &[Word],
    all: Vec<Decl>,
    tokens: &'a [Token],
) -> Result<(Vec<Decl>, &'a [Token]), ReadFault>
    ensures { Gives (λ x. (map plain_decl x.0.items, plain_list x.1.now)) result ((other_parameters words.now (map plain_decl all.items)).parse
        (plain_list tokens.now)) }
{
    let mut all = all;
    let mut rest = tokens;
    'turn: while next_is(words, COMMA, rest) {
        let (more, after) = next_parameter(alloc, words, all, rest)?;
        all = more;
        rest = after;
    }
    Ok((all, rest))
}

/// `{ "," parameter } ")"`, after the first one.
#[tactic(auto, unfolding(c_model::specs::DeclarationGrammar::more_parameters, crate::specs::Reading::other_parameters, crate::specs::Reading::closed))]
fn more_parameters<'a>(
    alloc: Global,
    words: &[Word],
    first: Decl,
    tokens: &'a [Token],
) -> Result<(Vec<Decl>, &'a [Token]), ReadFault>
    ensures { Gives (λ x. (map plain_decl x.0.items, plain_list x.1.now)) result
        ((more_parameters words.now (plain_decl first)).parse (plain_list tokens.now)) }
{
    let mut all = Vec::new(alloc);
    all.push(first)?;
    let (all, rest) = other_parameters(alloc, words, all, tokens)?;
    let (_, rest) = skip(words, RIGHT_PAREN, rest)?;
    Ok((all, rest))
}

/// `")"`, after which there are no parameters.
#[tactic(auto, unfolding(c_model::specs::ExpressionGrammar::closed))]
fn no_parameters<'a>(
    alloc: Global,
    words: &[Word],
    tokens: &'a [Token],
) -> Result<(Vec<Decl>, &'a [Token]), ReadFault>
    ensures { Gives (λ x. (map plain_decl x.0.items, plain_list x.1.now)) result ((closed words.now []).parse (plain_list tokens.now)) }
{
    let (_, rest) = skip(words, RIGHT_PAREN, tokens)?;
    Ok((Vec::new(alloc), rest))
}

/// What stands after the first word, where `void` may be all there is.
#[tactic(auto, unfolding(c_model::specs::DeclarationGrammar::first_parameter))]
fn first_parameter<'a>(
    alloc: Global,
    words: &[Word],
    start: TypeStart,
    number: u32,
    place: Place,
    tokens: &'a [Token],
) -> Result<(Vec<Decl>, &'a [Token]), ReadFault>
    ensures { Gives (λ x. (map plain_decl x.0.items, plain_list x.1.now)) result ((first_parameter words.now (plain_start start) (number, place)).parse
        (plain_list tokens.now)) }
{
    match start {
        TypeStart::Void => {
            if next_is(words, RIGHT_PAREN, tokens) {
                no_parameters(alloc, words, tokens)
            } else {
                let (one, rest) = void_parameter(alloc, words, number, place, tokens)?;
                more_parameters(alloc, words, one, rest)
            }
        }
        TypeStart::Const
        | TypeStart::Struct
        | TypeStart::Enum
        | TypeStart::Name(_)
        | TypeStart::Integer(_) => {
            let (one, rest) = parameter_behind(alloc, words, start, number, place, tokens)?;
            more_parameters(alloc, words, one, rest)
        }
    }
}

/// `parameters ")"`
#[tactic(auto, unfolding(c_model::specs::DeclarationGrammar::parameters))]
pub fn parameters<'a>(
    alloc: Global,
    words: &[Word],
    tokens: &'a [Token],
) -> Result<(Vec<Decl>, &'a [Token]), ReadFault>
    ensures { Gives (λ x. (map plain_decl x.0.items, plain_list x.1.now)) result ((parameters words.now).parse (plain_list tokens.now)) }
{
    if next_is(words, RIGHT_PAREN, tokens) {
        no_parameters(alloc, words, tokens)
    } else {
        let (start, number, place, rest) = type_start(words, tokens)?;
        first_parameter(alloc, words, start, number, place, rest)
    }
}
