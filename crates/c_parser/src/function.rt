//! Functions (C99 6.9.1).

ghost use Rattle.std.specs.Prelude.{◌≡◌, map, option_map};
ghost use Rattle.c_syntax.specs.Ctypes.{plain_type};
ghost use Rattle.c_syntax.specs.Statements.{plain_decl, plain_stmt};
ghost use Rattle.c_syntax.specs.Programs.{plain_contract, plain_func};
ghost use Rattle.c_model.specs.ProgramGrammar.{function_with, function_rest};
ghost use Rattle.c_expr_parser.specs.Reading.{plain_base};
ghost use Rattle.c_declaration_parser.specs.Reading.{plain_declarator};
ghost use Rattle.token_reader.specs.Reading.{Gives, plain_list};
ghost use Rattle.c_parser.specs.Reading.{plain_body, function_body, function_behind};

use crate::statement::{items, make_block};
use c_declaration_parser::declarator::{Declarator, pointers};
use c_declaration_parser::parameter::parameters;
use c_expr_parser::kinds::{LEFT_BRACE, LEFT_PAREN, RIGHT_BRACE, SEMICOLON};
use c_expr_parser::terminals::{kept, next_is, skip};
use c_expr_parser::types::BaseType;
use c_model::declarations::AnnotationState;
use c_model::vocabulary::Word;
use c_syntax::fault::ReadFault;
use c_syntax::{CType, Contract, Decl, Func, Place, Stmt, Token};
use std::alloc::Global;

/// How deep statements may stand in one another, the function's body being 1 deep.
const MOST_NESTED: u32 = 200;

/// What stands before a function's body: its result, its name with its place, its parameters, and its contract.
#[derive(Drop)]
struct Heading {
    result: CType,
    name: u32,
    place: Place,
    params: Vec<Decl>,
    contract: Option<Contract>,
}

/// A function that was read, what is read of annotations after it, and what stands behind it.
type FunctionRead<'a> = Result<(Func, AnnotationState, &'a [Token]), ReadFault>;

/// A function's body, with the place of its closing brace.
#[derive(Drop)]
pub struct Body {
    pub block: Stmt,
    pub close: Place,
}

fn make_function(heading: Heading, body: Option<Stmt>, close: Place) -> Func
    ensures { plain_func result ≡ function_with (plain_type heading.result) (heading.name, heading.place) (map plain_decl heading.params.items)
        (option_map plain_contract heading.contract) (option_map plain_stmt body) close }
{
    Func {
        place: heading.place,
        name: heading.name,
        result: heading.result,
        params: heading.params,
        contract: heading.contract,
        body,
        close,
    }
}

/// A body.
#[tactic(auto, unfolding(crate::specs::Reading::function_body))]
fn function_body<'a>(
    alloc: Global,
    words: &[Word],
    state: AnnotationState,
    tokens: &'a [Token],
) -> Result<(Body, AnnotationState, &'a [Token]), ReadFault>
    ensures { Gives (λ x. ((plain_body x.0, x.1), plain_list x.2.now)) result ((function_body words.now state).parse (plain_list tokens.now)) }
{
    let (start, rest) = skip(words, LEFT_BRACE, tokens)?;
    let none = Vec::new(alloc);
    let (all, state, rest) = items(alloc, words, MOST_NESTED - 1, none, state, rest)?;
    let (close, rest) = skip(words, RIGHT_BRACE, rest)?;
    let block = make_block(alloc, start, all)?;
    Ok((Body { block, close }, state, rest))
}

/// `";"`, or a body.
#[tactic(auto, unfolding(c_model::specs::ProgramGrammar::function_rest, crate::specs::Reading::function_body))]
fn function_rest<'a>(
    alloc: Global,
    words: &[Word],
    heading: Heading,
    state: AnnotationState,
    tokens: &'a [Token],
) -> FunctionRead<'a>
    ensures { Gives (λ x. ((plain_func x.0, x.1), plain_list x.2.now)) result
        ((function_rest words.now (plain_type heading.result) (heading.name, heading.place) (map plain_decl heading.params.items)
        (option_map plain_contract heading.contract) state).parse (plain_list tokens.now)) }
{
    if next_is(words, SEMICOLON, tokens) {
        let (close, rest) = skip(words, SEMICOLON, tokens)?;
        Ok((make_function(heading, None, close), state, rest))
    } else {
        let (body, state, rest) = function_body(alloc, words, state, tokens)?;
        let function = make_function(heading, Some(body.block), body.close);
        Ok((function, state, rest))
    }
}

/// A function or a prototype with this contract, after its stars and its name.
#[tactic(auto, unfolding(crate::specs::Reading::function_behind))]
pub fn function_behind<'a>(
    alloc: Global,
    words: &[Word],
    base: BaseType,
    d: &Declarator,
    contract: Option<Contract>,
    state: AnnotationState,
    tokens: &'a [Token],
) -> FunctionRead<'a>
    ensures { Gives (λ x. ((plain_func x.0, x.1), plain_list x.2.now)) result
        ((function_behind words.now (plain_base base) (plain_declarator d.now) (option_map plain_contract contract) state).parse
        (plain_list tokens.now)) }
{
    let (contract, (_, rest)) = kept(contract, skip(words, LEFT_PAREN, tokens))?;
    let (contract, (params, rest)) = kept(contract, parameters(alloc, words, rest))?;
    let result = pointers(alloc, base, d.stars)?;
    let heading = Heading {
        result,
        name: d.name,
        place: d.place,
        params,
        contract,
    };
    function_rest(alloc, words, heading, state, rest)
}
