//! Functions, and the whole text.

ghost use Rattle.std.specs.Prelude.{◌≡◌, map, IfErr};
ghost use Rattle.mon_syntax.specs.Grammar.{parsed_list, register, parameter, next_parameter, some_parameters, parameters, function_body, function};
ghost use Rattle.mon_syntax.specs.Grammar.{one_more_function, text};
ghost use Rattle.mon_syntax.specs.Grammar as form;
ghost use Rattle.mon_parser.specs.ParsedTrees.{plain_name, plain_stmt, plain_register, plain_func, plain_program};
ghost use Rattle.mon_parser.specs.Reading.{more_registers, more_parameters, more_functions, more_globals, named_register, register_end};
ghost use Rattle.token_reader.specs.Reading.{Gives, TakesNoMemory, plain_list};
ghost use Rattle.mon_parser.specs.Reading.{one_more_parameter, function_rest, function_statements};

use crate::global::more_globals;
use crate::kinds::{
    COMMA, LEFT_BRACE, LEFT_PAREN, RIGHT_BRACE, RIGHT_PAREN, SEMICOLON, TYPE, VOID,
};
use crate::parsed::{NameUse, ParsedFunc, ParsedProgram, ParsedRegister, ParsedStmt};
use crate::statement::more_statements;
use crate::terminals::{head, name, next_begins_function, next_is, skip, type_name};
use c_syntax::Token;
use c_syntax::fault::ReadFault;
use mon_syntax::{MonType, Word};
use std::alloc::Global;

/// How deep statements may stand in one another, the function's body being 1 deep.
const MOST_NESTED: u32 = 2000;

/// `";"`, after a register that comes after those that are read.
#[tactic(auto, unfolding(crate::specs::Reading::register_end))]
fn register_end<'a>(
    words: &[Word],
    all: Vec<ParsedRegister>,
    one: ParsedRegister,
    tokens: &'a [Token],
) -> Result<(Vec<ParsedRegister>, &'a [Token]), ReadFault>
    ensures { Gives (λ x. (map plain_register x.0.items, plain_list x.1.now)) result
        ((register_end words.now (map plain_register all.items) (plain_register one)).parse (plain_list tokens.now)) }
{
    let mut all = all;
    let (_, rest) = skip(words, SEMICOLON, tokens)?;
    all.push(one)?;
    Ok((all, rest))
}

/// `NAME ";"`, a register of the type after those that are read.
#[tactic(auto, unfolding(crate::specs::Reading::named_register, crate::specs::Reading::register_end))]
fn named_register<'a>(
    words: &[Word],
    all: Vec<ParsedRegister>,
    kind: MonType,
    tokens: &'a [Token],
) -> Result<(Vec<ParsedRegister>, &'a [Token]), ReadFault>
    ensures { Gives (λ x. (map plain_register x.0.items, plain_list x.1.now)) result ((named_register words.now (map plain_register all.items) kind).parse
        (plain_list tokens.now)) }
{
    let (name, rest) = name(words, tokens)?;
    register_end(words, all, ParsedRegister { kind, name }, rest)
}

/// `type NAME ";"`, after those that are read.
#[tactic(auto, unfolding(mon_syntax::specs::Grammar::register, crate::specs::Reading::named_register, crate::specs::Reading::register_end))]
fn register<'a>(
    words: &[Word],
    all: Vec<ParsedRegister>,
    tokens: &'a [Token],
) -> Result<(Vec<ParsedRegister>, &'a [Token]), ReadFault>
    ensures { Gives (λ x. (map plain_register x.0.items, plain_list x.1.now)) result
        ((register words.now (map plain_register all.items)).parse (plain_list tokens.now)) }
{
    let (kind, _, rest) = type_name(words, tokens)?;
    named_register(words, all, kind, rest)
}

/// The registers after those that are read.
#[tactic(auto, using(crate::proofs::Steps::registers_rules))]
fn more_registers<'a>(
    words: &[Word],
    all: Vec<ParsedRegister>,
    tokens: &'a [Token],
) -> Result<(Vec<ParsedRegister>, &'a [Token]), ReadFault>
    ensures { Gives (λ x. (map plain_register x.0.items, plain_list x.1.now)) result ((more_registers words.now (map plain_register all.items)).parse
        (plain_list tokens.now)) }
{
    let mut all = all;
    let mut rest = tokens;
    'turn: while next_is(words, TYPE, rest) {
        let (more, after) = register(words, all, rest)?;
        all = more;
        rest = after;
    }
    Ok((all, rest))
}

/// `type | "void"`
#[tactic(auto, unfolding(mon_syntax::specs::Grammar::result))]
fn result_type<'a>(
    words: &[Word],
    tokens: &'a [Token],
) -> Result<(Option<MonType>, &'a [Token]), ReadFault>
    ensures read { Gives (λ x. (x.0, plain_list x.1.now)) result ((form.result words.now).parse (plain_list tokens.now)) }
    ensures sure { IfErr result TakesNoMemory }
{
    if next_is(words, TYPE, tokens) {
        let (t, _, rest) = type_name(words, tokens)?;
        Ok((Some(t), rest))
    } else {
        let (_, rest) = skip(words, VOID, tokens)?;
        Ok((None, rest))
    }
}

/// `type NAME`
#[tactic(auto, unfolding(mon_syntax::specs::Grammar::parameter))]
fn parameter<'a>(
    words: &[Word],
    tokens: &'a [Token],
) -> Result<(ParsedRegister, &'a [Token]), ReadFault>
    ensures read { Gives (λ x. (plain_register x.0, plain_list x.1.now)) result ((parameter words.now).parse (plain_list tokens.now)) }
    ensures sure { IfErr result TakesNoMemory }
{
    let (kind, _, rest) = type_name(words, tokens)?;
    let (name, rest) = name(words, rest)?;
    Ok((ParsedRegister { kind, name }, rest))
}

/// A parameter after those that are read.
#[tactic(auto, unfolding(crate::specs::Reading::one_more_parameter))]
fn one_more_parameter<'a>(
    words: &[Word],
    all: Vec<ParsedRegister>,
    tokens: &'a [Token],
) -> Result<(Vec<ParsedRegister>, &'a [Token]), ReadFault>
    ensures { Gives (λ x. (map plain_register x.0.items, plain_list x.1.now)) result ((one_more_parameter words.now (map plain_register all.items)).parse
        (plain_list tokens.now)) }
{
    let mut all = all;
    let (one, rest) = parameter(words, tokens)?;
    all.push(one)?;
    Ok((all, rest))
}

/// `"," parameter`, after those that are read.
#[tactic(auto, unfolding(mon_syntax::specs::Grammar::next_parameter, crate::specs::Reading::one_more_parameter))]
fn next_parameter<'a>(
    words: &[Word],
    all: Vec<ParsedRegister>,
    tokens: &'a [Token],
) -> Result<(Vec<ParsedRegister>, &'a [Token]), ReadFault>
    ensures { Gives (λ x. (map plain_register x.0.items, plain_list x.1.now)) result ((next_parameter words.now (map plain_register all.items)).parse
        (plain_list tokens.now)) }
{
    let (_, rest) = skip(words, COMMA, tokens)?;
    one_more_parameter(words, all, rest)
}

/// The parameters after those that are read.
#[tactic(auto, using(crate::proofs::Steps::parameters_rules))]
fn more_parameters<'a>(
    words: &[Word],
    all: Vec<ParsedRegister>,
    tokens: &'a [Token],
) -> Result<(Vec<ParsedRegister>, &'a [Token]), ReadFault>
    ensures { Gives (λ x. (map plain_register x.0.items, plain_list x.1.now)) result ((more_parameters words.now (map plain_register all.items)).parse
        (plain_list tokens.now)) }
{
    let mut all = all;
    let mut rest = tokens;
    'turn: while next_is(words, COMMA, rest) {
        let (more, after) = next_parameter(words, all, rest)?;
        all = more;
        rest = after;
    }
    Ok((all, rest))
}

/// `parameter { "," parameter }`
#[tactic(auto, unfolding(mon_syntax::specs::Grammar::some_parameters, crate::specs::Reading::more_parameters))]
fn some_parameters<'a>(
    alloc: Global,
    words: &[Word],
    tokens: &'a [Token],
) -> Result<(Vec<ParsedRegister>, &'a [Token]), ReadFault>
    ensures { Gives (λ x. (map plain_register x.0.items, plain_list x.1.now)) result ((some_parameters words.now).parse (plain_list tokens.now)) }
{
    let (first, rest) = parameter(words, tokens)?;
    let mut all = Vec::new(alloc);
    all.push(first)?;
    more_parameters(words, all, rest)
}

/// `"void"`, or parameters.
#[tactic(auto, unfolding(mon_syntax::specs::Grammar::parameters))]
fn parameters<'a>(
    alloc: Global,
    words: &[Word],
    tokens: &'a [Token],
) -> Result<(Vec<ParsedRegister>, &'a [Token]), ReadFault>
    ensures { Gives (λ x. (map plain_register x.0.items, plain_list x.1.now)) result ((parameters words.now).parse (plain_list tokens.now)) }
{
    if next_is(words, VOID, tokens) {
        let (_, rest) = skip(words, VOID, tokens)?;
        Ok((Vec::new(alloc), rest))
    } else {
        some_parameters(alloc, words, tokens)
    }
}

#[tactic(auto, using(crate::proofs::Rows::list_is))]
fn make_function(
    returned: Option<MonType>,
    name: NameUse,
    parameters: Vec<ParsedRegister>,
    registers: Vec<ParsedRegister>,
    body: Vec<ParsedStmt>,
) -> ParsedFunc
    ensures { plain_func result ≡ record {
      result = returned;
      name = plain_name name;
      parameters = map plain_register parameters.items;
      registers =
          map plain_register registers.items;
      body = parsed_list (map plain_stmt body.items);
    } }
{
    ParsedFunc {
        result: returned,
        name,
        parameters,
        registers,
        body,
    }
}

/// The statements of a function with this result, name, parameters and registers.
#[tactic(auto, unfolding(crate::specs::Reading::function_statements))]
fn function_statements<'a>(
    alloc: Global,
    words: &[Word],
    returned: Option<MonType>,
    name: NameUse,
    parameters: Vec<ParsedRegister>,
    registers: Vec<ParsedRegister>,
    tokens: &'a [Token],
) -> Result<(ParsedFunc, &'a [Token]), ReadFault>
    ensures { Gives (λ x. (plain_func x.0, plain_list x.1.now)) result
        ((function_statements words.now returned (plain_name name) (map plain_register parameters.items) (map plain_register registers.items)).parse
        (plain_list tokens.now)) }
{
    let (body, rest) = more_statements(alloc, words, MOST_NESTED - 1, Vec::new(alloc), tokens)?;
    let (_, rest) = skip(words, RIGHT_BRACE, rest)?;
    let function = make_function(returned, name, parameters, registers, body);
    Ok((function, rest))
}

/// The body of a function with this result, name and parameters.
#[tactic(auto, using(crate::proofs::Steps::body_is), unfolding(crate::specs::Reading::body_in_parts))]
fn function_body<'a>(
    alloc: Global,
    words: &[Word],
    returned: Option<MonType>,
    name: NameUse,
    parameters: Vec<ParsedRegister>,
    tokens: &'a [Token],
) -> Result<(ParsedFunc, &'a [Token]), ReadFault>
    ensures { Gives (λ x. (plain_func x.0, plain_list x.1.now)) result
        ((function_body words.now returned (plain_name name) (map plain_register parameters.items)).parse (plain_list tokens.now)) }
{
    let (_, rest) = skip(words, LEFT_BRACE, tokens)?;
    let (registers, rest) = more_registers(words, Vec::new(alloc), rest)?;
    function_statements(alloc, words, returned, name, parameters, registers, rest)
}

/// A function after its result and its name.
#[tactic(auto, unfolding(crate::specs::Reading::function_rest))]
fn function_rest<'a>(
    alloc: Global,
    words: &[Word],
    returned: Option<MonType>,
    name: NameUse,
    tokens: &'a [Token],
) -> Result<(ParsedFunc, &'a [Token]), ReadFault>
    ensures { Gives (λ x. (plain_func x.0, plain_list x.1.now)) result ((function_rest words.now returned (plain_name name)).parse (plain_list tokens.now)) }
{
    let (_, rest) = skip(words, LEFT_PAREN, tokens)?;
    let (parameters, rest) = parameters(alloc, words, rest)?;
    let (_, rest) = skip(words, RIGHT_PAREN, rest)?;
    function_body(alloc, words, returned, name, parameters, rest)
}

#[tactic(auto, unfolding(mon_syntax::specs::Grammar::function, crate::specs::Reading::function_rest))]
fn function<'a>(
    alloc: Global,
    words: &[Word],
    tokens: &'a [Token],
) -> Result<(ParsedFunc, &'a [Token]), ReadFault>
    ensures { Gives (λ x. (plain_func x.0, plain_list x.1.now)) result ((function words.now).parse (plain_list tokens.now)) }
{
    let (returned, rest) = result_type(words, tokens)?;
    let (name, rest) = name(words, rest)?;
    function_rest(alloc, words, returned, name, rest)
}

/// A function after those that are read.
#[tactic(auto, unfolding(mon_syntax::specs::Grammar::one_more_function))]
fn one_more_function<'a>(
    alloc: Global,
    words: &[Word],
    all: Vec<ParsedFunc>,
    tokens: &'a [Token],
) -> Result<(Vec<ParsedFunc>, &'a [Token]), ReadFault>
    ensures { Gives (λ x. (map plain_func x.0.items, plain_list x.1.now)) result ((one_more_function words.now (map plain_func all.items)).parse
        (plain_list tokens.now)) }
{
    let mut all = all;
    let (one, rest) = function(alloc, words, tokens)?;
    all.push(one)?;
    Ok((all, rest))
}

/// The functions after those that are read.
#[tactic(auto, using(crate::proofs::Steps::functions_rules))]
fn more_functions<'a>(
    alloc: Global,
    words: &[Word],
    all: Vec<ParsedFunc>,
    tokens: &'a [Token],
) -> Result<(Vec<ParsedFunc>, &'a [Token]), ReadFault>
    ensures { Gives (λ x. (map plain_func x.0.items, plain_list x.1.now)) result ((more_functions words.now (map plain_func all.items)).parse
        (plain_list tokens.now)) }
{
    let mut all = all;
    let mut rest = tokens;
    'turn: while next_begins_function(words, rest) {
        let (more, after) = one_more_function(alloc, words, all, rest)?;
        all = more;
        rest = after;
    }
    Ok((all, rest))
}

/// The head, the globals and the functions, as far as they go.
#[tactic(auto, using(crate::proofs::Steps::text_is), unfolding(crate::specs::Reading::text_in_parts))]
pub fn text<'a>(
    alloc: Global,
    words: &[Word],
    tokens: &'a [Token],
) -> Result<(ParsedProgram, &'a [Token]), ReadFault>
    ensures { Gives (λ x. (plain_program x.0, plain_list x.1.now)) result ((text words.now).parse (plain_list tokens.now)) }
{
    let rest = head(words, tokens)?;
    let (globals, rest) = more_globals(alloc, words, Vec::new(alloc), rest)?;
    let (functions, rest) = more_functions(alloc, words, Vec::new(alloc), rest)?;
    Ok((ParsedProgram { globals, functions }, rest))
}
