//! Expressions.

ghost use Rattle.std.specs.Prelude.{◌≡◌, IfErr};
ghost use Rattle.mon_syntax.specs.Grammar.{signed_number, opened, constant, plain_operand, second_operand, negation, complement, cast};
ghost use Rattle.mon_syntax.specs.Grammar.{pointed_type, load, behind_two, behind_opened, other_expression, expression_in, expression, expression_but_name};
ghost use Rattle.mon_parser.specs.ParsedTrees.{plain_literal, plain_expr};
ghost use Rattle.mon_parser.specs.Reading.{unsigned_number, closed, right_operand, constant_value, cast_operand, load_operand};
ghost use Rattle.token_reader.specs.Reading.{Gives, TakesNoMemory, plain_list};
ghost use Rattle.mon_parser.specs.Reading.{plain_operation};

use crate::kinds::{CONSTANT, LEFT_PAREN, MINUS, NAME, RIGHT_PAREN, TILDE, TIMES, TYPE};
use crate::parsed::{Literal, ParsedExpr, ParsedExprKind};
use crate::tables::OPERATORS;
use crate::terminals::{constant_word, name, next_is, number, skip, type_name};
use c_syntax::fault::{Limit, ReadFault};
use c_syntax::{Place, Token};
use mon_syntax::{MonOp, MonType, Word};
use std::alloc::Global;
use token_reader::terminals::{left, marked};

/// How many parentheses may be open at once in an expression.
const MOST_OPEN_PARENS: u32 = 2000;

/// A parenthesis, where so many more may be opened.
#[tactic(auto, using(crate::proofs::Steps::opened_is, crate::proofs::Steps::opened_over, crate::proofs::Steps::opened_at))]
fn opened<'a>(
    words: &[Word],
    room: u32,
    tokens: &'a [Token],
) -> Result<(Place, &'a [Token]), ReadFault>
    ensures read { Gives (λ x. (x.0, plain_list x.1.now)) result ((opened words.now room).parse (plain_list tokens.now)) }
    ensures sure { IfErr result TakesNoMemory }
{
    if room > 0 {
        skip(words, LEFT_PAREN, tokens)
    } else if next_is(words, LEFT_PAREN, tokens) {
        Err(ReadFault::Over(Limit::Expression, left(tokens)))
    } else {
        Err(ReadFault::At(left(tokens)))
    }
}

/// A number, after its sign where it has one.
#[tactic(auto, unfolding(crate::specs::Reading::unsigned_number))]
fn unsigned_number<'a>(
    words: &[Word],
    negative: bool,
    tokens: &'a [Token],
) -> Result<(Literal, &'a [Token]), ReadFault>
    ensures read { Gives (λ x. (plain_literal x.0, plain_list x.1.now)) result ((unsigned_number words.now negative).parse (plain_list tokens.now)) }
    ensures sure { IfErr result TakesNoMemory }
{
    let (number, _, rest) = number(tokens)?;
    Ok((Literal { negative, number }, rest))
}

/// `[ "-" ] NUMBER`
#[tactic(auto, unfolding(mon_syntax::specs::Grammar::signed_number, crate::specs::Reading::unsigned_number))]
fn signed_number<'a>(
    words: &[Word],
    tokens: &'a [Token],
) -> Result<(Literal, &'a [Token]), ReadFault>
    ensures read { Gives (λ x. (plain_literal x.0, plain_list x.1.now)) result ((signed_number words.now).parse (plain_list tokens.now)) }
    ensures sure { IfErr result TakesNoMemory }
{
    if next_is(words, MINUS, tokens) {
        let (_, rest) = skip(words, MINUS, tokens)?;
        unsigned_number(words, true, rest)
    } else {
        unsigned_number(words, false, tokens)
    }
}

/// `")"`, after an expression.
#[tactic(auto, unfolding(crate::specs::Reading::closed))]
fn closed<'a>(
    words: &[Word],
    e: ParsedExpr,
    tokens: &'a [Token],
) -> Result<(ParsedExpr, &'a [Token]), ReadFault>
    ensures read { Gives (λ x. (plain_expr x.0, plain_list x.1.now)) result ((closed words.now (plain_expr e)).parse (plain_list tokens.now)) }
    ensures sure { IfErr result TakesNoMemory }
{
    let (_, rest) = skip(words, RIGHT_PAREN, tokens)?;
    Ok((e, rest))
}

/// `[ "-" ] NUMBER ")"`, the value of a constant of the type.
#[tactic(auto, unfolding(crate::specs::Reading::constant_value))]
fn constant_value<'a>(
    alloc: Global,
    words: &[Word],
    place: Place,
    kind: MonType,
    tokens: &'a [Token],
) -> Result<(ParsedExpr, &'a [Token]), ReadFault>
    ensures { Gives (λ x. (plain_expr x.0, plain_list x.1.now)) result ((constant_value words.now place kind).parse (plain_list tokens.now)) }
{
    let (literal, rest) = signed_number(words, tokens)?;
    let constant = ParsedExpr::new(alloc, ParsedExprKind::Constant(place, kind, literal))?;
    closed(words, constant, rest)
}

/// `CONSTANT "(" [ "-" ] NUMBER ")"`
#[tactic(auto, unfolding(mon_syntax::specs::Grammar::constant, crate::specs::Reading::constant_value, crate::specs::Reading::closed))]
#[inline(never)]
fn constant<'a>(
    alloc: Global,
    words: &[Word],
    room: u32,
    tokens: &'a [Token],
) -> Result<(ParsedExpr, &'a [Token]), ReadFault>
    ensures { Gives (λ x. (plain_expr x.0, plain_list x.1.now)) result ((constant words.now (opened words.now room)).parse (plain_list tokens.now)) }
{
    let (kind, place, rest) = constant_word(words, tokens)?;
    let (_, rest) = opened(words, room, rest)?;
    constant_value(alloc, words, place, kind, rest)
}

/// A first operand that begins with no parenthesis.
#[tactic(auto, unfolding(mon_syntax::specs::Grammar::plain_operand))]
fn plain_operand<'a>(
    alloc: Global,
    words: &[Word],
    room: u32,
    tokens: &'a [Token],
) -> Result<(ParsedExpr, &'a [Token]), ReadFault>
    ensures { Gives (λ x. (plain_expr x.0, plain_list x.1.now)) result ((plain_operand words.now (opened words.now room)).parse (plain_list tokens.now)) }
{
    if next_is(words, NAME, tokens) {
        let (x, rest) = name(words, tokens)?;
        Ok((ParsedExpr::new(alloc, ParsedExprKind::Name(x))?, rest))
    } else {
        constant(alloc, words, room, tokens)
    }
}

/// `expr ")"`, after the operator and the left operand.
#[tactic(auto, unfolding(crate::specs::Reading::right_operand))]
#[cycle(expression)]
fn right_operand<'a>(
    alloc: Global,
    words: &[Word],
    room: u32,
    left: ParsedExpr,
    place: Place,
    op: MonOp,
    tokens: &'a [Token],
) -> Result<(ParsedExpr, &'a [Token]), ReadFault>
    ensures { Gives (λ x. (plain_expr x.0, plain_list x.1.now)) result
        ((right_operand words.now (expression_in words.now room) (plain_expr left) place op).parse (plain_list tokens.now)) }
{
    let (right, rest) = expression_in(alloc, words, room, tokens)?;
    let operation = ParsedExpr::new(alloc, ParsedExprKind::Binary(place, op, left, right))?;
    closed(words, operation, rest)
}

/// `operator expr ")"`
#[tactic(auto, unfolding(mon_syntax::specs::Grammar::second_operand, crate::specs::Reading::right_operand, crate::specs::Reading::closed))]
#[cycle(expression)]
#[inline(never)]
fn second_operand<'a>(
    alloc: Global,
    words: &[Word],
    room: u32,
    left: ParsedExpr,
    tokens: &'a [Token],
) -> Result<(ParsedExpr, &'a [Token]), ReadFault>
    ensures { Gives (λ x. (plain_expr x.0, plain_list x.1.now)) result ((second_operand words.now (expression_in words.now room) (plain_expr left)).parse
        (plain_list tokens.now)) }
{
    let (op, place, rest) = marked(OPERATORS, tokens)?;
    right_operand(alloc, words, room, left, place, op, rest)
}

/// `"-" expr ")"`
#[tactic(auto, unfolding(mon_syntax::specs::Grammar::negation, crate::specs::Reading::closed))]
#[cycle(expression)]
#[inline(never)]
fn negation<'a>(
    alloc: Global,
    words: &[Word],
    room: u32,
    tokens: &'a [Token],
) -> Result<(ParsedExpr, &'a [Token]), ReadFault>
    ensures { Gives (λ x. (plain_expr x.0, plain_list x.1.now)) result ((negation words.now (expression_in words.now room)).parse (plain_list tokens.now)) }
{
    let (place, rest) = skip(words, MINUS, tokens)?;
    let (operand, rest) = expression_in(alloc, words, room, rest)?;
    let operation = ParsedExpr::new(alloc, ParsedExprKind::Minus(place, operand))?;
    closed(words, operation, rest)
}

/// `"~" expr ")"`
#[tactic(auto, unfolding(mon_syntax::specs::Grammar::complement, crate::specs::Reading::closed))]
#[cycle(expression)]
#[inline(never)]
fn complement<'a>(
    alloc: Global,
    words: &[Word],
    room: u32,
    tokens: &'a [Token],
) -> Result<(ParsedExpr, &'a [Token]), ReadFault>
    ensures { Gives (λ x. (plain_expr x.0, plain_list x.1.now)) result ((complement words.now (expression_in words.now room)).parse (plain_list tokens.now)) }
{
    let (place, rest) = skip(words, TILDE, tokens)?;
    let (operand, rest) = expression_in(alloc, words, room, rest)?;
    let operation = ParsedExpr::new(alloc, ParsedExprKind::Flip(place, operand))?;
    closed(words, operation, rest)
}

/// `expr ")"`, which is cast to the type, by the place of the parenthesis before the type's.
#[tactic(auto, unfolding(crate::specs::Reading::cast_operand))]
#[cycle(expression)]
fn cast_operand<'a>(
    alloc: Global,
    words: &[Word],
    room: u32,
    place: Place,
    kind: MonType,
    tokens: &'a [Token],
) -> Result<(ParsedExpr, &'a [Token]), ReadFault>
    ensures { Gives (λ x. (plain_expr x.0, plain_list x.1.now)) result ((cast_operand words.now (expression_in words.now room) place kind).parse
        (plain_list tokens.now)) }
{
    let (operand, rest) = expression_in(alloc, words, room, tokens)?;
    let operation = ParsedExpr::new(alloc, ParsedExprKind::Cast(place, kind, operand))?;
    closed(words, operation, rest)
}

/// `type ")" expr ")"`, by the place of the parenthesis before it.
#[tactic(auto, unfolding(mon_syntax::specs::Grammar::cast, crate::specs::Reading::cast_operand, crate::specs::Reading::closed))]
#[cycle(expression)]
fn cast<'a>(
    alloc: Global,
    words: &[Word],
    room: u32,
    place: Place,
    tokens: &'a [Token],
) -> Result<(ParsedExpr, &'a [Token]), ReadFault>
    ensures { Gives (λ x. (plain_expr x.0, plain_list x.1.now)) result ((cast words.now (expression_in words.now room) place).parse (plain_list tokens.now)) }
{
    let (kind, _, rest) = type_name(words, tokens)?;
    let (_, rest) = skip(words, RIGHT_PAREN, rest)?;
    cast_operand(alloc, words, room, place, kind, rest)
}

/// `type "*" ")"`, after the parenthesis before the type.
#[tactic(auto, unfolding(mon_syntax::specs::Grammar::pointed_type))]
pub fn pointed_type<'a>(
    words: &[Word],
    tokens: &'a [Token],
) -> Result<(MonType, &'a [Token]), ReadFault>
    ensures read { Gives (λ x. (x.0, plain_list x.1.now)) result ((pointed_type words.now).parse (plain_list tokens.now)) }
    ensures sure { IfErr result TakesNoMemory }
{
    let (kind, _, rest) = type_name(words, tokens)?;
    let (_, rest) = skip(words, TIMES, rest)?;
    let (_, rest) = skip(words, RIGHT_PAREN, rest)?;
    Ok((kind, rest))
}

/// `expr ")"`, at which a value of the type is loaded, by the place of its `*`.
#[tactic(auto, unfolding(crate::specs::Reading::load_operand))]
#[cycle(expression)]
fn load_operand<'a>(
    alloc: Global,
    words: &[Word],
    room: u32,
    place: Place,
    kind: MonType,
    tokens: &'a [Token],
) -> Result<(ParsedExpr, &'a [Token]), ReadFault>
    ensures { Gives (λ x. (plain_expr x.0, plain_list x.1.now)) result ((load_operand words.now (expression_in words.now room) place kind).parse
        (plain_list tokens.now)) }
{
    let (operand, rest) = expression_in(alloc, words, room, tokens)?;
    let operation = ParsedExpr::new(alloc, ParsedExprKind::Load(place, kind, operand))?;
    closed(words, operation, rest)
}

/// `"*" "(" type "*" ")" expr ")"`
#[tactic(auto, unfolding(mon_syntax::specs::Grammar::load, crate::specs::Reading::load_operand, crate::specs::Reading::closed))]
#[cycle(expression)]
#[inline(never)]
fn load<'a>(
    alloc: Global,
    words: &[Word],
    room: u32,
    tokens: &'a [Token],
) -> Result<(ParsedExpr, &'a [Token]), ReadFault>
    ensures { Gives (λ x. (plain_expr x.0, plain_list x.1.now)) result ((load words.now (opened words.now room) (expression_in words.now room)).parse
        (plain_list tokens.now)) }
{
    let (place, rest) = skip(words, TIMES, tokens)?;
    let (_, rest) = opened(words, room, rest)?;
    let (kind, rest) = pointed_type(words, rest)?;
    load_operand(alloc, words, room, place, kind, rest)
}

/// What stands after two parentheses: a cast, or a first operand that begins with the second of them.
#[tactic(auto, unfolding(mon_syntax::specs::Grammar::behind_two))]
#[cycle(expression)]
#[inline(never)]
fn behind_two<'a>(
    alloc: Global,
    words: &[Word],
    room: u32,
    place: Place,
    tokens: &'a [Token],
) -> Result<(ParsedExpr, &'a [Token]), ReadFault>
    ensures { Gives (λ x. (plain_expr x.0, plain_list x.1.now)) result
        ((behind_two words.now (expression_in words.now room) (behind_opened words.now room) place).parse (plain_list tokens.now)) }
{
    if next_is(words, TYPE, tokens) {
        cast(alloc, words, room, place, tokens)
    } else {
        let (left, rest) = behind_opened(alloc, words, room, tokens)?;
        second_operand(alloc, words, room, left, rest)
    }
}

/// A first operand that begins with no parenthesis, and what stands after it.
#[tactic(auto, unfolding(crate::specs::Reading::plain_operation))]
#[cycle(expression)]
fn plain_operation<'a>(
    alloc: Global,
    words: &[Word],
    room: u32,
    tokens: &'a [Token],
) -> Result<(ParsedExpr, &'a [Token]), ReadFault>
    ensures { Gives (λ x. (plain_expr x.0, plain_list x.1.now)) result ((plain_operation words.now (opened words.now room) (expression_in words.now room)).parse
        (plain_list tokens.now)) }
{
    let (left, rest) = plain_operand(alloc, words, room, tokens)?;
    second_operand(alloc, words, room, left, rest)
}

/// What stands after a parenthesis that was opened where so many more might be, up to its end.
#[tactic(auto, using(crate::proofs::Steps::behind_rules), unfolding(crate::specs::Reading::behind_in_parts))]
#[cycle(expression)]
fn behind_opened<'a>(
    alloc: Global,
    words: &[Word],
    room: u32,
    tokens: &'a [Token],
) -> Result<(ParsedExpr, &'a [Token]), ReadFault>
    ensures { Gives (λ x. (plain_expr x.0, plain_list x.1.now)) result ((behind_opened words.now room).parse (plain_list tokens.now)) }
{
    if room == 0 {
        return Err(ReadFault::At(left(tokens)));
    }
    let room = room - 1;
    if next_is(words, MINUS, tokens) {
        negation(alloc, words, room, tokens)
    } else if next_is(words, TILDE, tokens) {
        complement(alloc, words, room, tokens)
    } else if next_is(words, TIMES, tokens) {
        load(alloc, words, room, tokens)
    } else if next_is(words, LEFT_PAREN, tokens) {
        let (place, rest) = opened(words, room, tokens)?;
        behind_two(alloc, words, room, place, rest)
    } else {
        plain_operation(alloc, words, room, tokens)
    }
}

/// An expression that is no name, in which so many parentheses may be open at once.
#[tactic(auto, unfolding(mon_syntax::specs::Grammar::other_expression))]
#[cycle(expression)]
fn other_expression<'a>(
    alloc: Global,
    words: &[Word],
    room: u32,
    tokens: &'a [Token],
) -> Result<(ParsedExpr, &'a [Token]), ReadFault>
    ensures { Gives (λ x. (plain_expr x.0, plain_list x.1.now)) result
        ((other_expression words.now (opened words.now room) (behind_opened words.now room)).parse (plain_list tokens.now)) }
{
    if next_is(words, CONSTANT, tokens) {
        constant(alloc, words, room, tokens)
    } else {
        let (_, rest) = opened(words, room, tokens)?;
        behind_opened(alloc, words, room, rest)
    }
}

/// An expression in which so many parentheses may be open at once.
#[tactic(auto, unfolding(mon_syntax::specs::Grammar::expression_in, mon_syntax::specs::Grammar::expression_with))]
#[cycle(expression)]
fn expression_in<'a>(
    alloc: Global,
    words: &[Word],
    room: u32,
    tokens: &'a [Token],
) -> Result<(ParsedExpr, &'a [Token]), ReadFault>
    ensures { Gives (λ x. (plain_expr x.0, plain_list x.1.now)) result ((expression_in words.now room).parse (plain_list tokens.now)) }
{
    if next_is(words, NAME, tokens) {
        let (x, rest) = name(words, tokens)?;
        Ok((ParsedExpr::new(alloc, ParsedExprKind::Name(x))?, rest))
    } else {
        other_expression(alloc, words, room, tokens)
    }
}

/// An expression.
#[tactic(auto, unfolding(mon_syntax::specs::Grammar::expression))]
pub fn expression<'a>(
    alloc: Global,
    words: &[Word],
    tokens: &'a [Token],
) -> Result<(ParsedExpr, &'a [Token]), ReadFault>
    ensures { Gives (λ x. (plain_expr x.0, plain_list x.1.now)) result ((expression words.now).parse (plain_list tokens.now)) }
{
    expression_in(alloc, words, MOST_OPEN_PARENS, tokens)
}

/// An expression that is no name.
#[tactic(auto, unfolding(mon_syntax::specs::Grammar::expression_but_name))]
pub fn expression_but_name<'a>(
    alloc: Global,
    words: &[Word],
    tokens: &'a [Token],
) -> Result<(ParsedExpr, &'a [Token]), ReadFault>
    ensures { Gives (λ x. (plain_expr x.0, plain_list x.1.now)) result ((expression_but_name words.now).parse (plain_list tokens.now)) }
{
    other_expression(alloc, words, MOST_OPEN_PARENS, tokens)
}
