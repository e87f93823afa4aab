//! Expressions (C99 6.5).

ghost use Rattle.std.specs.Prelude.{◌≡◌, ◌≤◌, ◌<◌, length, map, IfOk};
ghost use Rattle.c_syntax.specs.Ctypes.{plain_type, plain_length};
ghost use Rattle.c_syntax.specs.Expressions.{plain_expr};
ghost use Rattle.c_model.specs.declared.operands.Level.TheVariants.{Assignment, Conditional};
ghost use Rattle.c_model.specs.ExpressionGrammar.{written_length, bracket, brackets, type_name, indexed, postfix_once, postfix_rest};
ghost use Rattle.c_model.specs.ExpressionGrammar.{cast_rest, sized_type, paren_rest, behind_paren, prefixed, sized, bump_first, operand_but_name};
ghost use Rattle.c_model.specs.ExpressionGrammar.{next_argument, arguments, call_rest, behind_variable, operand, joined_once, behind_operand, choice_rest};
ghost use Rattle.c_model.specs.ExpressionGrammar.{conditional_rest, assigned, behind_unary, behind_form, next_part};
ghost use Rattle.c_model.specs.ExpressionGrammar.{expression_at, expression};
ghost use Rattle.c_expr_parser.specs.Reading.{plain_operand, plain_brackets, more_brackets, right_operand, more_joined, more_arguments, more_parts};
ghost use Rattle.token_reader.specs.Reading.{Gives, plain_list};

use crate::declarator::{Bracket, declared_type, pushed};
use crate::kinds::{
    ARROW, COLON, COMMA, DOT, LEFT_BRACKET, LEFT_PAREN, NAME, QUESTION, RIGHT_BRACKET, RIGHT_PAREN,
    SIZEOF,
};
use crate::parts::{
    ReadOperand, arrowed, bumped, dotted, joined, literal, make_call, next_is_operator, operator,
    read_name, size_of_operand, with_expression, with_operand,
};
use crate::tables::{ASSIGNMENTS, LEVELS, PREFIX_BUMPS, UNARY};
use crate::terminals::{
    kept, name, next_begins_expression, next_begins_type, next_is, next_is_marked, next_is_postfix,
    skip,
};
use crate::types::{star_words, type_words};
use c_model::operands::{Form, Level, TypeUse};
use c_model::vocabulary::Word;
use c_syntax::fault::ReadFault;
use c_syntax::{CType, Expr, ExprKind, Length, Place, Token};
use smallvec::SmallVec;
use std::alloc::Global;
use token_reader::terminals::marked;

/// An expression as the length of an array.
#[tactic(auto, unfolding(c_model::specs::ExpressionGrammar::written_length))]
#[cycle(expression)]
pub fn written_length<'a>(
    alloc: Global,
    words: &[Word],
    tokens: &'a [Token],
) -> Result<(Length, &'a [Token]), ReadFault>
    ensures read { Gives (λ x. (plain_length x.0, plain_list x.1.now)) result
        ((written_length words.now (expression words.now)).parse (plain_list tokens.now)) }
    ensures shorter { IfOk result (λ x. length x.1.now < length tokens.now) }
{
    let (e, rest) = expression(alloc, words, tokens)?;
    Ok((Length::Written(Box::new(alloc, e)?), rest))
}

/// `"[" comma "]"`
#[tactic(auto, unfolding(c_model::specs::ExpressionGrammar::bracket))]
#[cycle(expression)]
fn written_bracket<'a>(
    alloc: Global,
    words: &[Word],
    tokens: &'a [Token],
) -> Result<(Bracket, &'a [Token]), ReadFault>
    ensures read { Gives (λ x. (plain_length x.0.length, plain_list x.1.now)) result
        ((bracket words.now (written_length words.now (expression words.now))).parse (plain_list tokens.now)) }
    ensures shorter { IfOk result (λ x. length x.1.now < length tokens.now) }
{
    let (_, rest) = skip(words, LEFT_BRACKET, tokens)?;
    let (length, rest) = written_length(alloc, words, rest)?;
    let (length, (_, rest)) = kept(length, skip(words, RIGHT_BRACKET, rest))?;
    Ok((Bracket { length }, rest))
}

/// `{ "[" comma "]" }`
#[tactic(auto, using(crate::proofs::BracketTurns::written_rules))]
#[cycle(expression)]
fn written_brackets<'a>(
    alloc: Global,
    words: &[Word],
    tokens: &'a [Token],
) -> Result<(SmallVec<Bracket, 4>, &'a [Token]), ReadFault>
    ensures read { Gives (λ x. (plain_brackets x.0.items, plain_list x.1.now)) result
        ((brackets words.now (written_length words.now (expression words.now))).parse (plain_list tokens.now)) }
    ensures shorter { IfOk result (λ x. length x.1.now ≤ length tokens.now) }
{
    let mut all = SmallVec::new(alloc);
    let mut rest = tokens;
    'turn: while next_is(words, LEFT_BRACKET, rest) {
        let (before, (bracket, after)) = kept(all, written_bracket(alloc, words, rest))?;
        all = pushed(before, bracket)?;
        rest = after;
    }
    Ok((all, rest))
}

/// The type of a cast or of `sizeof`.
#[tactic(auto, unfolding(c_model::specs::ExpressionGrammar::type_name))]
#[cycle(expression)]
pub fn type_name<'a>(
    alloc: Global,
    words: &[Word],
    tokens: &'a [Token],
) -> Result<(CType, &'a [Token]), ReadFault>
    ensures read { Gives (λ t. (plain_type t.0, plain_list t.1.now)) result
        ((type_name words.now (expression words.now)).parse (plain_list tokens.now)) }
    ensures shorter { IfOk result (λ t. length t.1.now < length tokens.now) }
{
    let (base, rest) = type_words(words, tokens)?;
    let (stars, rest) = star_words(words, rest)?;
    let (brackets, rest) = written_brackets(alloc, words, rest)?;
    Ok((declared_type(alloc, base, stars, brackets)?, rest))
}

/// `"[" comma "]"`, after a postfix expression.
#[tactic(auto, unfolding(c_model::specs::ExpressionGrammar::indexed))]
#[cycle(expression)]
fn indexed<'a>(
    alloc: Global,
    words: &[Word],
    x: Expr,
    tokens: &'a [Token],
) -> Result<(Expr, &'a [Token]), ReadFault>
    ensures read { Gives (λ x. (plain_expr x.0, plain_list x.1.now)) result
        ((indexed words.now (expression words.now) (plain_expr x)).parse (plain_list tokens.now)) }
    ensures shorter { IfOk result (λ x. length x.1.now < length tokens.now) }
{
    let (x, (place, rest)) = kept(x, skip(words, LEFT_BRACKET, tokens))?;
    let (x, (index, rest)) = kept(x, expression(alloc, words, rest))?;
    let ((x, index), (_, rest)) = kept((x, index), skip(words, RIGHT_BRACKET, rest))?;
    with_expression(alloc, place, ExprKind::Index(x, index), rest)
}

/// One postfix operator, after its operand.
#[tactic(auto, unfolding(c_model::specs::ExpressionGrammar::postfix_once))]
#[cycle(expression)]
fn postfix_once<'a>(
    alloc: Global,
    words: &[Word],
    x: Expr,
    tokens: &'a [Token],
) -> Result<(Expr, &'a [Token]), ReadFault>
    ensures read { Gives (λ x. (plain_expr x.0, plain_list x.1.now)) result
        ((postfix_once words.now (expression words.now) (plain_expr x)).parse (plain_list tokens.now)) }
    ensures shorter { IfOk result (λ x. length x.1.now < length tokens.now) }
{
    if next_is(words, LEFT_BRACKET, tokens) {
        indexed(alloc, words, x, tokens)
    } else if next_is(words, DOT, tokens) {
        dotted(alloc, words, x, tokens)
    } else if next_is(words, ARROW, tokens) {
        arrowed(alloc, words, x, tokens)
    } else {
        bumped(alloc, words, x, tokens)
    }
}

/// The rest of a postfix expression, after its primary one or a call, with the place of its first token.
#[tactic(auto, using(crate::proofs::PostfixTurns::postfix_rules))]
#[cycle(expression)]
pub fn postfix_rest<'a>(
    alloc: Global,
    words: &[Word],
    first: Place,
    x: Expr,
    tokens: &'a [Token],
) -> Result<(ReadOperand, &'a [Token]), ReadFault>
    ensures read { Gives (λ x. (plain_operand x.0, plain_list x.1.now)) result
        ((postfix_rest words.now (expression words.now) first (plain_expr x)).parse (plain_list tokens.now)) }
    ensures shorter { IfOk result (λ x. length x.1.now ≤ length tokens.now) }
{
    let mut x = x;
    let mut rest = tokens;
    'turn: while next_is_postfix(words, rest) {
        let (more, after) = postfix_once(alloc, words, x, rest)?;
        x = more;
        rest = after;
    }
    let operand = ReadOperand {
        expression: x,
        form: Form::Postfix,
        first,
    };
    Ok((operand, rest))
}

/// `type ")"`, after `sizeof (`.
#[tactic(auto, unfolding(c_model::specs::ExpressionGrammar::sized_type, c_model::specs::ExpressionGrammar::closed))]
#[cycle(expression)]
fn sized_type<'a>(
    alloc: Global,
    words: &[Word],
    place: Place,
    tokens: &'a [Token],
) -> Result<(ReadOperand, &'a [Token]), ReadFault>
    ensures read { Gives (λ x. (plain_operand x.0, plain_list x.1.now)) result
        ((sized_type words.now (expression words.now) place).parse (plain_list tokens.now)) }
    ensures shorter { IfOk result (λ x. length x.1.now < length tokens.now) }
{
    let (t, rest) = type_name(alloc, words, tokens)?;
    let (t, (_, rest)) = kept(t, skip(words, RIGHT_PAREN, rest))?;
    with_operand(alloc, place, ExprKind::SizeOfType(t), Form::TypeName, rest)
}

/// `type ")" cast`, after `(`.
#[tactic(auto, unfolding(c_model::specs::ExpressionGrammar::cast_rest))]
#[cycle(expression)]
fn cast_rest<'a>(
    alloc: Global,
    words: &[Word],
    place: Place,
    tokens: &'a [Token],
) -> Result<(ReadOperand, &'a [Token]), ReadFault>
    ensures read { Gives (λ x. (plain_operand x.0, plain_list x.1.now)) result
        ((cast_rest words.now (expression words.now) (operand words.now (expression words.now) (expression_at words.now Assignment)) place).parse
        (plain_list tokens.now)) }
    ensures shorter { IfOk result (λ x. length x.1.now < length tokens.now) }
{
    let (t, rest) = type_name(alloc, words, tokens)?;
    let (t, (_, rest)) = kept(t, skip(words, RIGHT_PAREN, rest))?;
    let (t, (x, rest)) = kept(t, operand(alloc, words, TypeUse::Casts, rest))?;
    with_operand(
        alloc,
        place,
        ExprKind::Cast(t, x.expression),
        Form::Cast,
        rest,
    )
}

/// `comma ")"` and the rest of a postfix expression, after `(`.
#[tactic(auto, unfolding(c_model::specs::ExpressionGrammar::paren_rest))]
#[cycle(expression)]
fn paren_rest<'a>(
    alloc: Global,
    words: &[Word],
    place: Place,
    tokens: &'a [Token],
) -> Result<(ReadOperand, &'a [Token]), ReadFault>
    ensures read { Gives (λ x. (plain_operand x.0, plain_list x.1.now)) result
        ((paren_rest words.now (expression words.now) place).parse (plain_list tokens.now)) }
    ensures shorter { IfOk result (λ x. length x.1.now < length tokens.now) }
{
    let (inner, rest) = expression(alloc, words, tokens)?;
    let (inner, (_, rest)) = kept(inner, skip(words, RIGHT_PAREN, rest))?;
    postfix_rest(alloc, words, place, inner, rest)
}

/// What stands after `(`.
#[tactic(auto, unfolding(c_model::specs::ExpressionGrammar::behind_paren))]
#[cycle(expression)]
fn behind_paren<'a>(
    alloc: Global,
    words: &[Word],
    type_use: TypeUse,
    place: Place,
    tokens: &'a [Token],
) -> Result<(ReadOperand, &'a [Token]), ReadFault>
    ensures read { Gives (λ x. (plain_operand x.0, plain_list x.1.now)) result
        ((behind_paren words.now (expression words.now) (operand words.now (expression words.now) (expression_at words.now Assignment)) type_use place).parse
        (plain_list tokens.now)) }
    ensures shorter { IfOk result (λ x. length x.1.now < length tokens.now) }
{
    match type_use {
        TypeUse::Casts => {
            if next_begins_type(words, tokens) {
                cast_rest(alloc, words, place, tokens)
            } else {
                paren_rest(alloc, words, place, tokens)
            }
        }
        TypeUse::Sizes => {
            if next_begins_type(words, tokens) {
                sized_type(alloc, words, place, tokens)
            } else {
                paren_rest(alloc, words, place, tokens)
            }
        }
        TypeUse::Nothing => paren_rest(alloc, words, place, tokens),
    }
}

/// A prefix operator and its operand.
#[tactic(auto, unfolding(c_model::specs::ExpressionGrammar::prefixed))]
#[cycle(expression)]
fn prefixed<'a>(
    alloc: Global,
    words: &[Word],
    tokens: &'a [Token],
) -> Result<(ReadOperand, &'a [Token]), ReadFault>
    ensures read { Gives (λ x. (plain_operand x.0, plain_list x.1.now)) result
        ((prefixed words.now (operand words.now (expression words.now) (expression_at words.now Assignment))).parse (plain_list tokens.now)) }
    ensures shorter { IfOk result (λ x. length x.1.now < length tokens.now) }
{
    let (op, place, rest) = marked(UNARY, tokens)?;
    let (x, rest) = operand(alloc, words, TypeUse::Casts, rest)?;
    with_operand(
        alloc,
        place,
        ExprKind::Unary(op, x.expression),
        Form::Unary,
        rest,
    )
}

/// `sizeof` and its operand (C99 6.5.3.4).
#[tactic(auto, unfolding(c_model::specs::ExpressionGrammar::sized))]
#[cycle(expression)]
fn sized<'a>(
    alloc: Global,
    words: &[Word],
    tokens: &'a [Token],
) -> Result<(ReadOperand, &'a [Token]), ReadFault>
    ensures read { Gives (λ x. (plain_operand x.0, plain_list x.1.now)) result
        ((sized words.now (operand words.now (expression words.now) (expression_at words.now Assignment))).parse (plain_list tokens.now)) }
    ensures shorter { IfOk result (λ x. length x.1.now < length tokens.now) }
{
    let (place, rest) = skip(words, SIZEOF, tokens)?;
    let (x, rest) = operand(alloc, words, TypeUse::Sizes, rest)?;
    let sized = ReadOperand {
        expression: size_of_operand(alloc, place, x)?,
        form: Form::Unary,
        first: place,
    };
    Ok((sized, rest))
}

/// `++` or `--` and its operand.
#[tactic(auto, unfolding(c_model::specs::ExpressionGrammar::bump_first))]
#[cycle(expression)]
fn bump_first<'a>(
    alloc: Global,
    words: &[Word],
    tokens: &'a [Token],
) -> Result<(ReadOperand, &'a [Token]), ReadFault>
    ensures read { Gives (λ x. (plain_operand x.0, plain_list x.1.now)) result
        ((bump_first words.now (operand words.now (expression words.now) (expression_at words.now Assignment))).parse (plain_list tokens.now)) }
    ensures shorter { IfOk result (λ x. length x.1.now < length tokens.now) }
{
    let (op, place, rest) = marked(PREFIX_BUMPS, tokens)?;
    let (x, rest) = operand(alloc, words, TypeUse::Nothing, rest)?;
    with_operand(
        alloc,
        place,
        ExprKind::Bump(op, x.expression),
        Form::Unary,
        rest,
    )
}

/// An operand that begins with no name.
#[tactic(auto, unfolding(c_model::specs::ExpressionGrammar::operand_but_name, c_model::specs::ExpressionGrammar::literal_first))]
#[cycle(expression)]
pub fn operand_but_name<'a>(
    alloc: Global,
    words: &[Word],
    type_use: TypeUse,
    tokens: &'a [Token],
) -> Result<(ReadOperand, &'a [Token]), ReadFault>
    ensures read { Gives (λ x. (plain_operand x.0, plain_list x.1.now)) result
        ((operand_but_name words.now (expression words.now) (operand words.now (expression words.now) (expression_at words.now Assignment)) type_use).parse
        (plain_list tokens.now)) }
    ensures shorter { IfOk result (λ x. length x.1.now < length tokens.now) }
{
    if next_is(words, LEFT_PAREN, tokens) {
        let (place, rest) = skip(words, LEFT_PAREN, tokens)?;
        behind_paren(alloc, words, type_use, place, rest)
    } else if next_is_marked(words, UNARY, tokens) {
        prefixed(alloc, words, tokens)
    } else if next_is_marked(words, PREFIX_BUMPS, tokens) {
        bump_first(alloc, words, tokens)
    } else if next_is(words, SIZEOF, tokens) {
        sized(alloc, words, tokens)
    } else {
        let (x, rest) = literal(alloc, words, tokens)?;
        let first = x.place;
        postfix_rest(alloc, words, first, x, rest)
    }
}

/// `"," assign`, after the arguments that are read.
#[tactic(auto, unfolding(c_model::specs::ExpressionGrammar::next_argument))]
#[cycle(expression)]
fn next_argument<'a>(
    alloc: Global,
    words: &[Word],
    all: Vec<Expr>,
    tokens: &'a [Token],
) -> Result<(Vec<Expr>, &'a [Token]), ReadFault>
    ensures read { Gives (λ x. (map plain_expr x.0.items, plain_list x.1.now)) result
        ((next_argument words.now (expression_at words.now Assignment) (map plain_expr all.items)).parse (plain_list tokens.now)) }
    ensures shorter { IfOk result (λ x. length x.1.now < length tokens.now) }
{
    let (all, (_, rest)) = kept(all, skip(words, COMMA, tokens))?;
    let (all, (e, rest)) = kept(all, expression_at(alloc, words, Level::Assignment, rest))?;
    let mut all = all;
    all.push(e)?;
    Ok((all, rest))
}

/// The arguments after those that are read.
#[tactic(auto, using(crate::proofs::Steps::arguments_rules))]
#[cycle(expression)]
fn more_arguments<'a>(
    alloc: Global,
    words: &[Word],
    all: Vec<Expr>,
    tokens: &'a [Token],
) -> Result<(Vec<Expr>, &'a [Token]), ReadFault>
    ensures read { Gives (λ x. (map plain_expr x.0.items, plain_list x.1.now)) result
        ((more_arguments words.now (map plain_expr all.items)).parse (plain_list tokens.now)) }
    ensures shorter { IfOk result (λ x. length x.1.now ≤ length tokens.now) }
{
    let mut all = all;
    let mut rest = tokens;
    'turn: while next_is(words, COMMA, rest) {
        let (more, after) = next_argument(alloc, words, all, rest)?;
        all = more;
        rest = after;
    }
    Ok((all, rest))
}

/// The arguments of a call.
#[tactic(auto, unfolding(c_model::specs::ExpressionGrammar::arguments, crate::specs::Reading::more_arguments))]
#[cycle(expression)]
fn arguments<'a>(
    alloc: Global,
    words: &[Word],
    tokens: &'a [Token],
) -> Result<(Vec<Expr>, &'a [Token]), ReadFault>
    ensures read { Gives (λ x. (map plain_expr x.0.items, plain_list x.1.now)) result
        ((arguments words.now (expression_at words.now Assignment)).parse (plain_list tokens.now)) }
    ensures shorter { IfOk result (λ x. length x.1.now ≤ length tokens.now) }
{
    if next_begins_expression(words, tokens) {
        let (first, rest) = expression_at(alloc, words, Level::Assignment, tokens)?;
        let mut all = Vec::new(alloc);
        all.push(first)?;
        more_arguments(alloc, words, all, rest)
    } else {
        Ok((Vec::new(alloc), tokens))
    }
}

/// `"(" .. ")"`, after a name.
#[tactic(auto, unfolding(c_model::specs::ExpressionGrammar::call_rest, c_model::specs::ExpressionGrammar::closed))]
#[cycle(expression)]
fn call_rest<'a>(
    alloc: Global,
    words: &[Word],
    f: u32,
    tokens: &'a [Token],
) -> Result<(Expr, &'a [Token]), ReadFault>
    ensures read { Gives (λ x. (plain_expr x.0, plain_list x.1.now)) result
        ((call_rest words.now (expression_at words.now Assignment) f).parse (plain_list tokens.now)) }
    ensures shorter { IfOk result (λ x. length x.1.now < length tokens.now) }
{
    let (place, rest) = skip(words, LEFT_PAREN, tokens)?;
    let (arguments, rest) = arguments(alloc, words, rest)?;
    let (arguments, (_, rest)) = kept(arguments, skip(words, RIGHT_PAREN, rest))?;
    Ok((make_call(alloc, place, f, arguments)?, rest))
}

/// A postfix expression that begins with a name.
#[tactic(auto, unfolding(c_model::specs::ExpressionGrammar::behind_variable))]
#[cycle(expression)]
pub fn behind_variable<'a>(
    alloc: Global,
    words: &[Word],
    number: u32,
    place: Place,
    tokens: &'a [Token],
) -> Result<(ReadOperand, &'a [Token]), ReadFault>
    ensures read { Gives (λ x. (plain_operand x.0, plain_list x.1.now)) result
        ((behind_variable words.now (expression words.now) (expression_at words.now Assignment) (number, place)).parse (plain_list tokens.now)) }
    ensures shorter { IfOk result (λ x. length x.1.now ≤ length tokens.now) }
{
    if next_is(words, LEFT_PAREN, tokens) {
        let (call, rest) = call_rest(alloc, words, number, tokens)?;
        postfix_rest(alloc, words, place, call, rest)
    } else {
        let x = read_name(alloc, number, place)?;
        postfix_rest(alloc, words, place, x, tokens)
    }
}

/// A unary expression, or what a type in parentheses begins.
#[tactic(auto, using(crate::proofs::ExactExpressions::operand_is), unfolding(c_model::specs::ExpressionGrammar::operand_of))]
#[cycle(expression)]
pub fn operand<'a>(
    alloc: Global,
    words: &[Word],
    type_use: TypeUse,
    tokens: &'a [Token],
) -> Result<(ReadOperand, &'a [Token]), ReadFault>
    ensures read { Gives (λ x. (plain_operand x.0, plain_list x.1.now)) result
        ((operand words.now (expression words.now) (expression_at words.now Assignment) type_use).parse (plain_list tokens.now)) }
    ensures shorter { IfOk result (λ x. length x.1.now < length tokens.now) }
{
    if next_is(words, NAME, tokens) {
        let (number, place, rest) = name(words, tokens)?;
        behind_variable(alloc, words, number, place, rest)
    } else {
        operand_but_name(alloc, words, type_use, tokens)
    }
}

/// The right operand of an operator of the level.
#[tactic(auto, unfolding(crate::specs::Reading::right_operand))]
#[cycle(expression)]
fn right_operand<'a>(
    alloc: Global,
    words: &[Word],
    level: u32,
    tokens: &'a [Token],
) -> Result<(Expr, &'a [Token]), ReadFault>
    requires { level ≤ 10 }
    ensures read { Gives (λ x. (plain_expr x.0, plain_list x.1.now)) result ((right_operand words.now level).parse (plain_list tokens.now)) }
    ensures shorter { IfOk result (λ x. length x.1.now < length tokens.now) }
{
    let (x, rest) = operand(alloc, words, TypeUse::Casts, tokens)?;
    behind_operand(alloc, words, level, x.expression, rest)
}

/// An operator of the level with its right operand.
#[tactic(auto, unfolding(c_model::specs::ExpressionGrammar::joined_once))]
#[cycle(expression)]
fn joined_once<'a>(
    alloc: Global,
    words: &[Word],
    level: u32,
    left: Expr,
    tokens: &'a [Token],
) -> Result<(Expr, &'a [Token]), ReadFault>
    requires { level ≤ 10 }
    ensures read { Gives (λ x. (plain_expr x.0, plain_list x.1.now)) result
        ((joined_once words.now level (right_operand words.now level) (plain_expr left)).parse (plain_list tokens.now)) }
    ensures shorter { IfOk result (λ x. length x.1.now < length tokens.now) }
{
    let (left, (connective, place, rest)) = kept(left, operator(level, tokens))?;
    let (left, (right, rest)) = kept(left, right_operand(alloc, words, level, rest))?;
    with_expression(alloc, place, joined(connective, left, right), rest)
}

/// Operators of the level with their right operands.
#[tactic(auto, using(crate::proofs::Levels::joined_turn, crate::proofs::Levels::joined_fails, crate::proofs::Levels::joined_ends))]
#[cycle(expression)]
fn more_joined<'a>(
    alloc: Global,
    words: &[Word],
    level: u32,
    left: Expr,
    tokens: &'a [Token],
) -> Result<(Expr, &'a [Token]), ReadFault>
    requires { level ≤ 10 }
    ensures read { Gives (λ x. (plain_expr x.0, plain_list x.1.now)) result ((more_joined words.now level (plain_expr left)).parse (plain_list tokens.now)) }
    ensures shorter { IfOk result (λ x. length x.1.now ≤ length tokens.now) }
{
    let mut left = left;
    let mut rest = tokens;
    'turn: while next_is_operator(words, level, rest) {
        let (more, after) = joined_once(alloc, words, level, left, rest)?;
        left = more;
        rest = after;
    }
    Ok((left, rest))
}

/// What stands after an operand: operators of the levels below this one, with their right operands.
#[tactic(auto, using(crate::proofs::Levels::behind_none, crate::proofs::Levels::behind_level, crate::proofs::Levels::behind_fails))]
#[cycle(expression)]
fn behind_operand<'a>(
    alloc: Global,
    words: &[Word],
    level: u32,
    left: Expr,
    tokens: &'a [Token],
) -> Result<(Expr, &'a [Token]), ReadFault>
    requires { level ≤ 10 }
    ensures read { Gives (λ x. (plain_expr x.0, plain_list x.1.now)) result
        ((behind_operand words.now (expression words.now) (expression_at words.now Assignment) level
        (plain_expr left)).parse (plain_list tokens.now)) }
    ensures shorter { IfOk result (λ x. length x.1.now ≤ length tokens.now) }
{
    if level == 0 {
        return Ok((left, tokens));
    }
    let (left, rest) = behind_operand(alloc, words, level - 1, left, tokens)?;
    more_joined(alloc, words, level - 1, left, rest)
}

/// `"?" comma ":" cond`, after the condition.
#[tactic(auto, unfolding(c_model::specs::ExpressionGrammar::choice_rest))]
#[cycle(expression)]
fn choice_rest<'a>(
    alloc: Global,
    words: &[Word],
    condition: Expr,
    tokens: &'a [Token],
) -> Result<(Expr, &'a [Token]), ReadFault>
    ensures read { Gives (λ x. (plain_expr x.0, plain_list x.1.now)) result
        ((choice_rest words.now (expression words.now) (expression_at words.now Conditional) (plain_expr condition)).parse (plain_list tokens.now)) }
    ensures shorter { IfOk result (λ x. length x.1.now < length tokens.now) }
{
    let (condition, (place, rest)) = kept(condition, skip(words, QUESTION, tokens))?;
    let (condition, (first, rest)) = kept(condition, expression(alloc, words, rest))?;
    let (operands, (_, rest)) = kept((condition, first), skip(words, COLON, rest))?;
    let ((condition, first), (second, rest)) = kept(
        operands,
        expression_at(alloc, words, Level::Conditional, rest),
    )?;
    with_expression(
        alloc,
        place,
        ExprKind::Choice(condition, first, second),
        rest,
    )
}

/// The rest of a conditional expression, after its first operand.
#[tactic(auto, unfolding(c_model::specs::ExpressionGrammar::conditional_rest))]
#[cycle(expression)]
fn conditional_rest<'a>(
    alloc: Global,
    words: &[Word],
    left: Expr,
    tokens: &'a [Token],
) -> Result<(Expr, &'a [Token]), ReadFault>
    ensures read { Gives (λ x. (plain_expr x.0, plain_list x.1.now)) result
        ((conditional_rest words.now (expression words.now) (expression_at words.now Assignment) (expression_at words.now Conditional) (plain_expr left)).parse
        (plain_list tokens.now)) }
    ensures shorter { IfOk result (λ x. length x.1.now ≤ length tokens.now) }
{
    let (left, rest) = behind_operand(alloc, words, LEVELS, left, tokens)?;
    if next_is(words, QUESTION, rest) {
        choice_rest(alloc, words, left, rest)
    } else {
        Ok((left, rest))
    }
}

/// An assignment operator and its right side.
#[tactic(auto, unfolding(c_model::specs::ExpressionGrammar::assigned))]
#[cycle(expression)]
fn assigned<'a>(
    alloc: Global,
    words: &[Word],
    left: Expr,
    tokens: &'a [Token],
) -> Result<(Expr, &'a [Token]), ReadFault>
    ensures read { Gives (λ x. (plain_expr x.0, plain_list x.1.now)) result
        ((assigned words.now (expression_at words.now Assignment) (plain_expr left)).parse (plain_list tokens.now)) }
    ensures shorter { IfOk result (λ x. length x.1.now < length tokens.now) }
{
    let (left, (op, place, rest)) = kept(left, marked(ASSIGNMENTS, tokens))?;
    let (left, (right, rest)) = kept(left, expression_at(alloc, words, Level::Assignment, rest))?;
    with_expression(alloc, place, ExprKind::Assign(op, left, right), rest)
}

/// What stands after a unary expression.
#[tactic(auto, unfolding(c_model::specs::ExpressionGrammar::behind_unary))]
#[cycle(expression)]
fn behind_unary<'a>(
    alloc: Global,
    words: &[Word],
    x: Expr,
    tokens: &'a [Token],
) -> Result<(Expr, &'a [Token]), ReadFault>
    ensures read { Gives (λ x. (plain_expr x.0, plain_list x.1.now)) result
        ((behind_unary words.now (expression words.now) (expression_at words.now Assignment) (expression_at words.now Conditional) (plain_expr x)).parse
        (plain_list tokens.now)) }
    ensures shorter { IfOk result (λ x. length x.1.now ≤ length tokens.now) }
{
    if next_is_marked(words, ASSIGNMENTS, tokens) {
        assigned(alloc, words, x, tokens)
    } else {
        conditional_rest(alloc, words, x, tokens)
    }
}

/// What stands after an operand of the form: after a cast no assignment.
#[tactic(auto, unfolding(c_model::specs::ExpressionGrammar::behind_form))]
#[cycle(expression)]
pub fn behind_form<'a>(
    alloc: Global,
    words: &[Word],
    form: Form,
    x: Expr,
    tokens: &'a [Token],
) -> Result<(Expr, &'a [Token]), ReadFault>
    ensures read { Gives (λ x. (plain_expr x.0, plain_list x.1.now)) result
        ((behind_form words.now (expression words.now) (expression_at words.now Assignment) (expression_at words.now Conditional) form (plain_expr x)).parse
        (plain_list tokens.now)) }
    ensures shorter { IfOk result (λ x. length x.1.now ≤ length tokens.now) }
{
    match form {
        Form::Postfix | Form::Unary => behind_unary(alloc, words, x, tokens),
        Form::Cast | Form::TypeName => conditional_rest(alloc, words, x, tokens),
    }
}

/// An expression without commas, of any length.
#[tactic(auto, using(crate::proofs::ExactExpressions::level_is), unfolding(c_model::specs::ExpressionGrammar::at_level))]
#[cycle(expression)]
pub fn expression_at<'a>(
    alloc: Global,
    words: &[Word],
    level: Level,
    tokens: &'a [Token],
) -> Result<(Expr, &'a [Token]), ReadFault>
    ensures read { Gives (λ x. (plain_expr x.0, plain_list x.1.now)) result ((expression_at words.now level).parse (plain_list tokens.now)) }
    ensures shorter { IfOk result (λ x. length x.1.now < length tokens.now) }
{
    match level {
        Level::Assignment => {
            let (x, rest) = operand(alloc, words, TypeUse::Casts, tokens)?;
            behind_form(alloc, words, x.form, x.expression, rest)
        }
        Level::Conditional => {
            let (x, rest) = operand(alloc, words, TypeUse::Casts, tokens)?;
            conditional_rest(alloc, words, x.expression, rest)
        }
    }
}

/// `"," assign`, after the left side.
#[tactic(auto, unfolding(c_model::specs::ExpressionGrammar::next_part))]
#[cycle(expression)]
fn next_part<'a>(
    alloc: Global,
    words: &[Word],
    left: Expr,
    tokens: &'a [Token],
) -> Result<(Expr, &'a [Token]), ReadFault>
    ensures read { Gives (λ x. (plain_expr x.0, plain_list x.1.now)) result
        ((next_part words.now (expression_at words.now Assignment) (plain_expr left)).parse (plain_list tokens.now)) }
    ensures shorter { IfOk result (λ x. length x.1.now < length tokens.now) }
{
    let (left, (place, rest)) = kept(left, skip(words, COMMA, tokens))?;
    let (left, (right, rest)) = kept(left, expression_at(alloc, words, Level::Assignment, rest))?;
    with_expression(alloc, place, ExprKind::Comma(left, right), rest)
}

/// The parts of a comma after the left side.
#[tactic(auto, using(crate::proofs::Steps::parts_rules))]
#[cycle(expression)]
pub fn more_parts<'a>(
    alloc: Global,
    words: &[Word],
    left: Expr,
    tokens: &'a [Token],
) -> Result<(Expr, &'a [Token]), ReadFault>
    ensures read { Gives (λ x. (plain_expr x.0, plain_list x.1.now)) result ((more_parts words.now (plain_expr left)).parse (plain_list tokens.now)) }
    ensures shorter { IfOk result (λ x. length x.1.now ≤ length tokens.now) }
{
    let mut left = left;
    let mut rest = tokens;
    'turn: while next_is(words, COMMA, rest) {
        let (more, after) = next_part(alloc, words, left, rest)?;
        left = more;
        rest = after;
    }
    Ok((left, rest))
}

/// An expression of any length.
#[tactic(auto, using(crate::proofs::Steps::comma_rules))]
#[cycle(expression)]
pub fn expression<'a>(
    alloc: Global,
    words: &[Word],
    tokens: &'a [Token],
) -> Result<(Expr, &'a [Token]), ReadFault>
    ensures read { Gives (λ x. (plain_expr x.0, plain_list x.1.now)) result ((expression words.now).parse (plain_list tokens.now)) }
    ensures shorter { IfOk result (λ x. length x.1.now < length tokens.now) }
{
    let (left, rest) = expression_at(alloc, words, Level::Assignment, tokens)?;
    more_parts(alloc, words, left, rest)
}
