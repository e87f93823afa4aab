//! Parts of expressions in which no expression stands, and the nodes of expressions (C99 6.5).

ghost use Rattle.std.specs.Prelude.{◌≡◌, ◌≤◌, ◌<◌, length, map, IfOk, IfErr};
ghost use Rattle.c_syntax.specs.Expressions.{Call, plain_expr, plain_kind};
ghost use Rattle.grammar.specs.Syntax.{gives, one, sees};
ghost use Rattle.c_model.specs.ExpressionGrammar.{kind, kinds_of, operators_at, read_as, read_name, read_operand, use_of, expressions};
ghost use Rattle.c_model.specs.ExpressionGrammar.{size_of_operand, connective_kind};
ghost use Rattle.c_model.specs.ExpressionGrammar.{literal, dotted, arrowed, bumped};
ghost use Rattle.c_model.specs.Terminals.{placed, mark_entry};
ghost use Rattle.c_expr_parser.specs.Reading.{plain_operand};
ghost use Rattle.token_reader.specs.Reading.{Gives, TakesNoMemory, plain_list};

use crate::kinds::{ARROW, DOT, LETTER, NUMBER, TEXT};
use crate::tables::{POSTFIX_BUMPS, operators_at};
use crate::terminals::{any_name, kept, letter, next_is, next_is_marked, number, skip};
use c_model::operands::{Connective, Form};
use c_model::vocabulary::Word;
use c_syntax::fault::ReadFault;
use c_syntax::{CInt, CType, Expr, ExprKind, Place, Token, Use};
use std::alloc::{AllocError, Global};
use token_reader::terminals::marked;

/// An operand with its form and the place of its first token.
#[derive(Drop)]
pub struct ReadOperand {
    pub expression: Expr,
    pub form: Form,
    pub first: Place,
}

/// An expression as it is read, whose type is set by typing.
pub fn read_as(alloc: Global, place: Place, kind: ExprKind) -> Result<Expr, AllocError>
    ensures { IfOk result (λ e. plain_expr e ≡ read_as place (plain_kind kind)) }
{
    Ok(Expr {
        place,
        kind: Box::new(alloc, kind)?,
        ctype: CType::Int(CInt::I32),
    })
}

/// The expression of this kind, after which these tokens are left.
pub fn with_expression<'a>(
    alloc: Global,
    place: Place,
    kind: ExprKind,
    tokens: &'a [Token],
) -> Result<(Expr, &'a [Token]), ReadFault>
    ensures read { Gives (λ x. (plain_expr x.0, plain_list x.1.now)) result ((gives (read_as place (plain_kind kind))).parse (plain_list tokens.now)) }
    ensures shorter { IfOk result (λ x. length x.1.now ≤ length tokens.now) }
{
    Ok((read_as(alloc, place, kind)?, tokens))
}

/// The operand of this kind and form, which begins at its place and after which these tokens are left.
pub fn with_operand<'a>(
    alloc: Global,
    place: Place,
    kind: ExprKind,
    form: Form,
    tokens: &'a [Token],
) -> Result<(ReadOperand, &'a [Token]), ReadFault>
    ensures read { Gives (λ x. (plain_operand x.0, plain_list x.1.now)) result ((gives (read_operand (read_as place (plain_kind kind)) form place)).parse
        (plain_list tokens.now)) }
    ensures shorter { IfOk result (λ x. length x.1.now ≤ length tokens.now) }
{
    let expression = read_as(alloc, place, kind)?;
    let first = place;
    let operand = ReadOperand {
        expression,
        form,
        first,
    };
    Ok((operand, tokens))
}

/// A name that is used.
pub fn read_name(alloc: Global, name: u32, place: Place) -> Result<Expr, AllocError>
    ensures { IfOk result (λ x. plain_expr x ≡ read_name (name, place)) }
{
    let x = Use { name, decl: 0 };
    read_as(alloc, place, ExprKind::Variable(x))
}

/// The call of the name of a number.
pub fn make_call(
    alloc: Global,
    place: Place,
    f: u32,
    arguments: Vec<Expr>,
) -> Result<Expr, AllocError>
    ensures { IfOk result (λ e. plain_expr e ≡ read_as place (Call (use_of f) (expressions (map plain_expr arguments.items)))) }
{
    let callee = Use { name: f, decl: 0 };
    read_as(alloc, place, ExprKind::Call(callee, arguments))
}

/// `sizeof` of the operand.
pub fn size_of_operand(alloc: Global, place: Place, x: ReadOperand) -> Result<Expr, AllocError>
    ensures { IfOk result (λ e. plain_expr e ≡ read_as place (size_of_operand (plain_operand x))) }
{
    match x.form {
        Form::TypeName => Ok(Expr {
            place,
            kind: x.expression.kind,
            ctype: CType::Int(CInt::I32),
        }),
        Form::Postfix | Form::Unary | Form::Cast => {
            read_as(alloc, place, ExprKind::SizeOfExpr(x.expression))
        }
    }
}

pub fn joined(connective: Connective, left: Expr, right: Expr) -> ExprKind
    ensures { plain_kind result ≡ connective_kind connective (plain_expr left) (plain_expr right) }
{
    match connective {
        Connective::Operator(op) => ExprKind::Binary(op, left, right),
        Connective::And => ExprKind::Both(left, right),
        Connective::Or => ExprKind::Either(left, right),
    }
}

/// An integer, character or string literal.
#[tactic(auto, unfolding(c_model::specs::ExpressionGrammar::literal))]
pub fn literal<'a>(
    alloc: Global,
    words: &[Word],
    tokens: &'a [Token],
) -> Result<(Expr, &'a [Token]), ReadFault>
    ensures read { Gives (λ x. (plain_expr x.0, plain_list x.1.now)) result ((literal words.now).parse (plain_list tokens.now)) }
    ensures shorter { IfOk result (λ x. length x.1.now < length tokens.now) }
{
    if next_is(words, NUMBER, tokens) {
        let (value, ctype, place, rest) = number(tokens)?;
        with_expression(alloc, place, ExprKind::Number(value, ctype), rest)
    } else if next_is(words, LETTER, tokens) {
        let (value, place, rest) = letter(tokens)?;
        with_expression(alloc, place, ExprKind::Letter(value), rest)
    } else {
        let (place, rest) = skip(words, TEXT, tokens)?;
        with_expression(alloc, place, ExprKind::Text(place.offset), rest)
    }
}

/// `"." ANYNAME`, after a postfix expression.
#[tactic(auto, unfolding(c_model::specs::ExpressionGrammar::dotted))]
pub fn dotted<'a>(
    alloc: Global,
    words: &[Word],
    x: Expr,
    tokens: &'a [Token],
) -> Result<(Expr, &'a [Token]), ReadFault>
    ensures read { Gives (λ x. (plain_expr x.0, plain_list x.1.now)) result ((dotted words.now (plain_expr x)).parse (plain_list tokens.now)) }
    ensures shorter { IfOk result (λ x. length x.1.now < length tokens.now) }
{
    let (x, (place, rest)) = kept(x, skip(words, DOT, tokens))?;
    let (x, (member, _, rest)) = kept(x, any_name(words, rest))?;
    with_expression(alloc, place, ExprKind::Dot(x, member), rest)
}

/// `"->" ANYNAME`, after a postfix expression.
#[tactic(auto, unfolding(c_model::specs::ExpressionGrammar::arrowed))]
pub fn arrowed<'a>(
    alloc: Global,
    words: &[Word],
    x: Expr,
    tokens: &'a [Token],
) -> Result<(Expr, &'a [Token]), ReadFault>
    ensures read { Gives (λ x. (plain_expr x.0, plain_list x.1.now)) result ((arrowed words.now (plain_expr x)).parse (plain_list tokens.now)) }
    ensures shorter { IfOk result (λ x. length x.1.now < length tokens.now) }
{
    let (x, (place, rest)) = kept(x, skip(words, ARROW, tokens))?;
    let (x, (member, _, rest)) = kept(x, any_name(words, rest))?;
    with_expression(alloc, place, ExprKind::Arrow(x, member), rest)
}

/// `++` or `--`, after its operand.
#[tactic(auto, unfolding(c_model::specs::ExpressionGrammar::bumped))]
pub fn bumped<'a>(
    alloc: Global,
    words: &[Word],
    x: Expr,
    tokens: &'a [Token],
) -> Result<(Expr, &'a [Token]), ReadFault>
    ensures read { Gives (λ x. (plain_expr x.0, plain_list x.1.now)) result ((bumped words.now (plain_expr x)).parse (plain_list tokens.now)) }
    ensures shorter { IfOk result (λ x. length x.1.now < length tokens.now) }
{
    let (op, place, rest) = marked(POSTFIX_BUMPS, tokens)?;
    with_expression(alloc, place, ExprKind::Bump(op, x), rest)
}

/// A binary operator of the level.
pub fn operator(level: u32, tokens: &[Token]) -> Result<(Connective, Place, &[Token]), ReadFault>
    ensures read { Gives (λ x. ((x.0, x.1), plain_list x.2.now)) result ((one (placed (mark_entry (operators_at level)))).parse (plain_list tokens.now)) }
    ensures shorter { IfOk result (λ x. length x.2.now < length tokens.now) }
    ensures sure { IfErr result TakesNoMemory }
{
    marked(operators_at(level), tokens)
}

pub fn next_is_operator(words: &[Word], level: u32, tokens: &[Token]) -> bool
    ensures { result ≡ sees (kind words.now) (kinds_of (operators_at level)) (plain_list tokens.now) }
{
    next_is_marked(words, operators_at(level), tokens)
}
