//! Conditions, statements of one expression, and what stands in the parentheses of a `for` (C99 6.8.3, 6.8.4, 6.8.5).

ghost use Rattle.std.specs.Prelude.{◌≡◌, map, option_map, IfOk};
ghost use Rattle.c_syntax.specs.Logic.{plain_annot};
ghost use Rattle.c_syntax.specs.Expressions.{plain_expr};
ghost use Rattle.c_syntax.specs.Statements.{plain_stmt, plain_stmt_kind};
ghost use Rattle.c_model.specs.ProgramGrammar.{condition, effect_statement, effect_behind, for_first, maybe_ended, for_behind};
ghost use Rattle.token_reader.specs.Reading.{Gives, plain_list};
ghost use Rattle.c_parser.specs.Reading.{plain_first, plain_heading, counted, for_effect, for_heading, for_with};

use c_declaration_parser::declaration::declaration;
use c_expr_parser::full::{
    full_expression, full_expression_behind, full_nameless_expression, full_placed_expression,
};
use c_expr_parser::kinds::{FOR, LEFT_PAREN, RIGHT_PAREN, SEMICOLON};
use c_expr_parser::terminals::{kept, next_begins_expression, next_begins_type, skip};
use c_model::declarations::AnnotationState;
use c_model::vocabulary::Word;
use c_syntax::fault::ReadFault;
use c_syntax::{Annot, Expr, Item, Place, Stmt, StmtKind, Token};
use std::alloc::{AllocError, Global};

/// A statement, what is read of annotations after it, and what stands behind it.
pub type StatementRead<'a> = Result<(Stmt, AnnotationState, &'a [Token]), ReadFault>;

/// `"(" comma ")"`
#[tactic(auto, unfolding(c_model::specs::ProgramGrammar::condition, c_model::specs::ExpressionGrammar::closed))]
pub fn condition<'a>(
    alloc: Global,
    words: &[Word],
    tokens: &'a [Token],
) -> Result<(Expr, &'a [Token]), ReadFault>
    ensures { Gives (λ x. (plain_expr x.0, plain_list x.1.now)) result ((condition words.now).parse (plain_list tokens.now)) }
{
    let (_, rest) = skip(words, LEFT_PAREN, tokens)?;
    let (e, rest) = full_expression(alloc, words, rest)?;
    let (_, rest) = skip(words, RIGHT_PAREN, rest)?;
    Ok((e, rest))
}

/// A statement at its place.
pub fn statement_at(alloc: Global, place: Place, kind: StmtKind) -> Result<Stmt, AllocError>
    ensures { IfOk result (λ s. plain_stmt s ≡ plain_stmt_kind place kind) }
{
    let kind = Box::new(alloc, kind)?;
    Ok(Stmt { place, kind })
}

/// The statement of this kind, after which these tokens are left.
pub fn with_statement<'a>(
    alloc: Global,
    place: Place,
    kind: StmtKind,
    state: AnnotationState,
    tokens: &'a [Token],
) -> StatementRead<'a>
    ensures { Gives (λ x. ((plain_stmt x.0, x.1), plain_list x.2.now)) result ((counted (plain_stmt_kind place kind) state).parse
        (plain_list tokens.now)) }
{
    Ok((statement_at(alloc, place, kind)?, state, tokens))
}

/// `comma ";"`, where it begins with no name.
#[tactic(auto, unfolding(c_model::specs::ProgramGrammar::effect_statement, c_model::specs::DeclarationGrammar::ended))]
pub fn effect_statement<'a>(
    alloc: Global,
    words: &[Word],
    state: AnnotationState,
    tokens: &'a [Token],
) -> StatementRead<'a>
    ensures { Gives (λ x. ((plain_stmt x.0, x.1), plain_list x.2.now)) result
        ((effect_statement words.now state).parse (plain_list tokens.now)) }
{
    let (e, place, rest) = full_nameless_expression(alloc, words, tokens)?;
    let (_, rest) = skip(words, SEMICOLON, rest)?;
    with_statement(alloc, place, StmtKind::Eval(e), state, rest)
}

/// The rest of `comma ";"`, after a name that it begins with.
#[tactic(auto, unfolding(c_model::specs::ProgramGrammar::effect_behind, c_model::specs::DeclarationGrammar::ended))]
pub fn effect_behind<'a>(
    alloc: Global,
    words: &[Word],
    number: u32,
    place: Place,
    state: AnnotationState,
    tokens: &'a [Token],
) -> StatementRead<'a>
    ensures { Gives (λ x. ((plain_stmt x.0, x.1), plain_list x.2.now)) result
        ((effect_behind words.now (number, place) state).parse (plain_list tokens.now)) }
{
    let (e, first, rest) = full_expression_behind(alloc, words, number, place, tokens)?;
    let (_, rest) = skip(words, SEMICOLON, rest)?;
    with_statement(alloc, first, StmtKind::Eval(e), state, rest)
}

/// `comma ";"`, first in the parentheses of a `for`.
#[tactic(auto, unfolding(crate::specs::Reading::for_effect, c_model::specs::DeclarationGrammar::ended))]
fn for_effect<'a>(
    alloc: Global,
    words: &[Word],
    state: AnnotationState,
    tokens: &'a [Token],
) -> StatementRead<'a>
    ensures { Gives (λ x. ((plain_stmt x.0, x.1), plain_list x.2.now)) result
        ((for_effect words.now state).parse (plain_list tokens.now)) }
{
    let (e, place, rest) = full_placed_expression(alloc, words, tokens)?;
    let (_, rest) = skip(words, SEMICOLON, rest)?;
    with_statement(alloc, place, StmtKind::Eval(e), state, rest)
}

/// `decl | [ comma ] ";"`
#[tactic(auto, unfolding(c_model::specs::ProgramGrammar::for_first, crate::specs::Reading::for_effect, crate::specs::Reading::ended))]
pub fn for_first<'a>(
    alloc: Global,
    words: &[Word],
    state: AnnotationState,
    tokens: &'a [Token],
) -> Result<(Option<Item>, AnnotationState, &'a [Token]), ReadFault>
    ensures { Gives (λ x. ((plain_first x.0, x.1), plain_list x.2.now)) result
        ((for_first words.now state).parse (plain_list tokens.now)) }
{
    if next_begins_type(words, tokens) {
        let (item, rest) = declaration(alloc, words, tokens)?;
        Ok((Some(item), state, rest))
    } else if next_begins_expression(words, tokens) {
        let (s, state, rest) = for_effect(alloc, words, state, tokens)?;
        Ok((Some(Item::Run(s)), state, rest))
    } else {
        let (_, rest) = skip(words, SEMICOLON, tokens)?;
        Ok((None, state, rest))
    }
}

/// `[ comma ] ";"`
#[tactic(auto, unfolding(c_model::specs::ProgramGrammar::maybe_ended, c_model::specs::DeclarationGrammar::ended))]
pub fn maybe_ended<'a>(
    alloc: Global,
    words: &[Word],
    tokens: &'a [Token],
) -> Result<(Option<Expr>, &'a [Token]), ReadFault>
    ensures { Gives (λ x. (option_map plain_expr x.0, plain_list x.1.now)) result ((maybe_ended words.now).parse (plain_list tokens.now)) }
{
    if next_begins_expression(words, tokens) {
        let (e, rest) = full_expression(alloc, words, tokens)?;
        let (_, rest) = skip(words, SEMICOLON, rest)?;
        Ok((Some(e), rest))
    } else {
        let (_, rest) = skip(words, SEMICOLON, tokens)?;
        Ok((None, rest))
    }
}

/// `[ comma ] ")"`
#[tactic(auto, unfolding(c_model::specs::ProgramGrammar::for_behind, c_model::specs::ExpressionGrammar::closed))]
pub fn for_behind<'a>(
    alloc: Global,
    words: &[Word],
    tokens: &'a [Token],
) -> Result<(Option<Expr>, &'a [Token]), ReadFault>
    ensures { Gives (λ x. (option_map plain_expr x.0, plain_list x.1.now)) result ((for_behind words.now).parse (plain_list tokens.now)) }
{
    if next_begins_expression(words, tokens) {
        let (e, rest) = full_expression(alloc, words, tokens)?;
        let (_, rest) = skip(words, RIGHT_PAREN, rest)?;
        Ok((Some(e), rest))
    } else {
        let (_, rest) = skip(words, RIGHT_PAREN, tokens)?;
        Ok((None, rest))
    }
}

/// What stands before the body of a `for`.
#[derive(Drop)]
pub struct ForHeading {
    pub place: Place,
    pub first: Option<Item>,
    pub condition: Option<Expr>,
    pub step: Option<Expr>,
}

/// `"for" "(" ( decl | [ comma ] ";" ) [ comma ] ";" [ comma ] ")"`
#[tactic(auto, unfolding(crate::specs::Reading::for_heading))]
pub fn for_heading<'a>(
    alloc: Global,
    words: &[Word],
    state: AnnotationState,
    tokens: &'a [Token],
) -> Result<(ForHeading, AnnotationState, &'a [Token]), ReadFault>
    ensures { Gives (λ x. ((plain_heading x.0, x.1), plain_list x.2.now)) result
        ((for_heading words.now state).parse (plain_list tokens.now)) }
{
    let (place, rest) = skip(words, FOR, tokens)?;
    let (_, rest) = skip(words, LEFT_PAREN, rest)?;
    let (first, state, rest) = for_first(alloc, words, state, rest)?;
    let (first, (condition, rest)) = kept(first, maybe_ended(alloc, words, rest))?;
    let ((first, condition), (step, rest)) = kept(
        (first, condition),
        for_behind(alloc, words, rest),
    )?;
    let heading = ForHeading {
        place,
        first,
        condition,
        step,
    };
    Ok((heading, state, rest))
}

/// The loop of a heading and a body, with its annotations.
pub fn for_kind(annots: Vec<Annot>, heading: ForHeading, body: Stmt) -> StmtKind
    ensures { plain_stmt_kind heading.place result ≡ for_with (map plain_annot annots.items) (plain_heading heading) (plain_stmt body) }
{
    let ForHeading {
        first,
        condition,
        step,
        ..
    } = heading;
    match first {
        Some(item) => StmtKind::For(annots, Some(item), condition, step, body),
        None => StmtKind::For(annots, None, condition, step, body),
    }
}
