//! Jumps, and what is returned (C99 6.8.6).

ghost use Rattle.std.specs.Prelude.{◌≡◌, map, option_map, IfOk};
ghost use Rattle.c_syntax.specs.Expressions.{plain_expr};
ghost use Rattle.c_syntax.specs.Statements.{plain_stmt};
ghost use Rattle.c_model.specs.ProgramGrammar.{jump, returned, return_statement};
ghost use Rattle.token_reader.specs.Reading.{Gives, plain_list};
ghost use Rattle.c_parser.specs.Reading.{break_statement, continue_statement};

use crate::loops::{StatementRead, with_statement};
use c_expr_parser::full::full_expression;
use c_expr_parser::kinds::{BREAK, CONTINUE, RETURN, SEMICOLON};
use c_expr_parser::terminals::{next_begins_expression, next_is, skip};
use c_model::declarations::AnnotationState;
use c_model::vocabulary::Word;
use c_syntax::fault::ReadFault;
use c_syntax::{Expr, StmtKind, Token};
use std::alloc::Global;

/// `"break" ";"`
#[tactic(auto, unfolding(crate::specs::Reading::break_statement, c_model::specs::DeclarationGrammar::ended))]
fn break_statement<'a>(
    alloc: Global,
    words: &[Word],
    state: AnnotationState,
    tokens: &'a [Token],
) -> StatementRead<'a>
    ensures { Gives (λ x. ((plain_stmt x.0, x.1), plain_list x.2.now)) result
        ((break_statement words.now state).parse (plain_list tokens.now)) }
{
    let (place, rest) = skip(words, BREAK, tokens)?;
    let (_, rest) = skip(words, SEMICOLON, rest)?;
    with_statement(alloc, place, StmtKind::Break, state, rest)
}

/// `"continue" ";"`
#[tactic(auto, unfolding(crate::specs::Reading::continue_statement, c_model::specs::DeclarationGrammar::ended))]
fn continue_statement<'a>(
    alloc: Global,
    words: &[Word],
    state: AnnotationState,
    tokens: &'a [Token],
) -> StatementRead<'a>
    ensures { Gives (λ x. ((plain_stmt x.0, x.1), plain_list x.2.now)) result
        ((continue_statement words.now state).parse (plain_list tokens.now)) }
{
    let (place, rest) = skip(words, CONTINUE, tokens)?;
    let (_, rest) = skip(words, SEMICOLON, rest)?;
    with_statement(alloc, place, StmtKind::Continue, state, rest)
}

/// `"break" ";"` or `"continue" ";"`
#[tactic(auto, unfolding(c_model::specs::ProgramGrammar::jump, crate::specs::Reading::break_statement, crate::specs::Reading::continue_statement))]
pub fn jump<'a>(
    alloc: Global,
    words: &[Word],
    state: AnnotationState,
    tokens: &'a [Token],
) -> StatementRead<'a>
    ensures { Gives (λ x. ((plain_stmt x.0, x.1), plain_list x.2.now)) result
        ((jump words.now state).parse (plain_list tokens.now)) }
{
    if next_is(words, BREAK, tokens) {
        break_statement(alloc, words, state, tokens)
    } else {
        continue_statement(alloc, words, state, tokens)
    }
}

/// `[ comma ] ";"`
#[tactic(auto, unfolding(c_model::specs::ProgramGrammar::returned, c_model::specs::DeclarationGrammar::ended))]
fn returned<'a>(
    alloc: Global,
    words: &[Word],
    tokens: &'a [Token],
) -> Result<(Option<Expr>, &'a [Token]), ReadFault>
    ensures { Gives (λ x. (option_map plain_expr x.0, plain_list x.1.now)) result ((returned words.now).parse (plain_list tokens.now)) }
{
    if next_begins_expression(words, tokens) {
        let (e, rest) = full_expression(alloc, words, tokens)?;
        let (_, rest) = skip(words, SEMICOLON, rest)?;
        Ok((Some(e), rest))
    } else {
        let (_, rest) = skip(words, SEMICOLON, tokens)?;
        Ok((None, rest))
    }
}

/// `"return" [ comma ] ";"`
#[tactic(auto, unfolding(c_model::specs::ProgramGrammar::return_statement))]
pub fn return_statement<'a>(
    alloc: Global,
    words: &[Word],
    state: AnnotationState,
    tokens: &'a [Token],
) -> StatementRead<'a>
    ensures { Gives (λ x. ((plain_stmt x.0, x.1), plain_list x.2.now)) result
        ((return_statement words.now state).parse (plain_list tokens.now)) }
{
    let (place, rest) = skip(words, RETURN, tokens)?;
    let (e, rest) = returned(alloc, words, rest)?;
    with_statement(alloc, place, StmtKind::Return(e), state, rest)
}
