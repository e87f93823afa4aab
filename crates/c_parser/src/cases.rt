//! What begins a case, and the statement of cases (C99 6.8.1, 6.8.4.2).

ghost use Rattle.std.specs.Prelude.{◌≡◌, map, option_map, IfOk};
ghost use Rattle.c_syntax.specs.Expressions.{plain_expr};
ghost use Rattle.c_syntax.specs.Statements.{plain_stmt};
ghost use Rattle.c_syntax.specs.Statements as statement;
ghost use Rattle.c_model.specs.ProgramGrammar.{case_label, cases_of, default_case, valued_case};
ghost use Rattle.c_parser.specs.Reading.{read_case};
ghost use Rattle.token_reader.specs.Reading.{Gives, plain_list};

use crate::loops::statement_at;
use c_expr_parser::full::full_expression_at;
use c_expr_parser::kinds::{CASE, COLON, DEFAULT};
use c_expr_parser::terminals::{next_is, skip};
use c_model::operands::Level;
use c_model::vocabulary::Word;
use c_syntax::fault::ReadFault;
use c_syntax::{Case, Expr, Place, Stmt, StmtKind, Token};
use std::alloc::{AllocError, Global};

/// `"case" cond ":"`
#[tactic(auto, unfolding(c_model::specs::ProgramGrammar::valued_case))]
fn valued_case<'a>(
    alloc: Global,
    words: &[Word],
    tokens: &'a [Token],
) -> Result<(Place, Option<Expr>, &'a [Token]), ReadFault>
    ensures { Gives (λ x. ((x.0, option_map plain_expr x.1), plain_list x.2.now)) result ((valued_case words.now).parse (plain_list tokens.now)) }
{
    let (place, rest) = skip(words, CASE, tokens)?;
    let (e, rest) = full_expression_at(alloc, words, Level::Conditional, rest)?;
    let (_, rest) = skip(words, COLON, rest)?;
    Ok((place, Some(e), rest))
}

/// `"default" ":"`
#[tactic(auto, unfolding(c_model::specs::ProgramGrammar::default_case))]
fn default_case<'a>(
    words: &[Word],
    tokens: &'a [Token],
) -> Result<(Place, Option<Expr>, &'a [Token]), ReadFault>
    ensures { Gives (λ x. ((x.0, option_map plain_expr x.1), plain_list x.2.now)) result ((default_case words.now).parse (plain_list tokens.now)) }
{
    let (place, rest) = skip(words, DEFAULT, tokens)?;
    let (_, rest) = skip(words, COLON, rest)?;
    Ok((place, None, rest))
}

/// `( "case" cond | "default" ) ":"`
#[tactic(auto, unfolding(c_model::specs::ProgramGrammar::case_label))]
pub fn case_label<'a>(
    alloc: Global,
    words: &[Word],
    tokens: &'a [Token],
) -> Result<(Place, Option<Expr>, &'a [Token]), ReadFault>
    ensures { Gives (λ x. ((x.0, option_map plain_expr x.1), plain_list x.2.now)) result ((case_label words.now).parse (plain_list tokens.now)) }
{
    if next_is(words, CASE, tokens) {
        valued_case(alloc, words, tokens)
    } else {
        default_case(words, tokens)
    }
}

pub fn make_switch(alloc: Global, place: Place, e: Expr, all: Vec<Case>) -> Result<Stmt, AllocError>
    ensures { IfOk result (λ s. plain_stmt s ≡ statement.Switch place (plain_expr e) (cases_of (map read_case all.items))) }
{
    statement_at(alloc, place, StmtKind::Switch(e, all))
}
