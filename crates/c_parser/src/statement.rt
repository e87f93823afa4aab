//! Statements (C99 6.8), which take what is read of annotations before them and give that after.

ghost use Rattle.std.specs.Prelude.{◌≡◌, ◌<◌, map, IfOk};
ghost use Rattle.c_syntax.specs.Logic.{plain_annot};
ghost use Rattle.c_syntax.specs.Expressions.{plain_expr};
ghost use Rattle.c_syntax.specs.Statements.{plain_stmt, plain_item};
ghost use Rattle.c_syntax.specs.Statements as statement;
ghost use Rattle.c_model.specs.ProgramGrammar.{is_open, block_items, else_branch, else_part, selection, while_loop, do_loop, for_loop};
ghost use Rattle.c_model.specs.ProgramGrammar.{behind_annotation, annotated_item, run_item, item, items_once, items, block, empty_statement};
ghost use Rattle.c_model.specs.ProgramGrammar.{labelled_statement, named_statement, loop_of, unlooped_of, statement_of};
ghost use Rattle.c_model.specs.ProgramGrammar.{statement_in, branch_in, behind_in, inside_in};
ghost use Rattle.c_model.specs.ClauseGrammar.{Looped};
ghost use Rattle.acsl_parser.specs.Reading.{plain_loop, plain_read};
ghost use Rattle.c_model.specs.ProgramGrammar.{case_item, case_items_once, case_items, next_case, cases, switch_statement};
ghost use Rattle.token_reader.specs.Reading.{Gives, Fails, plain_list};
ghost use Rattle.c_parser.specs.Reading.{deep_fault, ended_do, read_case};

use crate::annotation::{after_loop, after_misplaced, after_placed, first_misplaced, make_asserts};
use crate::cases::{case_label, make_switch};
use crate::jumps::{jump, return_statement};
use crate::loops::{
    StatementRead, condition, effect_behind, effect_statement, for_heading, for_kind, statement_at,
    with_statement,
};
use crate::terminals::{
    next_begins_branch, next_begins_case, next_begins_item, next_begins_statement, next_is_jump,
    next_is_loop,
};
use acsl_parser::{LoopAnnotation, ReadAnnotation, annotations};
use c_declaration_parser::declaration::declaration;
use c_expr_parser::kinds::{
    ANNOT_OPEN, COLON, DO, ELSE, FOR, IF, LEFT_BRACE, NAME, RETURN, RIGHT_BRACE, SEMICOLON, SWITCH,
    WHILE,
};
use c_expr_parser::terminals::{kept, name, next_begins_type, next_is, skip};
use c_model::declarations::AnnotationState;
use c_model::vocabulary::Word;
use c_syntax::fault::{Limit, ReadFault};
use c_syntax::{Annot, Case, Expr, Item, Place, Stmt, StmtKind, Token};
use std::alloc::{AllocError, Global};
use token_reader::terminals::left;

/// An item of a block, what is read of annotations after it, and what stands behind it.
type ItemRead<'a> = Result<(Item, AnnotationState, &'a [Token]), ReadFault>;

/// Whether a further `else` would go with an `if` at the statement's end.
fn is_open(s: &Stmt) -> bool
    ensures { result ≡ is_open (plain_stmt s.now) }
{
    match &*s.kind {
        StmtKind::If(_, _, None) => true,
        StmtKind::If(_, _, Some(last)) => is_open(last),
        StmtKind::While(_, _, last) => is_open(last),
        StmtKind::For(_, _, _, _, last) => is_open(last),
        StmtKind::Labelled(_, last) => is_open(last),
        StmtKind::Empty
        | StmtKind::Eval(_)
        | StmtKind::Block(_)
        | StmtKind::Do(_, _)
        | StmtKind::Break
        | StmtKind::Continue
        | StmtKind::Return(_)
        | StmtKind::Switch(_, _) => false,
    }
}

pub fn make_block(alloc: Global, place: Place, all: Vec<Item>) -> Result<Stmt, AllocError>
    ensures { IfOk result (λ s. plain_stmt s ≡ statement.Block place (block_items (map plain_item all.items))) }
{
    statement_at(alloc, place, StmtKind::Block(all))
}

fn make_run(s: Stmt) -> Item
    ensures { plain_item result ≡ statement.Run (plain_stmt s) }
{
    Item::Run(s)
}

/// `";"`
#[tactic(auto, unfolding(c_model::specs::ProgramGrammar::empty_statement))]
fn empty_statement<'a>(
    alloc: Global,
    words: &[Word],
    state: AnnotationState,
    tokens: &'a [Token],
) -> StatementRead<'a>
    ensures { Gives (λ x. ((plain_stmt x.0, x.1), plain_list x.2.now)) result
        ((empty_statement words.now state).parse (plain_list tokens.now)) }
{
    let (place, rest) = skip(words, SEMICOLON, tokens)?;
    with_statement(alloc, place, StmtKind::Empty, state, rest)
}

/// `"else" stmt`, after an `if` with its first branch.
#[tactic(auto, unfolding(c_model::specs::ProgramGrammar::else_branch))]
#[cycle(statement)]
fn else_branch<'a>(
    alloc: Global,
    words: &[Word],
    levels: u32,
    place: Place,
    e: Expr,
    then: Stmt,
    state: AnnotationState,
    tokens: &'a [Token],
) -> StatementRead<'a>
    ensures { Gives (λ x. ((plain_stmt x.0, x.1), plain_list x.2.now)) result
        ((else_branch words.now (branch_in words.now levels) place (plain_expr e) (plain_stmt then, state)).parse (plain_list tokens.now)) }
{
    let (parts, (_, rest)) = kept((e, then), skip(words, ELSE, tokens))?;
    let ((e, then), (otherwise, state, rest)) = kept(
        parts,
        branch(alloc, words, levels, state, rest),
    )?;
    let kind = StmtKind::If(e, then, Some(otherwise));
    with_statement(alloc, place, kind, state, rest)
}

/// `[ "else" stmt ]`, which goes with the nearest `if`.
#[tactic(auto, unfolding(c_model::specs::ProgramGrammar::else_part))]
#[cycle(statement)]
fn else_part<'a>(
    alloc: Global,
    words: &[Word],
    levels: u32,
    place: Place,
    e: Expr,
    then: Stmt,
    state: AnnotationState,
    tokens: &'a [Token],
) -> StatementRead<'a>
    ensures { Gives (λ x. ((plain_stmt x.0, x.1), plain_list x.2.now)) result
        ((else_part words.now (branch_in words.now levels) place (plain_expr e) (plain_stmt then, state)).parse (plain_list tokens.now)) }
{
    if is_open(&then) {
        with_statement(alloc, place, StmtKind::If(e, then, None), state, tokens)
    } else if next_is(words, ELSE, tokens) {
        else_branch(alloc, words, levels, place, e, then, state, tokens)
    } else {
        with_statement(alloc, place, StmtKind::If(e, then, None), state, tokens)
    }
}

/// `"if" "(" comma ")" stmt [ "else" stmt ]`
#[tactic(auto, unfolding(c_model::specs::ProgramGrammar::selection))]
#[cycle(statement)]
#[inline(never)]
fn selection<'a>(
    alloc: Global,
    words: &[Word],
    levels: u32,
    state: AnnotationState,
    tokens: &'a [Token],
) -> StatementRead<'a>
    ensures { Gives (λ x. ((plain_stmt x.0, x.1), plain_list x.2.now)) result
        ((selection words.now (branch_in words.now levels) state).parse (plain_list tokens.now)) }
{
    let (place, rest) = skip(words, IF, tokens)?;
    let (e, rest) = condition(alloc, words, rest)?;
    let (e, (then, state, rest)) = kept(e, branch(alloc, words, levels, state, rest))?;
    else_part(alloc, words, levels, place, e, then, state, rest)
}

/// `"while" "(" comma ")" stmt`
#[tactic(auto, unfolding(c_model::specs::ProgramGrammar::while_loop))]
#[cycle(statement)]
#[inline(never)]
fn while_loop<'a>(
    alloc: Global,
    words: &[Word],
    levels: u32,
    annots: Vec<Annot>,
    state: AnnotationState,
    tokens: &'a [Token],
) -> StatementRead<'a>
    ensures { Gives (λ x. ((plain_stmt x.0, x.1), plain_list x.2.now)) result
        ((while_loop words.now (branch_in words.now levels) (map plain_annot annots.items) state).parse (plain_list tokens.now)) }
{
    let (annots, (place, rest)) = kept(annots, skip(words, WHILE, tokens))?;
    let (annots, (e, rest)) = kept(annots, condition(alloc, words, rest))?;
    let ((annots, e), (body, state, rest)) = kept(
        (annots, e),
        branch(alloc, words, levels, state, rest),
    )?;
    let kind = StmtKind::While(annots, e, body);
    with_statement(alloc, place, kind, state, rest)
}

/// `";"`, after a `do` with its condition.
#[tactic(auto, unfolding(c_model::specs::DeclarationGrammar::ended))]
fn ended_do<'a>(
    alloc: Global,
    words: &[Word],
    place: Place,
    body: Stmt,
    e: Expr,
    state: AnnotationState,
    tokens: &'a [Token],
) -> StatementRead<'a>
    ensures { Gives (λ x. ((plain_stmt x.0, x.1), plain_list x.2.now)) result
        ((ended_do words.now place (plain_stmt body) (plain_expr e) state).parse (plain_list tokens.now)) }
{
    let (_, rest) = skip(words, SEMICOLON, tokens)?;
    with_statement(alloc, place, StmtKind::Do(body, e), state, rest)
}

/// `"do" stmt "while" "(" comma ")" ";"`
#[tactic(auto, unfolding(c_model::specs::ProgramGrammar::do_loop))]
#[cycle(statement)]
#[inline(never)]
fn do_loop<'a>(
    alloc: Global,
    words: &[Word],
    levels: u32,
    state: AnnotationState,
    tokens: &'a [Token],
) -> StatementRead<'a>
    ensures { Gives (λ x. ((plain_stmt x.0, x.1), plain_list x.2.now)) result
        ((do_loop words.now (branch_in words.now levels) state).parse (plain_list tokens.now)) }
{
    let (place, rest) = skip(words, DO, tokens)?;
    let (body, state, rest) = branch(alloc, words, levels, state, rest)?;
    let (_, rest) = skip(words, WHILE, rest)?;
    let (e, rest) = condition(alloc, words, rest)?;
    ended_do(alloc, words, place, body, e, state, rest)
}

/// `"for" "(" ( decl | [ comma ] ";" ) [ comma ] ";" [ comma ] ")" stmt`
#[tactic(auto, unfolding(c_model::specs::ProgramGrammar::for_loop, crate::specs::Reading::for_heading))]
#[cycle(statement)]
#[inline(never)]
fn for_loop<'a>(
    alloc: Global,
    words: &[Word],
    levels: u32,
    annots: Vec<Annot>,
    state: AnnotationState,
    tokens: &'a [Token],
) -> StatementRead<'a>
    ensures { Gives (λ x. ((plain_stmt x.0, x.1), plain_list x.2.now)) result
        ((for_loop words.now (branch_in words.now levels) (map plain_annot annots.items) state).parse (plain_list tokens.now)) }
{
    let (annots, (heading, state, rest)) = kept(annots, for_heading(alloc, words, state, tokens))?;
    let ((annots, heading), (body, state, rest)) = kept(
        (annots, heading),
        branch(alloc, words, levels, state, rest),
    )?;
    let place = heading.place;
    with_statement(alloc, place, for_kind(annots, heading, body), state, rest)
}

/// A loop, with the annotations that belong to it.
#[tactic(auto, unfolding(c_model::specs::ProgramGrammar::loop_of))]
#[cycle(statement)]
fn loop_of<'a>(
    alloc: Global,
    words: &[Word],
    levels: u32,
    annots: Vec<Annot>,
    state: AnnotationState,
    tokens: &'a [Token],
) -> StatementRead<'a>
    ensures { Gives (λ x. ((plain_stmt x.0, x.1), plain_list x.2.now)) result
        ((loop_of words.now (branch_in words.now levels) (map plain_annot annots.items) state).parse (plain_list tokens.now)) }
{
    if next_is(words, WHILE, tokens) {
        while_loop(alloc, words, levels, annots, state, tokens)
    } else {
        for_loop(alloc, words, levels, annots, state, tokens)
    }
}

/// A statement as an item.
#[tactic(auto, unfolding(c_model::specs::ProgramGrammar::run_item))]
#[cycle(statement)]
fn run_item<'a>(
    alloc: Global,
    words: &[Word],
    levels: u32,
    state: AnnotationState,
    tokens: &'a [Token],
) -> ItemRead<'a>
    ensures { Gives (λ x. ((plain_item x.0, x.1), plain_list x.2.now)) result
        ((run_item words.now (statement_in words.now levels) state).parse (plain_list tokens.now)) }
{
    let (s, state, rest) = statement(alloc, words, levels, state, tokens)?;
    Ok((make_run(s), state, rest))
}

/// What stands behind an annotation in a block: nothing behind asserts, which are an item, and else the rest of a statement.
#[tactic(auto, unfolding(c_model::specs::ProgramGrammar::behind_annotation, c_model::specs::ProgramGrammar::run_item))]
#[cycle(statement)]
fn behind_annotation<'a>(
    alloc: Global,
    words: &[Word],
    levels: u32,
    state: AnnotationState,
    read: ReadAnnotation,
    number: u32,
    tokens: &'a [Token],
) -> ItemRead<'a>
    ensures { Gives (λ x. ((plain_item x.0, x.1), plain_list x.2.now)) result
        ((behind_annotation words.now (inside_in words.now levels) state (plain_read read, number)).parse (plain_list tokens.now)) }
{
    match read {
        ReadAnnotation::Asserts(asserts) => {
            Ok((make_asserts(asserts), after_placed(state, number), tokens))
        }
        ReadAnnotation::Contract(contract) => {
            let read = ReadAnnotation::Contract(contract);
            let (s, state, rest) = inside(alloc, words, levels, read, number, state, tokens)?;
            Ok((make_run(s), state, rest))
        }
        ReadAnnotation::Loop(all) => {
            let read = ReadAnnotation::Loop(all);
            let (s, state, rest) = inside(alloc, words, levels, read, number, state, tokens)?;
            Ok((make_run(s), state, rest))
        }
    }
}

/// An annotation, and what stands behind it.
#[tactic(auto, unfolding(c_model::specs::ProgramGrammar::annotated_item))]
#[cycle(statement)]
fn annotated_item<'a>(
    alloc: Global,
    words: &[Word],
    levels: u32,
    state: AnnotationState,
    tokens: &'a [Token],
) -> ItemRead<'a>
    ensures { Gives (λ x. ((plain_item x.0, x.1), plain_list x.2.now)) result
        ((annotated_item words.now (inside_in words.now levels) state).parse (plain_list tokens.now)) }
{
    let (read, number, rest) = annotations(alloc, words, state.number, tokens)?;
    behind_annotation(alloc, words, levels, state, read, number, rest)
}

/// An annotation, a declaration or a statement.
#[tactic(auto, unfolding(c_model::specs::ProgramGrammar::item))]
#[cycle(statement)]
fn item<'a>(
    alloc: Global,
    words: &[Word],
    levels: u32,
    state: AnnotationState,
    tokens: &'a [Token],
) -> ItemRead<'a>
    ensures { Gives (λ x. ((plain_item x.0, x.1), plain_list x.2.now)) result
        ((item words.now (statement_in words.now levels) (inside_in words.now levels) state).parse (plain_list tokens.now)) }
{
    if next_is(words, ANNOT_OPEN, tokens) {
        annotated_item(alloc, words, levels, state, tokens)
    } else if next_begins_type(words, tokens) {
        let (item, rest) = declaration(alloc, words, tokens)?;
        Ok((item, state, rest))
    } else {
        run_item(alloc, words, levels, state, tokens)
    }
}

#[tactic(auto, unfolding(c_model::specs::ProgramGrammar::items_once))]
#[cycle(statement)]
fn items_once<'a>(
    alloc: Global,
    words: &[Word],
    levels: u32,
    all: Vec<Item>,
    state: AnnotationState,
    tokens: &'a [Token],
) -> Result<(Vec<Item>, AnnotationState, &'a [Token]), ReadFault>
    ensures { Gives (λ x. ((map plain_item x.0.items, x.1), plain_list x.2.now)) result
        ((items_once words.now (statement_in words.now levels) (inside_in words.now levels) (map plain_item all.items, state)).parse (plain_list tokens.now)) }
{
    let mut all = all;
    let (one, state, rest) = item(alloc, words, levels, state, tokens)?;
    all.push(one)?;
    Ok((all, state, rest))
}

/// The items after those that are read.
#[tactic(auto, using(crate::proofs::Steps::items_rules))]
#[cycle(statement)]
pub fn items<'a>(
    alloc: Global,
    words: &[Word],
    levels: u32,
    all: Vec<Item>,
    state: AnnotationState,
    tokens: &'a [Token],
) -> Result<(Vec<Item>, AnnotationState, &'a [Token]), ReadFault>
    ensures { Gives (λ x. ((map plain_item x.0.items, x.1), plain_list x.2.now)) result
        ((items words.now (statement_in words.now levels) (inside_in words.now levels) (map plain_item all.items, state)).parse (plain_list tokens.now)) }
{
    let mut all = all;
    let mut state = state;
    let mut rest = tokens;
    'turn: while next_begins_item(words, rest) {
        let (more, next, after) = items_once(alloc, words, levels, all, state, rest)?;
        all = more;
        state = next;
        rest = after;
    }
    Ok((all, state, rest))
}

/// `"{" { item } "}"`
#[tactic(auto, unfolding(c_model::specs::ProgramGrammar::block))]
#[cycle(statement)]
fn block<'a>(
    alloc: Global,
    words: &[Word],
    levels: u32,
    state: AnnotationState,
    tokens: &'a [Token],
) -> StatementRead<'a>
    ensures { Gives (λ x. ((plain_stmt x.0, x.1), plain_list x.2.now)) result
        ((block words.now (statement_in words.now levels) (inside_in words.now levels) state).parse (plain_list tokens.now)) }
{
    let (place, rest) = skip(words, LEFT_BRACE, tokens)?;
    let (all, state, rest) = items(alloc, words, levels, Vec::new(alloc), state, rest)?;
    let (_, rest) = skip(words, RIGHT_BRACE, rest)?;
    Ok((make_block(alloc, place, all)?, state, rest))
}

/// An annotation or a statement.
#[tactic(auto, unfolding(c_model::specs::ProgramGrammar::case_item))]
#[cycle(statement)]
fn case_item<'a>(
    alloc: Global,
    words: &[Word],
    levels: u32,
    state: AnnotationState,
    tokens: &'a [Token],
) -> ItemRead<'a>
    ensures { Gives (λ x. ((plain_item x.0, x.1), plain_list x.2.now)) result
        ((case_item words.now (statement_in words.now levels) (inside_in words.now levels) state).parse (plain_list tokens.now)) }
{
    if next_is(words, ANNOT_OPEN, tokens) {
        annotated_item(alloc, words, levels, state, tokens)
    } else {
        run_item(alloc, words, levels, state, tokens)
    }
}

#[tactic(auto, unfolding(c_model::specs::ProgramGrammar::case_items_once))]
#[cycle(statement)]
fn case_items_once<'a>(
    alloc: Global,
    words: &[Word],
    levels: u32,
    all: Vec<Item>,
    state: AnnotationState,
    tokens: &'a [Token],
) -> Result<(Vec<Item>, AnnotationState, &'a [Token]), ReadFault>
    ensures { Gives (λ x. ((map plain_item x.0.items, x.1), plain_list x.2.now)) result
        ((case_items_once words.now (statement_in words.now levels) (inside_in words.now levels) (map plain_item all.items, state)).parse
        (plain_list tokens.now)) }
{
    let mut all = all;
    let (one, state, rest) = case_item(alloc, words, levels, state, tokens)?;
    all.push(one)?;
    Ok((all, state, rest))
}

/// The items of a case after those that are read.
#[tactic(auto, using(crate::proofs::Steps::case_items_rules))]
#[cycle(statement)]
fn case_items<'a>(
    alloc: Global,
    words: &[Word],
    levels: u32,
    all: Vec<Item>,
    state: AnnotationState,
    tokens: &'a [Token],
) -> Result<(Vec<Item>, AnnotationState, &'a [Token]), ReadFault>
    ensures { Gives (λ x. ((map plain_item x.0.items, x.1), plain_list x.2.now)) result
        ((case_items words.now (statement_in words.now levels) (inside_in words.now levels) (map plain_item all.items, state)).parse (plain_list tokens.now)) }
{
    let mut all = all;
    let mut state = state;
    let mut rest = tokens;
    'turn: while next_begins_branch(words, rest) {
        let (more, next, after) = case_items_once(alloc, words, levels, all, state, rest)?;
        all = more;
        state = next;
        rest = after;
    }
    Ok((all, state, rest))
}

/// A case, after others.
#[tactic(auto, unfolding(c_model::specs::ProgramGrammar::next_case))]
#[cycle(statement)]
fn next_case<'a>(
    alloc: Global,
    words: &[Word],
    levels: u32,
    all: Vec<Case>,
    state: AnnotationState,
    tokens: &'a [Token],
) -> Result<(Vec<Case>, AnnotationState, &'a [Token]), ReadFault>
    ensures { Gives (λ x. ((map read_case x.0.items, x.1), plain_list x.2.now)) result
        ((next_case words.now (statement_in words.now levels) (inside_in words.now levels) (map read_case all.items, state)).parse (plain_list tokens.now)) }
{
    let (all, (place, value, rest)) = kept(all, case_label(alloc, words, tokens))?;
    let ((all, value), (items, state, rest)) = kept(
        (all, value),
        case_items(alloc, words, levels, Vec::new(alloc), state, rest),
    )?;
    let mut all = all;
    all.push(Case {
        place,
        value,
        items,
    })?;
    Ok((all, state, rest))
}

/// The cases after those that are read.
#[tactic(auto, using(crate::proofs::Steps::cases_rules))]
#[cycle(statement)]
fn cases<'a>(
    alloc: Global,
    words: &[Word],
    levels: u32,
    all: Vec<Case>,
    state: AnnotationState,
    tokens: &'a [Token],
) -> Result<(Vec<Case>, AnnotationState, &'a [Token]), ReadFault>
    ensures { Gives (λ x. ((map read_case x.0.items, x.1), plain_list x.2.now)) result
        ((cases words.now (statement_in words.now levels) (inside_in words.now levels) (map read_case all.items, state)).parse (plain_list tokens.now)) }
{
    let mut all = all;
    let mut state = state;
    let mut rest = tokens;
    'turn: while next_begins_case(words, rest) {
        let (more, next, after) = next_case(alloc, words, levels, all, state, rest)?;
        all = more;
        state = next;
        rest = after;
    }
    Ok((all, state, rest))
}

/// `"switch" "(" comma ")" "{" { case } "}"`
#[tactic(auto, unfolding(c_model::specs::ProgramGrammar::switch_statement))]
#[cycle(statement)]
#[inline(never)]
fn switch_statement<'a>(
    alloc: Global,
    words: &[Word],
    levels: u32,
    state: AnnotationState,
    tokens: &'a [Token],
) -> StatementRead<'a>
    ensures { Gives (λ x. ((plain_stmt x.0, x.1), plain_list x.2.now)) result
        ((switch_statement words.now (statement_in words.now levels) (inside_in words.now levels) state).parse (plain_list tokens.now)) }
{
    let (place, rest) = skip(words, SWITCH, tokens)?;
    let (e, rest) = condition(alloc, words, rest)?;
    let (e, (_, rest)) = kept(e, skip(words, LEFT_BRACE, rest))?;
    let (e, (all, state, rest)) = kept(
        e,
        cases(alloc, words, levels, Vec::new(alloc), state, rest),
    )?;
    let ((e, all), (_, rest)) = kept((e, all), skip(words, RIGHT_BRACE, rest))?;
    Ok((make_switch(alloc, place, e, all)?, state, rest))
}

/// `":" stmt`, behind a name, which is a label.
#[tactic(auto, unfolding(c_model::specs::ProgramGrammar::labelled_statement))]
#[cycle(statement)]
#[inline(never)]
fn labelled_statement<'a>(
    alloc: Global,
    words: &[Word],
    levels: u32,
    number: u32,
    place: Place,
    state: AnnotationState,
    tokens: &'a [Token],
) -> StatementRead<'a>
    ensures { Gives (λ x. ((plain_stmt x.0, x.1), plain_list x.2.now)) result
        ((labelled_statement words.now (branch_in words.now levels) (number, place) state).parse (plain_list tokens.now)) }
{
    let (_, rest) = skip(words, COLON, tokens)?;
    let (inner, state, rest) = branch(alloc, words, levels, state, rest)?;
    with_statement(alloc, place, StmtKind::Labelled(number, inner), state, rest)
}

/// A statement that begins with a name.
#[tactic(auto, unfolding(c_model::specs::ProgramGrammar::named_statement))]
#[cycle(statement)]
#[inline(never)]
fn named_statement<'a>(
    alloc: Global,
    words: &[Word],
    levels: u32,
    state: AnnotationState,
    tokens: &'a [Token],
) -> StatementRead<'a>
    ensures { Gives (λ x. ((plain_stmt x.0, x.1), plain_list x.2.now)) result
        ((named_statement words.now (branch_in words.now levels) state).parse (plain_list tokens.now)) }
{
    let (number, place, rest) = name(words, tokens)?;
    if next_is(words, COLON, rest) {
        labelled_statement(alloc, words, levels, number, place, state, rest)
    } else {
        effect_behind(alloc, words, number, place, state, rest)
    }
}

/// A statement that is no loop to which annotations may belong.
#[tactic(auto, unfolding(c_model::specs::ProgramGrammar::unlooped_of))]
#[cycle(statement)]
fn unlooped<'a>(
    alloc: Global,
    words: &[Word],
    levels: u32,
    state: AnnotationState,
    tokens: &'a [Token],
) -> StatementRead<'a>
    ensures { Gives (λ x. ((plain_stmt x.0, x.1), plain_list x.2.now)) result
        ((unlooped_of words.now (statement_in words.now levels) (inside_in words.now levels) (branch_in words.now levels)
        state).parse (plain_list tokens.now)) }
{
    if next_is(words, LEFT_BRACE, tokens) {
        block(alloc, words, levels, state, tokens)
    } else if next_is(words, SEMICOLON, tokens) {
        empty_statement(alloc, words, state, tokens)
    } else if next_is(words, IF, tokens) {
        selection(alloc, words, levels, state, tokens)
    } else if next_is(words, DO, tokens) {
        do_loop(alloc, words, levels, state, tokens)
    } else if next_is(words, SWITCH, tokens) {
        switch_statement(alloc, words, levels, state, tokens)
    } else if next_is(words, RETURN, tokens) {
        return_statement(alloc, words, state, tokens)
    } else if next_is_jump(words, tokens) {
        jump(alloc, words, state, tokens)
    } else if next_is(words, NAME, tokens) {
        named_statement(alloc, words, levels, state, tokens)
    } else {
        effect_statement(alloc, words, state, tokens)
    }
}

/// A statement in which statements stand at most so many levels deep, itself included.
#[tactic(auto, using(crate::proofs::Steps::statement_rules), unfolding(c_model::specs::ProgramGrammar::statement_of))]
#[cycle(statement)]
fn statement<'a>(
    alloc: Global,
    words: &[Word],
    levels: u32,
    state: AnnotationState,
    tokens: &'a [Token],
) -> StatementRead<'a>
    ensures { Gives (λ x. ((plain_stmt x.0, x.1), plain_list x.2.now)) result ((statement_in words.now levels state).parse
        (plain_list tokens.now)) }
{
    if levels == 0 {
        return if next_begins_statement(words, tokens) {
            Err(ReadFault::Over(Limit::Nesting, left(tokens)))
        } else {
            Err(ReadFault::At(left(tokens)))
        };
    }
    if next_is_loop(words, tokens) {
        loop_of(alloc, words, levels - 1, Vec::new(alloc), state, tokens)
    } else {
        unlooped(alloc, words, levels - 1, state, tokens)
    }
}

/// A statement inside another that is one too deep.
fn too_deep(words: &[Word], tokens: &[Token]) -> ReadFault
    ensures { Fails result (deep_fault words.now (plain_list tokens.now)) }
{
    if next_begins_branch(words, tokens) {
        ReadFault::Over(Limit::Nesting, left(tokens))
    } else {
        ReadFault::At(left(tokens))
    }
}

/// A statement inside another, in which statements stand at most so many levels deep, itself included.
#[tactic(auto, using(crate::proofs::Steps::branch_rules), unfolding(c_model::specs::ProgramGrammar::branch_of))]
#[cycle(statement)]
fn branch<'a>(
    alloc: Global,
    words: &[Word],
    levels: u32,
    state: AnnotationState,
    tokens: &'a [Token],
) -> StatementRead<'a>
    ensures { Gives (λ x. ((plain_stmt x.0, x.1), plain_list x.2.now)) result ((branch_in words.now levels state).parse
        (plain_list tokens.now)) }
{
    if levels == 0 {
        return Err(too_deep(words, tokens));
    }
    if next_is(words, ANNOT_OPEN, tokens) {
        let (read, number, rest) = annotations(alloc, words, state.number, tokens)?;
        behind(alloc, words, levels - 1, read, number, state, rest)
    } else {
        statement(alloc, words, levels, state, tokens)
    }
}

/// A loop, or a branch before which the clauses of a loop are misplaced.
#[tactic(auto, using(crate::proofs::Steps::behind_loop_rules))]
#[cycle(statement)]
fn behind_loop<'a>(
    alloc: Global,
    words: &[Word],
    levels: u32,
    all: LoopAnnotation,
    number: u32,
    state: AnnotationState,
    tokens: &'a [Token],
) -> StatementRead<'a>
    requires { 0 < levels }
    ensures { Gives (λ x. ((plain_stmt x.0, x.1), plain_list x.2.now)) result
        ((behind_in words.now levels (Looped (plain_loop all), number) state).parse (plain_list tokens.now)) }
{
    if next_is_loop(words, tokens) {
        let state = after_loop(state, &all, number);
        loop_of(alloc, words, levels - 1, all.clauses, state, tokens)
    } else {
        let misplaced = first_misplaced(state.misplaced, Some(all.place));
        drop(all);
        let state = AnnotationState { number, misplaced };
        branch(alloc, words, levels, state, tokens)
    }
}

/// What stands behind an annotation inside a statement, in which statements stand at most so many levels deep, itself included.
#[tactic(auto, using(crate::proofs::Steps::behind_rules))]
#[cycle(statement)]
fn behind<'a>(
    alloc: Global,
    words: &[Word],
    levels: u32,
    read: ReadAnnotation,
    number: u32,
    state: AnnotationState,
    tokens: &'a [Token],
) -> StatementRead<'a>
    ensures { Gives (λ x. ((plain_stmt x.0, x.1), plain_list x.2.now)) result
        ((behind_in words.now levels (plain_read read, number) state).parse (plain_list tokens.now)) }
{
    if levels == 0 {
        drop(read);
        return Err(too_deep(words, tokens));
    }
    match read {
        ReadAnnotation::Loop(all) => behind_loop(alloc, words, levels, all, number, state, tokens),
        ReadAnnotation::Asserts(asserts) => {
            let read = ReadAnnotation::Asserts(asserts);
            let state = after_misplaced(state, &read, number);
            drop(read);
            branch(alloc, words, levels, state, tokens)
        }
        ReadAnnotation::Contract(contract) => {
            let read = ReadAnnotation::Contract(contract);
            let state = after_misplaced(state, &read, number);
            drop(read);
            branch(alloc, words, levels, state, tokens)
        }
    }
}

/// What stands inside a statement in which statements stand at most so many levels deep, where an annotation begins it.
#[tactic(auto, using(crate::proofs::Steps::inside_rules))]
#[cycle(statement)]
fn inside<'a>(
    alloc: Global,
    words: &[Word],
    levels: u32,
    read: ReadAnnotation,
    number: u32,
    state: AnnotationState,
    tokens: &'a [Token],
) -> StatementRead<'a>
    ensures { Gives (λ x. ((plain_stmt x.0, x.1), plain_list x.2.now)) result
        ((inside_in words.now levels (plain_read read, number) state).parse (plain_list tokens.now)) }
{
    if levels == 0 {
        drop(read);
        return Err(too_deep(words, tokens));
    }
    behind(alloc, words, levels - 1, read, number, state, tokens)
}
