//! Statements.

ghost use Rattle.std.specs.Prelude.{◌≡◌, map, IfOk, IfErr};
ghost use Rattle.mon_syntax.specs.Parsed as tree;
ghost use Rattle.mon_syntax.specs.Grammar.{is_step_word, is_step, has_step, with_statement, parsed_list, ended, set_to_call, set_to_name, set_to, behind_name};
ghost use Rattle.mon_syntax.specs.Grammar.{one_more, body, selection, one_more_in_loop, loop_end, iteration, labelled, jump, returned, return_statement};
ghost use Rattle.mon_syntax.specs.Grammar.{statement_in};
ghost use Rattle.mon_parser.specs.ParsedTrees.{plain_name, plain_expr, plain_stmt};
ghost use Rattle.mon_parser.specs.Reading.{plain_loop, more_statements, more_in_loop, call_statement, named_statement};
ghost use Rattle.token_reader.specs.Reading.{Gives, TakesNoMemory, plain_list};
ghost use Rattle.mon_parser.specs.Reading.{condition, branches, second_branch, forever, loop_body, label_behind, label_end};

use crate::call::call_of;
use crate::expression::{expression, expression_but_name};
use crate::kinds::{
    ASSIGN, COLON, ELSE, GOTO, IF, LEFT_BRACE, LEFT_PAREN, NAME, RETURN, RIGHT_BRACE, RIGHT_PAREN,
    SEMICOLON, TIMES, WHILE, word_at,
};
use crate::parsed::{NameUse, ParsedExpr, ParsedExprKind, ParsedStmt, ParsedStmtKind};
use crate::store::store;
use crate::terminals::{
    name, next_begins_expression, next_begins_statement, next_is, skip, this_number,
};
use c_syntax::fault::{Limit, ReadFault};
use c_syntax::{Place, Token};
use mon_syntax::{Runtime, Word};
use std::alloc::{AllocError, AllocFailed, Global};
use token_reader::terminals::left;

/// The statements of a loop that are read so far: those before its step, and those after it where it is read.
#[derive(Drop)]
struct LoopRead {
    before: Vec<ParsedStmt>,
    behind: Option<Vec<ParsedStmt>>,
}

fn is_step_word(word: Word) -> bool
    ensures { result ≡ is_step_word word }
{
    match word {
        Word::Runtime(Runtime::Step) => true,
        _ => false,
    }
}

/// Whether the statement is `__e_acsl_step();`.
fn is_step(words: &[Word], statement: &ParsedStmt) -> bool
    ensures { result ≡ is_step words.now (plain_stmt statement.now) }
{
    match &*statement.kind {
        ParsedStmtKind::Call(call) => {
            is_step_word(word_at(words, call.callee.number)) && call.arguments.is_empty()
        }
        ParsedStmtKind::Set(_, _, _)
        | ParsedStmtKind::Store(_, _, _, _)
        | ParsedStmtKind::Take(_, _, _)
        | ParsedStmtKind::If(_, _, _)
        | ParsedStmtKind::Loop(_, _)
        | ParsedStmtKind::Labelled(_, _)
        | ParsedStmtKind::Goto(_)
        | ParsedStmtKind::Return(_, _) => false,
    }
}

fn has_step(read: &LoopRead) -> bool
    ensures { result ≡ has_step (plain_loop read.now) }
{
    read.behind.is_some()
}

fn with_statement(
    alloc: Global,
    words: &[Word],
    read: LoopRead,
    statement: ParsedStmt,
) -> Result<LoopRead, AllocFailed<ParsedStmt>>
    ensures { IfOk result (λ x. plain_loop x ≡ with_statement words.now (plain_loop read) (plain_stmt statement)) }
{
    let LoopRead { before, behind } = read;
    let mut before = before;
    match behind {
        Some(behind) => {
            let mut behind = behind;
            behind.push(statement)?;
            let behind = Some(behind);
            Ok(LoopRead { before, behind })
        }
        None => {
            if is_step(words, &statement) {
                let behind = Some(Vec::new(alloc));
                Ok(LoopRead { before, behind })
            } else {
                before.push(statement)?;
                let behind = None;
                Ok(LoopRead { before, behind })
            }
        }
    }
}

fn make_if(
    alloc: Global,
    condition: ParsedExpr,
    then: Vec<ParsedStmt>,
    otherwise: Vec<ParsedStmt>,
) -> Result<ParsedStmt, AllocError>
    ensures { IfOk result (λ s. plain_stmt s ≡ tree.If (plain_expr condition) (parsed_list (map plain_stmt then.items))
        (parsed_list (map plain_stmt otherwise.items))) }
{
    ParsedStmt::new(alloc, ParsedStmtKind::If(condition, then, otherwise))
}

fn make_loop(
    alloc: Global,
    before: Vec<ParsedStmt>,
    behind: Vec<ParsedStmt>,
) -> Result<ParsedStmt, AllocError>
    ensures { IfOk result (λ s. plain_stmt s ≡ tree.Loop (parsed_list (map plain_stmt before.items)) (parsed_list (map plain_stmt behind.items))) }
{
    ParsedStmt::new(alloc, ParsedStmtKind::Loop(before, behind))
}

fn make_labelled(
    alloc: Global,
    body: Vec<ParsedStmt>,
    label: NameUse,
) -> Result<ParsedStmt, AllocError>
    ensures { IfOk result (λ s. plain_stmt s ≡ tree.Labelled (parsed_list (map plain_stmt body.items)) (plain_name label)) }
{
    ParsedStmt::new(alloc, ParsedStmtKind::Labelled(body, label))
}

/// `";"`, after a statement.
#[tactic(auto, unfolding(mon_syntax::specs::Grammar::ended))]
pub fn ended<'a>(
    words: &[Word],
    statement: ParsedStmt,
    tokens: &'a [Token],
) -> Result<(ParsedStmt, &'a [Token]), ReadFault>
    ensures read { Gives (λ x. (plain_stmt x.0, plain_list x.1.now)) result ((ended words.now (plain_stmt statement)).parse (plain_list tokens.now)) }
    ensures sure { IfErr result TakesNoMemory }
{
    let (_, rest) = skip(words, SEMICOLON, tokens)?;
    Ok((statement, rest))
}

#[tactic(auto, unfolding(mon_syntax::specs::Grammar::set_to_call))]
fn set_to_call<'a>(
    alloc: Global,
    words: &[Word],
    target: NameUse,
    place: Place,
    callee: NameUse,
    tokens: &'a [Token],
) -> Result<(ParsedStmt, &'a [Token]), ReadFault>
    ensures { Gives (λ x. (plain_stmt x.0, plain_list x.1.now)) result ((set_to_call words.now (plain_name target) place (plain_name callee)).parse
        (plain_list tokens.now)) }
{
    let (call, rest) = call_of(alloc, words, false, callee, tokens)?;
    let statement = ParsedStmt::new(alloc, ParsedStmtKind::Take(target, place, call))?;
    ended(words, statement, rest)
}

/// After `NAME "=" NAME`.
#[tactic(auto, unfolding(mon_syntax::specs::Grammar::set_to_name))]
fn set_to_name<'a>(
    alloc: Global,
    words: &[Word],
    target: NameUse,
    place: Place,
    x: NameUse,
    tokens: &'a [Token],
) -> Result<(ParsedStmt, &'a [Token]), ReadFault>
    ensures { Gives (λ x. (plain_stmt x.0, plain_list x.1.now)) result ((set_to_name words.now (plain_name target) place (plain_name x)).parse
        (plain_list tokens.now)) }
{
    if next_is(words, LEFT_PAREN, tokens) {
        set_to_call(alloc, words, target, place, x, tokens)
    } else {
        let value = ParsedExpr::new(alloc, ParsedExprKind::Name(x))?;
        let statement = ParsedStmt::new(alloc, ParsedStmtKind::Set(target, place, value))?;
        ended(words, statement, tokens)
    }
}

/// After `NAME "="`.
#[tactic(auto, unfolding(mon_syntax::specs::Grammar::set_to))]
fn set_to<'a>(
    alloc: Global,
    words: &[Word],
    target: NameUse,
    place: Place,
    tokens: &'a [Token],
) -> Result<(ParsedStmt, &'a [Token]), ReadFault>
    ensures { Gives (λ x. (plain_stmt x.0, plain_list x.1.now)) result ((set_to words.now (plain_name target) place).parse (plain_list tokens.now)) }
{
    if next_is(words, NAME, tokens) {
        let (x, rest) = name(words, tokens)?;
        set_to_name(alloc, words, target, place, x, rest)
    } else {
        let (value, rest) = expression_but_name(alloc, words, tokens)?;
        let statement = ParsedStmt::new(alloc, ParsedStmtKind::Set(target, place, value))?;
        ended(words, statement, rest)
    }
}

/// A call whose value isn't taken, after its name; it has an argument where it is to have one.
#[tactic(auto, unfolding(crate::specs::Reading::call_statement))]
fn call_statement<'a>(
    alloc: Global,
    words: &[Word],
    some: bool,
    callee: NameUse,
    tokens: &'a [Token],
) -> Result<(ParsedStmt, &'a [Token]), ReadFault>
    ensures { Gives (λ x. (plain_stmt x.0, plain_list x.1.now)) result ((call_statement words.now some (plain_name callee)).parse (plain_list tokens.now)) }
{
    let (call, rest) = call_of(alloc, words, some, callee, tokens)?;
    let statement = ParsedStmt::new(alloc, ParsedStmtKind::Call(call))?;
    ended(words, statement, rest)
}

/// After a name: an assignment or a call, which is no `__e_acsl_step();` where it may be none.
#[tactic(auto, unfolding(mon_syntax::specs::Grammar::behind_name, crate::specs::Reading::call_statement))]
fn behind_name<'a>(
    alloc: Global,
    words: &[Word],
    no_step: bool,
    x: NameUse,
    tokens: &'a [Token],
) -> Result<(ParsedStmt, &'a [Token]), ReadFault>
    ensures { Gives (λ x. (plain_stmt x.0, plain_list x.1.now)) result ((behind_name words.now no_step (plain_name x)).parse (plain_list tokens.now)) }
{
    if next_is(words, ASSIGN, tokens) {
        let (place, rest) = skip(words, ASSIGN, tokens)?;
        set_to(alloc, words, x, place, rest)
    } else {
        let some = no_step && is_step_word(word_at(words, x.number));
        call_statement(alloc, words, some, x, tokens)
    }
}

/// An assignment or a call, which is no `__e_acsl_step();` where it may be none.
#[tactic(auto, unfolding(crate::specs::Reading::named_statement))]
#[inline(never)]
fn named_statement<'a>(
    alloc: Global,
    words: &[Word],
    no_step: bool,
    tokens: &'a [Token],
) -> Result<(ParsedStmt, &'a [Token]), ReadFault>
    ensures { Gives (λ x. (plain_stmt x.0, plain_list x.1.now)) result ((named_statement words.now no_step).parse (plain_list tokens.now)) }
{
    let (x, rest) = name(words, tokens)?;
    behind_name(alloc, words, no_step, x, rest)
}

/// `"goto" NAME ";"`
#[tactic(auto, unfolding(mon_syntax::specs::Grammar::jump))]
fn jump<'a>(
    alloc: Global,
    words: &[Word],
    tokens: &'a [Token],
) -> Result<(ParsedStmt, &'a [Token]), ReadFault>
    ensures { Gives (λ x. (plain_stmt x.0, plain_list x.1.now)) result ((jump words.now).parse (plain_list tokens.now)) }
{
    let (_, rest) = skip(words, GOTO, tokens)?;
    let (label, rest) = name(words, rest)?;
    let statement = ParsedStmt::new(alloc, ParsedStmtKind::Goto(label))?;
    ended(words, statement, rest)
}

/// `[ expr ] ";"`, after `return` at this place.
#[tactic(auto, unfolding(mon_syntax::specs::Grammar::returned))]
fn returned<'a>(
    alloc: Global,
    words: &[Word],
    place: Place,
    tokens: &'a [Token],
) -> Result<(ParsedStmt, &'a [Token]), ReadFault>
    ensures { Gives (λ x. (plain_stmt x.0, plain_list x.1.now)) result ((returned words.now place).parse (plain_list tokens.now)) }
{
    if next_begins_expression(words, tokens) {
        let (value, rest) = expression(alloc, words, tokens)?;
        let statement = ParsedStmt::new(alloc, ParsedStmtKind::Return(place, Some(value)))?;
        ended(words, statement, rest)
    } else {
        let statement = ParsedStmt::new(alloc, ParsedStmtKind::Return(place, None))?;
        ended(words, statement, tokens)
    }
}

#[tactic(auto, unfolding(mon_syntax::specs::Grammar::return_statement))]
#[inline(never)]
fn return_statement<'a>(
    alloc: Global,
    words: &[Word],
    tokens: &'a [Token],
) -> Result<(ParsedStmt, &'a [Token]), ReadFault>
    ensures { Gives (λ x. (plain_stmt x.0, plain_list x.1.now)) result ((return_statement words.now).parse (plain_list tokens.now)) }
{
    let (place, rest) = skip(words, RETURN, tokens)?;
    returned(alloc, words, place, rest)
}

/// The end of a loop's body, which has its step.
#[tactic(auto, unfolding(mon_syntax::specs::Grammar::loop_end))]
fn loop_end<'a>(
    alloc: Global,
    words: &[Word],
    read: LoopRead,
    tokens: &'a [Token],
) -> Result<(ParsedStmt, &'a [Token]), ReadFault>
    ensures { Gives (λ x. (plain_stmt x.0, plain_list x.1.now)) result ((loop_end words.now (plain_loop read)).parse (plain_list tokens.now)) }
{
    let LoopRead { before, behind } = read;
    match behind {
        Some(behind) => {
            let (_, rest) = skip(words, RIGHT_BRACE, tokens)?;
            Ok((make_loop(alloc, before, behind)?, rest))
        }
        None => Err(ReadFault::At(left(tokens))),
    }
}

#[tactic(auto, unfolding(mon_syntax::specs::Grammar::one_more))]
#[cycle(statement)]
fn one_more<'a>(
    alloc: Global,
    words: &[Word],
    levels: u32,
    all: Vec<ParsedStmt>,
    tokens: &'a [Token],
) -> Result<(Vec<ParsedStmt>, &'a [Token]), ReadFault>
    ensures { Gives (λ x. (map plain_stmt x.0.items, plain_list x.1.now)) result
        ((one_more words.now (statement_in words.now levels) (map plain_stmt all.items)).parse (plain_list tokens.now)) }
{
    let mut all = all;
    let (one, rest) = statement(alloc, words, levels, false, tokens)?;
    all.push(one)?;
    Ok((all, rest))
}

/// The statements after those that are read.
#[tactic(auto, using(crate::proofs::Steps::statements_rules))]
#[cycle(statement)]
pub fn more_statements<'a>(
    alloc: Global,
    words: &[Word],
    levels: u32,
    all: Vec<ParsedStmt>,
    tokens: &'a [Token],
) -> Result<(Vec<ParsedStmt>, &'a [Token]), ReadFault>
    ensures { Gives (λ x. (map plain_stmt x.0.items, plain_list x.1.now)) result
        ((more_statements words.now (statement_in words.now levels) (map plain_stmt all.items)).parse (plain_list tokens.now)) }
{
    let mut all = all;
    let mut rest = tokens;
    'turn: while next_begins_statement(words, rest) {
        let (more, after) = one_more(alloc, words, levels, all, rest)?;
        all = more;
        rest = after;
    }
    Ok((all, rest))
}

/// `"{" { statement } "}"`
#[tactic(auto, unfolding(mon_syntax::specs::Grammar::body, mon_syntax::specs::Grammar::statements, crate::specs::Reading::more_statements))]
#[cycle(statement)]
fn body<'a>(
    alloc: Global,
    words: &[Word],
    levels: u32,
    tokens: &'a [Token],
) -> Result<(Vec<ParsedStmt>, &'a [Token]), ReadFault>
    ensures { Gives (λ x. (parsed_list (map plain_stmt x.0.items), plain_list x.1.now)) result
        ((body words.now (statement_in words.now levels)).parse (plain_list tokens.now)) }
{
    let (_, rest) = skip(words, LEFT_BRACE, tokens)?;
    let (all, rest) = more_statements(alloc, words, levels, Vec::new(alloc), rest)?;
    let (_, rest) = skip(words, RIGHT_BRACE, rest)?;
    Ok((all, rest))
}

/// The second body, after the condition and the first one.
#[tactic(auto, unfolding(crate::specs::Reading::second_branch))]
#[cycle(statement)]
fn second_branch<'a>(
    alloc: Global,
    words: &[Word],
    levels: u32,
    condition: ParsedExpr,
    then: Vec<ParsedStmt>,
    tokens: &'a [Token],
) -> Result<(ParsedStmt, &'a [Token]), ReadFault>
    ensures { Gives (λ x. (plain_stmt x.0, plain_list x.1.now)) result
        ((second_branch words.now (statement_in words.now levels) (plain_expr condition) (parsed_list (map plain_stmt then.items))).parse
        (plain_list tokens.now)) }
{
    let (otherwise, rest) = body(alloc, words, levels, tokens)?;
    Ok((make_if(alloc, condition, then, otherwise)?, rest))
}

/// `body "else" body`, after the condition.
#[tactic(auto, unfolding(crate::specs::Reading::branches, crate::specs::Reading::second_branch))]
#[cycle(statement)]
fn branches<'a>(
    alloc: Global,
    words: &[Word],
    levels: u32,
    condition: ParsedExpr,
    tokens: &'a [Token],
) -> Result<(ParsedStmt, &'a [Token]), ReadFault>
    ensures { Gives (λ x. (plain_stmt x.0, plain_list x.1.now)) result ((branches words.now (statement_in words.now levels) (plain_expr condition)).parse
        (plain_list tokens.now)) }
{
    let (then, rest) = body(alloc, words, levels, tokens)?;
    let (_, rest) = skip(words, ELSE, rest)?;
    second_branch(alloc, words, levels, condition, then, rest)
}

/// `expr ")" body "else" body`
#[tactic(auto, unfolding(crate::specs::Reading::condition, crate::specs::Reading::branches))]
#[cycle(statement)]
fn condition<'a>(
    alloc: Global,
    words: &[Word],
    levels: u32,
    tokens: &'a [Token],
) -> Result<(ParsedStmt, &'a [Token]), ReadFault>
    ensures { Gives (λ x. (plain_stmt x.0, plain_list x.1.now)) result ((condition words.now (statement_in words.now levels)).parse (plain_list tokens.now)) }
{
    let (condition, rest) = expression(alloc, words, tokens)?;
    let (_, rest) = skip(words, RIGHT_PAREN, rest)?;
    branches(alloc, words, levels, condition, rest)
}

/// `"if" "(" expr ")" body "else" body`
#[tactic(auto, unfolding(mon_syntax::specs::Grammar::selection, crate::specs::Reading::condition))]
#[cycle(statement)]
#[inline(never)]
fn selection<'a>(
    alloc: Global,
    words: &[Word],
    levels: u32,
    tokens: &'a [Token],
) -> Result<(ParsedStmt, &'a [Token]), ReadFault>
    ensures { Gives (λ x. (plain_stmt x.0, plain_list x.1.now)) result ((selection words.now (statement_in words.now levels)).parse (plain_list tokens.now)) }
{
    let (_, rest) = skip(words, IF, tokens)?;
    let (_, rest) = skip(words, LEFT_PAREN, rest)?;
    condition(alloc, words, levels, rest)
}

#[tactic(auto, unfolding(mon_syntax::specs::Grammar::one_more_in_loop))]
#[cycle(statement)]
fn one_more_in_loop<'a>(
    alloc: Global,
    words: &[Word],
    levels: u32,
    read: LoopRead,
    tokens: &'a [Token],
) -> Result<(LoopRead, &'a [Token]), ReadFault>
    ensures { Gives (λ x. (plain_loop x.0, plain_list x.1.now)) result ((one_more_in_loop words.now (statement_in words.now levels) (plain_loop read)).parse
        (plain_list tokens.now)) }
{
    let (one, rest) = statement(alloc, words, levels, has_step(&read), tokens)?;
    Ok((with_statement(alloc, words, read, one)?, rest))
}

/// The statements of a loop after those that are read.
#[tactic(auto, using(crate::proofs::Steps::loop_turn, crate::proofs::Steps::loop_fails, crate::proofs::Steps::loop_ends, crate::proofs::Steps::loop_shorter))]
#[cycle(statement)]
fn more_in_loop<'a>(
    alloc: Global,
    words: &[Word],
    levels: u32,
    read: LoopRead,
    tokens: &'a [Token],
) -> Result<(LoopRead, &'a [Token]), ReadFault>
    ensures { Gives (λ x. (plain_loop x.0, plain_list x.1.now)) result ((more_in_loop words.now (statement_in words.now levels) (plain_loop read)).parse
        (plain_list tokens.now)) }
{
    let mut read = read;
    let mut rest = tokens;
    'turn: while next_begins_statement(words, rest) {
        let (more, after) = one_more_in_loop(alloc, words, levels, read, rest)?;
        read = more;
        rest = after;
    }
    Ok((read, rest))
}

/// The body of a loop, with exactly one step directly in it.
#[tactic(auto, unfolding(crate::specs::Reading::loop_body))]
#[cycle(statement)]
fn loop_body<'a>(
    alloc: Global,
    words: &[Word],
    levels: u32,
    tokens: &'a [Token],
) -> Result<(ParsedStmt, &'a [Token]), ReadFault>
    ensures { Gives (λ x. (plain_stmt x.0, plain_list x.1.now)) result ((loop_body words.now (statement_in words.now levels)).parse (plain_list tokens.now)) }
{
    let (_, rest) = skip(words, LEFT_BRACE, tokens)?;
    let nothing = LoopRead {
        before: Vec::new(alloc),
        behind: None,
    };
    let (read, rest) = more_in_loop(alloc, words, levels, nothing, rest)?;
    loop_end(alloc, words, read, rest)
}

/// `"1" ")" body`
#[tactic(auto, unfolding(crate::specs::Reading::forever, crate::specs::Reading::loop_body))]
#[cycle(statement)]
fn forever<'a>(
    alloc: Global,
    words: &[Word],
    levels: u32,
    tokens: &'a [Token],
) -> Result<(ParsedStmt, &'a [Token]), ReadFault>
    ensures { Gives (λ x. (plain_stmt x.0, plain_list x.1.now)) result ((forever words.now (statement_in words.now levels)).parse (plain_list tokens.now)) }
{
    let (_, rest) = this_number(1, tokens)?;
    let (_, rest) = skip(words, RIGHT_PAREN, rest)?;
    loop_body(alloc, words, levels, rest)
}

/// `"while" "(" "1" ")" body`
#[tactic(auto, unfolding(mon_syntax::specs::Grammar::iteration, crate::specs::Reading::forever, crate::specs::Reading::more_in_loop))]
#[cycle(statement)]
#[inline(never)]
fn iteration<'a>(
    alloc: Global,
    words: &[Word],
    levels: u32,
    tokens: &'a [Token],
) -> Result<(ParsedStmt, &'a [Token]), ReadFault>
    ensures { Gives (λ x. (plain_stmt x.0, plain_list x.1.now)) result ((iteration words.now (statement_in words.now levels)).parse (plain_list tokens.now)) }
{
    let (_, rest) = skip(words, WHILE, tokens)?;
    let (_, rest) = skip(words, LEFT_PAREN, rest)?;
    forever(alloc, words, levels, rest)
}

/// `":" ";"`, after a body and its label.
#[tactic(auto, unfolding(crate::specs::Reading::label_end))]
fn label_end<'a>(
    words: &[Word],
    statement: ParsedStmt,
    tokens: &'a [Token],
) -> Result<(ParsedStmt, &'a [Token]), ReadFault>
    ensures read { Gives (λ x. (plain_stmt x.0, plain_list x.1.now)) result ((label_end words.now (plain_stmt statement)).parse (plain_list tokens.now)) }
    ensures sure { IfErr result TakesNoMemory }
{
    let (_, rest) = skip(words, COLON, tokens)?;
    ended(words, statement, rest)
}

/// `NAME ":" ";"`, after the label's body.
#[tactic(auto, unfolding(crate::specs::Reading::label_behind, crate::specs::Reading::label_end))]
fn label_behind<'a>(
    alloc: Global,
    words: &[Word],
    all: Vec<ParsedStmt>,
    tokens: &'a [Token],
) -> Result<(ParsedStmt, &'a [Token]), ReadFault>
    ensures { Gives (λ x. (plain_stmt x.0, plain_list x.1.now)) result ((label_behind words.now (parsed_list (map plain_stmt all.items))).parse
        (plain_list tokens.now)) }
{
    let (label, rest) = name(words, tokens)?;
    label_end(words, make_labelled(alloc, all, label)?, rest)
}

/// `body NAME ":" ";"`
#[tactic(auto, unfolding(mon_syntax::specs::Grammar::labelled, crate::specs::Reading::label_behind))]
#[cycle(statement)]
#[inline(never)]
fn labelled<'a>(
    alloc: Global,
    words: &[Word],
    levels: u32,
    tokens: &'a [Token],
) -> Result<(ParsedStmt, &'a [Token]), ReadFault>
    ensures { Gives (λ x. (plain_stmt x.0, plain_list x.1.now)) result ((labelled words.now (statement_in words.now levels)).parse (plain_list tokens.now)) }
{
    let (all, rest) = body(alloc, words, levels, tokens)?;
    label_behind(alloc, words, all, rest)
}

/// A statement in which statements stand at most so many levels deep, itself included; no `__e_acsl_step();` where it may be none.
#[tactic(auto, using(crate::proofs::Steps::statement_rules), unfolding(mon_syntax::specs::Grammar::statement_with, crate::specs::Reading::named_statement))]
#[cycle(statement)]
fn statement<'a>(
    alloc: Global,
    words: &[Word],
    levels: u32,
    no_step: bool,
    tokens: &'a [Token],
) -> Result<(ParsedStmt, &'a [Token]), ReadFault>
    ensures { Gives (λ x. (plain_stmt x.0, plain_list x.1.now)) result ((statement_in words.now levels no_step).parse (plain_list tokens.now)) }
{
    if levels == 0 {
        return if next_begins_statement(words, tokens) {
            Err(ReadFault::Over(Limit::Nesting, left(tokens)))
        } else {
            Err(ReadFault::At(left(tokens)))
        };
    }
    let levels = levels - 1;
    if next_is(words, NAME, tokens) {
        named_statement(alloc, words, no_step, tokens)
    } else if next_is(words, TIMES, tokens) {
        store(alloc, words, tokens)
    } else if next_is(words, LEFT_BRACE, tokens) {
        labelled(alloc, words, levels, tokens)
    } else if next_is(words, IF, tokens) {
        selection(alloc, words, levels, tokens)
    } else if next_is(words, WHILE, tokens) {
        iteration(alloc, words, levels, tokens)
    } else if next_is(words, GOTO, tokens) {
        jump(alloc, words, tokens)
    } else {
        return_statement(alloc, words, tokens)
    }
}
