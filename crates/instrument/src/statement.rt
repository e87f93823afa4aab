//! Statements (C99 6.8).

ghost use Rattle.std.specs.Prelude.{◌≡◌, ◌+◌, ◌<◌, ◌++◌, [], IfOk, OnOk, Some, drop, length, map, option_map, reverse};
ghost use Rattle.c_syntax.specs.Logic.{plain_annot};
ghost use Rattle.c_syntax.specs.Expressions.{plain_expr};
ghost use Rattle.c_syntax.specs.Statements.{Asserts, plain_cases, plain_else_part, plain_item, plain_items, plain_stmt};
ghost use Rattle.c_model.specs.Meaning.{declared_first, declared_in};
ghost use Rattle.mon_syntax.specs.Registers.{next_register};
ghost use Rattle.mon_syntax.specs.Trees.{If, Labelled, Loop, plain_expr as plain_monitored, plain_stmts};
ghost use Rattle.track_scopes.specs.Blocks.{deaths, with_born};
ghost use Rattle.annot_simulation.specs.Numbered.{AreNumbered};
ghost use Rattle.annot_pieces.specs.Tables.{plain_plan};
ghost use Rattle.c_effects.specs.Letters.{ActHasLetters, Any, ValueHasLetters};
ghost use Rattle.c_effects.specs.Expressions.{before, one};
ghost use Rattle.c_effects.specs.Effects.{any_temporaries};
ghost use Rattle.c_effects.specs.Full.{act_takes, takes};
ghost use Rattle.c_effects.specs.Named.{unit_of, with_registers};
ghost use Rattle.c_evaluation.specs.Evaluated.{condition_result_by, prepare_by};
ghost use Rattle.instrument.specs.Limits.{CasesHaveNumbers, ElseHasNumbers, FirstHasNumbers, HasNumbers, HaveNumbers, ItemHasNumbers};
ghost use Rattle.instrument.specs.Options.{after, asserts_by, behind_cases, behind_else, behind_first};
ghost use Rattle.instrument.specs.Options.{behind_item, behind_items, births_by, blocks_of_cases_by, chosen_by};
ghost use Rattle.instrument.specs.Options.{ItemsHaveNumbers, cases_in_block, do_loop, else_part_by, entering, first_cases, items_of_case};
ghost use Rattle.instrument.specs.Options.{labelled_of, next_cases_by, plan_in, reached_by, switch_of};
ghost use Rattle.instrument.specs.Options.{first_part_by, item_by, items_by, plain_first_part, plain_spot, statement_by};
ghost use Rattle.instrument.specs.LoopForms.{after_turn_by, before_body_by, behind_invariants_by, behind_variant_by, front_by, kept_in};
ghost use Rattle.instrument.specs.LoopForms.{plain_kept_variant, turn_by, turns_by};
ghost use Rattle.instrument.specs.Options.{test_by, test_if_any_by, while_loop, with_blocks};
ghost use Rattle.instrument.specs.Translation.{alive, in_loop, leave_where_zero, returned_temporaries, switch_temporaries, with_variables};
ghost use Rattle.c_simulation.specs.Labels.{end_label, next_label};

use crate::block::{enter_block, inside, items_of, leave, one_more};
use crate::clause::{KeptVariant, compare_variant, invariants, keep_variant};
use crate::jump::{break_out, give_back, go_on, set_aside};
use crate::name::{end_label, next_label};
use crate::spot::Spot;
use crate::switch::{CASES_IN_BLOCK, Choice, OTHERS_IN_BLOCK, search, where_reached};
use annot_code::assertion::assertions;
use annot_code::snapshot::snapshot;
use annot_pieces::kept::Held;
use annot_pieces::plan::{Plan, Stored};
use c_effects::conversion::value_type;
use c_effects::part::{alone, then, then_all};
use c_evaluation::act::{act, act_if_any};
use c_evaluation::evaluation::condition_of;
use c_initialisers::initialiser::initialise_all;
use c_syntax::{Annot, Case, Expr, Item, Stmt, StmtKind};
use mon_syntax::{MonExpr, MonStmt, MonStmtKind, MonType, Registers};
use std::alloc::{AllocError, Global};

// The assertions of a list of annotations, in a function that keeps these terms.
fn asserts(
    alloc: Global,
    plan: &Plan<'_>,
    annots: &[Annot],
    names: &mut Registers<'_>,
    to: &mut Vec<MonStmt>,
) -> Result<(), AllocError>
    ensures code { OnOk result (plain_stmts to.new.items ≡ before (plain_stmts to.old.items)
        (asserts_by (plain_plan plan.now.kept.now) names.old (map plain_annot annots.now))) }
    ensures names { OnOk result (names.new ≡ behind_item (plain_plan plan.now.kept.now) (Asserts (map plain_annot annots.now)) names.old) }
    ensures numbered { OnOk result (AreNumbered (map plain_annot annots.now)) }
{
    let held: Vec<Held> = Vec::new(alloc);
    let stored = Stored { plan, held: &held };
    assertions(alloc, annots, &stored, names, to)
}

// The way out of a loop, where the condition is 0.
#[tactic(auto, using(mon_syntax::proofs::Rows::if_is))]
fn leave_where_zero(
    alloc: Global,
    loops: u32,
    condition: MonExpr,
    to: &mut Vec<MonStmt>,
) -> Result<(), AllocError>
    ensures { OnOk result (plain_stmts to.new.items ≡ before (plain_stmts to.old.items) (leave_where_zero loops (plain_monitored condition))) }
{
    let leave = alone(alloc, MonStmtKind::Goto(end_label(alloc, loops)?))?;
    then(
        alloc,
        to,
        MonStmtKind::If(condition, Vec::new(alloc), leave),
    )
}

// The condition of a loop.
#[tactic(auto, using(c_effects::proofs::Sequences::before_assoc))]
fn leave_unless(
    alloc: Global,
    loops: u32,
    e: &Expr,
    names: &mut Registers<'_>,
    to: &mut Vec<MonStmt>,
) -> Result<(), AllocError>
    ensures code { OnOk result (plain_stmts to.new.items ≡ before (plain_stmts to.old.items) (test_by names.old loops (plain_expr e.now))) }
    ensures names { OnOk result (names.new ≡ with_registers (takes (unit_of names.old) (plain_expr e.now)) names.old) }
    ensures letters { OnOk result (ValueHasLetters (plain_expr e.now)) }
{
    let condition = condition_of(alloc, e, names, to)?;
    leave_where_zero(alloc, loops, condition, to)
}

// The condition of a `for`, which may be left out.
#[tactic(auto, using(c_effects::proofs::Sequences::before_none))]
fn leave_unless_any(
    alloc: Global,
    loops: u32,
    e: &Option<Expr>,
    names: &mut Registers<'_>,
    to: &mut Vec<MonStmt>,
) -> Result<(), AllocError>
    ensures code { OnOk result (plain_stmts to.new.items ≡ before (plain_stmts to.old.items)
        (test_if_any_by names.old loops (option_map plain_expr e.now))) }
    ensures names { OnOk result (names.new ≡ with_registers (any_temporaries (takes (unit_of names.old)) (option_map plain_expr e.now)) names.old) }
    ensures letters { OnOk result (Any ValueHasLetters (option_map plain_expr e.now)) }
{
    match e {
        Some(e) => leave_unless(alloc, loops, e, names, to),
        None => Ok(()),
    }
}

// Statements at whose end a `break` goes on.
fn until_end(
    alloc: Global,
    levels: u32,
    code: Vec<MonStmt>,
    to: &mut Vec<MonStmt>,
) -> Result<(), AllocError>
    ensures { OnOk result (plain_stmts to.new.items ≡ before (plain_stmts to.old.items) (one (Labelled (plain_stmts code.items) (end_label levels)))) }
{
    let label = end_label(alloc, levels)?;
    then(alloc, to, MonStmtKind::Labelled(code, label))
}

// A loop, from what stands before its step and after it.
fn repeat(
    alloc: Global,
    loops: u32,
    front: Vec<MonStmt>,
    behind: Vec<MonStmt>,
    to: &mut Vec<MonStmt>,
) -> Result<(), AllocError>
    ensures { OnOk result (plain_stmts to.new.items ≡ before (plain_stmts to.old.items)
        (one (Labelled (one (Loop (plain_stmts front.items) (plain_stmts behind.items))) (end_label loops)))) }
{
    let turns = alone(alloc, MonStmtKind::Loop(front, behind))?;
    until_end(alloc, loops, turns, to)
}

// The body of a loop, after which a `continue` goes on.
#[cycle(statement)]
fn round(
    alloc: Global,
    spot: &Spot<'_>,
    s: &Stmt,
    names: &mut Registers<'_>,
) -> Result<Vec<MonStmt>, AllocError>
    ensures code { IfOk result (λ code. plain_stmts code.items ≡ one
        (Labelled (statement_by (plan_in spot.now) names.old (in_loop (plain_spot spot.now))
        (plain_stmt s.now)) (next_label (spot.now.levels + 1)))) }
    ensures names { OnOk result (names.new ≡ after (plan_in spot.now) (plain_stmt s.now) names.old) }
    ensures numbers { OnOk result (HasNumbers (plain_stmt s.now)) }
{
    let loops = one_more(spot.levels)?;
    let around = inside(alloc, spot.outside, spot.between)?;
    let outside = inside(alloc, &around, spot.inside)?;
    let inner = Spot {
        levels: loops,
        innermost: loops,
        inside: &[],
        between: &[],
        outside: &outside,
        result: spot.result,
        plan: spot.plan,
    };
    let body = apart(alloc, &inner, s, names)?;
    labelled(alloc, loops, body)
}

// Statements after which a `continue` goes on.
#[tactic(auto, using(mon_syntax::proofs::Rows::labelled_is))]
fn labelled(alloc: Global, loops: u32, body: Vec<MonStmt>) -> Result<Vec<MonStmt>, AllocError>
    ensures { IfOk result (λ code. plain_stmts code.items ≡ one (Labelled (plain_stmts body.items) (next_label loops))) }
{
    alone(
        alloc,
        MonStmtKind::Labelled(body, next_label(alloc, loops)?),
    )
}

/// Translates a statement, after the statements that are there; its registers are further ones.
#[cycle(statement)]
pub fn statement(
    alloc: Global,
    spot: &Spot<'_>,
    s: &Stmt,
    names: &mut Registers<'_>,
    to: &mut Vec<MonStmt>,
) -> Result<(), AllocError>
    ensures code { OnOk result (plain_stmts to.new.items ≡ before (plain_stmts to.old.items)
        (statement_by (plan_in spot.now) names.old (plain_spot spot.now) (plain_stmt s.now))) }
    ensures names { OnOk result (names.new ≡ after (plan_in spot.now) (plain_stmt s.now) names.old) }
    ensures numbers { OnOk result (HasNumbers (plain_stmt s.now)) }
{
    match &*s.kind {
        StmtKind::Empty => Ok(()),
        StmtKind::Eval(e) => act(alloc, e, names, to),
        StmtKind::Block(body) => block(alloc, spot, body, names, to),
        StmtKind::If(e, a, b) => {
            let first = tested(alloc, spot, a, e, names, to)?;
            branches(alloc, spot, b, first, names, to)
        }
        StmtKind::While(annots, e, a) => while_loop(alloc, spot, a, (annots, e), names, to),
        StmtKind::Do(a, e) => do_loop(alloc, spot, a, e, names, to),
        StmtKind::For(annots, first, e, step, a) => {
            let own = enter_for(alloc, spot, first, names, to)?;
            rest_of_for(alloc, spot, own, a, (annots, e, step), names, to)
        }
        StmtKind::Break => break_out(alloc, spot, to),
        StmtKind::Continue => go_on(alloc, spot, to),
        StmtKind::Return(e) => give_back(alloc, spot, e, names, to),
        StmtKind::Labelled(label, a) => pass_label(alloc, spot, *label, a, names, to),
        StmtKind::Switch(e, cases) => switch(alloc, spot, cases, e, names, to),
    }
}

// A statement with a label: the terms of the label are kept before it.
#[cycle(statement)]
#[tactic(auto, using(c_effects::proofs::Sequences::before_assoc))]
fn pass_label(
    alloc: Global,
    spot: &Spot<'_>,
    label: u32,
    a: &Stmt,
    names: &mut Registers<'_>,
    to: &mut Vec<MonStmt>,
) -> Result<(), AllocError>
    ensures code { OnOk result (plain_stmts to.new.items ≡ before (plain_stmts to.old.items)
        (statement_by (plan_in spot.now) names.old (plain_spot spot.now) (labelled_of label a.now))) }
    ensures names { OnOk result (names.new ≡ after (plan_in spot.now) (labelled_of label a.now) names.old) }
    ensures numbers { OnOk result (HasNumbers (labelled_of label a.now)) }
{
    snapshot(alloc, Some(label), spot.plan.kept, names, to)?;
    statement(alloc, spot, a, names, to)
}

// What stands before the cases of a `switch`: the value of its expression, and the search for a case with it. Gives the
// register that has the index of the chosen case.
#[tactic(auto, using(c_effects::proofs::Sequences::before_assoc))]
fn choose_case(
    alloc: Global,
    levels: u32,
    e: &Expr,
    cases: &[Case],
    names: &mut Registers<'_>,
    to: &mut Vec<MonStmt>,
) -> Result<u32, AllocError>
    ensures index { IfOk result (λ r. r ≡ length (names.old.table.kinds ++ returned_temporaries (unit_of names.old) (plain_expr e.now))) }
    ensures code { OnOk result (plain_stmts to.new.items ≡ before (plain_stmts to.old.items)
        (chosen_by names.old levels (plain_expr e.now) (plain_cases cases.now))) }
    ensures names { OnOk result (names.new ≡ with_registers (switch_temporaries (unit_of names.old) (plain_expr e.now)) names.old) }
    ensures letters { OnOk result (ValueHasLetters (plain_expr e.now)) }
{
    let choice = Choice {
        kind: value_type(&e.ctype),
        value: set_aside(alloc, e, None, names, to)?,
        index: names.fresh(MonType::U64)?,
    };
    search(alloc, levels, choice, cases, to)?;
    Ok(choice.index)
}

// A `switch`.
#[cycle(statement)]
fn switch(
    alloc: Global,
    spot: &Spot<'_>,
    cases: &[Case],
    e: &Expr,
    names: &mut Registers<'_>,
    to: &mut Vec<MonStmt>,
) -> Result<(), AllocError>
    ensures code { OnOk result (plain_stmts to.new.items ≡ before (plain_stmts to.old.items)
        (statement_by (plan_in spot.now) names.old (plain_spot spot.now) (switch_of e.now cases.now))) }
    ensures names { OnOk result (names.new ≡ after (plan_in spot.now) (switch_of e.now cases.now) names.old) }
    ensures numbers { OnOk result (HasNumbers (switch_of e.now cases.now)) }
{
    let levels = one_more(spot.levels)?;
    let chosen = choose_case(alloc, levels, e, cases, names, to)?;
    let between = inside(alloc, spot.between, spot.inside)?;
    let inner = Spot {
        levels,
        innermost: spot.innermost,
        inside: &[],
        between: &between,
        outside: spot.outside,
        result: spot.result,
        plan: spot.plan,
    };
    let code = blocks_of_cases(alloc, &inner, chosen, cases, names)?;
    until_end(alloc, levels, code, to)
}

// The items of all cases, in blocks.
#[cycle(statement)]
fn blocks_of_cases(
    alloc: Global,
    spot: &Spot<'_>,
    chosen: u32,
    cases: &[Case],
    names: &mut Registers<'_>,
) -> Result<Vec<MonStmt>, AllocError>
    ensures code { IfOk result (λ code. plain_stmts code.items ≡
        blocks_of_cases_by (plan_in spot.now) names.old (plain_spot spot.now) chosen 0 0 (plain_cases cases.now)) }
    ensures names { OnOk result (names.new ≡ behind_cases (plan_in spot.now) (plain_cases cases.now) names.old) }
    ensures numbers { OnOk result (CasesHaveNumbers 0 (plain_cases cases.now)) }
{
    let mut code = Vec::new(alloc);
    let mut first = 0;
    while first < cases.len() {
        let block = next_cases(alloc, spot, chosen, first, cases, names)?;
        where_reached(alloc, chosen, first + OTHERS_IN_BLOCK, block, &mut code)?;
        first += CASES_IN_BLOCK;
    }
    Ok(code)
}

// The items of the cases from the first one of a block on, as many as stand in a block.
#[cycle(statement)]
fn next_cases(
    alloc: Global,
    spot: &Spot<'_>,
    chosen: u32,
    first: usize,
    cases: &[Case],
    names: &mut Registers<'_>,
) -> Result<Vec<MonStmt>, AllocError>
    requires { first < length cases.now }
    ensures code { IfOk result (λ code. plain_stmts code.items
        ≡ next_cases_by (plan_in spot.now) names.old (plain_spot spot.now) chosen first cases_in_block (plain_cases (drop first cases.now))) }
    ensures names { OnOk result (names.new ≡ behind_cases (plan_in spot.now) (first_cases cases_in_block (plain_cases (drop first cases.now))) names.old) }
    ensures numbers { OnOk result (ItemsHaveNumbers (first_cases cases_in_block (plain_cases (drop first cases.now)))) }
{
    let mut code = Vec::new(alloc);
    let end = cases.len().min(first + CASES_IN_BLOCK);
    for i in first..end {
        next_case(alloc, spot, (chosen, i), &cases[i], names, &mut code)?;
    }
    Ok(code)
}

// The items of a case, which are done if it is the chosen one, or stands behind it.
#[cycle(statement)]
fn next_case(
    alloc: Global,
    spot: &Spot<'_>,
    reached: (u32, usize),
    case: &Case,
    names: &mut Registers<'_>,
    to: &mut Vec<MonStmt>,
) -> Result<(), AllocError>
    ensures code { OnOk result (plain_stmts to.new.items ≡ before (plain_stmts to.old.items)
        (one (reached_by (plan_in spot.now) names.old (plain_spot spot.now) reached.0 reached.1 case.now))) }
    ensures names { OnOk result (names.new ≡ behind_items (plan_in spot.now) (items_of_case case.now) names.old) }
    ensures numbers { OnOk result (HaveNumbers (items_of_case case.now)) }
{
    let (chosen, index) = reached;
    let mut code = Vec::new(alloc);
    items(alloc, spot, &case.items, names, &mut code)?;
    where_reached(alloc, chosen, index, code, to)
}

// What stands before the step of a `while`: its invariants and its condition.
fn front_of_while(
    alloc: Global,
    plan: &Plan<'_>,
    loops: u32,
    annots: &[Annot],
    e: &Expr,
    names: &mut Registers<'_>,
) -> Result<Vec<MonStmt>, AllocError>
    ensures code { IfOk result (λ code. plain_stmts code.items
        ≡ front_by (plain_plan plan.now.kept.now) names.old loops (map plain_annot annots.now) (Some (plain_expr e.now))) }
    ensures names { OnOk result (names.new ≡ with_registers (takes (unit_of names.old) (plain_expr e.now))
        (behind_invariants_by (plain_plan plan.now.kept.now) (map plain_annot annots.now) names.old)) }
    ensures numbers { OnOk result (ValueHasLetters (plain_expr e.now) × AreNumbered (map plain_annot annots.now)) }
{
    let mut front = Vec::new(alloc);
    invariants(alloc, plan, annots, names, &mut front)?;
    leave_unless(alloc, loops, e, names, &mut front)?;
    Ok(front)
}

// The same of a `for`, whose condition may be left out.
fn front_of_for(
    alloc: Global,
    plan: &Plan<'_>,
    loops: u32,
    annots: &[Annot],
    e: &Option<Expr>,
    names: &mut Registers<'_>,
) -> Result<Vec<MonStmt>, AllocError>
    ensures code { IfOk result (λ code. plain_stmts code.items
        ≡ front_by (plain_plan plan.now.kept.now) names.old loops (map plain_annot annots.now) (option_map plain_expr e.now)) }
    ensures names { OnOk result (names.new ≡ with_registers (any_temporaries (takes (unit_of names.old)) (option_map plain_expr e.now))
        (behind_invariants_by (plain_plan plan.now.kept.now) (map plain_annot annots.now) names.old)) }
    ensures numbers { OnOk result (Any ValueHasLetters (option_map plain_expr e.now) × AreNumbered (map plain_annot annots.now)) }
{
    let mut front = Vec::new(alloc);
    invariants(alloc, plan, annots, names, &mut front)?;
    leave_unless_any(alloc, loops, e, names, &mut front)?;
    Ok(front)
}

// A turn of a loop after its step, up to the end of its body. It gives the variant, whose value is kept.
#[cycle(statement)]
#[tactic(auto, using(c_effects::proofs::Sequences::before_assoc))]
fn turn<'a>(
    alloc: Global,
    spot: &Spot<'_>,
    annots: &'a [Annot],
    a: &Stmt,
    names: &mut Registers<'_>,
    to: &mut Vec<MonStmt>,
) -> Result<Option<KeptVariant<'a>>, AllocError>
    ensures kept { IfOk result (λ o. option_map plain_kept_variant o ≡ kept_in (plan_in spot.now) names.old (map plain_annot annots.now)) }
    ensures code { OnOk result (plain_stmts to.new.items ≡ before (plain_stmts to.old.items)
        (turn_by (plan_in spot.now) names.old (plain_spot spot.now) (map plain_annot annots.now) (plain_stmt a.now))) }
    ensures names { OnOk result (names.new ≡ after (plan_in spot.now) (plain_stmt a.now)
        (behind_variant_by (plan_in spot.now) (map plain_annot annots.now) names.old)) }
    ensures numbers { OnOk result (HasNumbers (plain_stmt a.now)) }
{
    let kept = keep_variant(alloc, spot.plan, annots, names, to)?;
    let code = round(alloc, spot, a, names)?;
    then_all(to, code)?;
    Ok(kept)
}

// A `while`.
#[cycle(statement)]
fn while_loop(
    alloc: Global,
    spot: &Spot<'_>,
    a: &Stmt,
    head: (&[Annot], &Expr),
    names: &mut Registers<'_>,
    to: &mut Vec<MonStmt>,
) -> Result<(), AllocError>
    ensures code { OnOk result (plain_stmts to.new.items ≡ before (plain_stmts to.old.items)
        (statement_by (plan_in spot.now) names.old (plain_spot spot.now) (while_loop head.entry.0.now a.now head.entry.1.now))) }
    ensures names { OnOk result (names.new ≡ after (plan_in spot.now) (while_loop head.entry.0.now a.now head.entry.1.now) names.old) }
    ensures numbers { OnOk result (HasNumbers (while_loop head.entry.0.now a.now head.entry.1.now)) }
{
    let (annots, e) = head;
    let loops = one_more(spot.levels)?;
    let front = front_of_while(alloc, spot.plan, loops, annots, e, names)?;
    let mut code = Vec::new(alloc);
    let kept = turn(alloc, spot, annots, a, names, &mut code)?;
    compare_variant(alloc, spot.plan, kept, names, &mut code)?;
    repeat(alloc, loops, front, code, to)
}

// A `do`.
#[cycle(statement)]
fn do_loop(
    alloc: Global,
    spot: &Spot<'_>,
    a: &Stmt,
    e: &Expr,
    names: &mut Registers<'_>,
    to: &mut Vec<MonStmt>,
) -> Result<(), AllocError>
    ensures code { OnOk result (plain_stmts to.new.items ≡ before (plain_stmts to.old.items)
        (statement_by (plan_in spot.now) names.old (plain_spot spot.now) (do_loop a.now e.now))) }
    ensures names { OnOk result (names.new ≡ after (plan_in spot.now) (do_loop a.now e.now) names.old) }
    ensures numbers { OnOk result (HasNumbers (do_loop a.now e.now)) }
{
    let loops = one_more(spot.levels)?;
    let mut behind = round(alloc, spot, a, names)?;
    leave_unless(alloc, loops, e, names, &mut behind)?;
    repeat(alloc, loops, Vec::new(alloc), behind, to)
}

// What stands first in a `for`, after the births of its variables' blocks, which it gives.
#[cycle(statement)]
fn enter_for(
    alloc: Global,
    spot: &Spot<'_>,
    first: &Option<Item>,
    names: &mut Registers<'_>,
    to: &mut Vec<MonStmt>,
) -> Result<Vec<u32>, AllocError>
    ensures own { IfOk result (λ own. reverse own.items ≡ with_born (next_register names.old.table) (declared_first (plain_first_part first.now)) []) }
    ensures code { OnOk result (plain_stmts to.new.items ≡ before (plain_stmts to.old.items)
        (before (births_by names.old (declared_first (plain_first_part first.now)))
        (first_part_by (plan_in spot.now) (entering (declared_first (plain_first_part first.now)) names.old)
        (with_variables (next_register names.old.table) (declared_first (plain_first_part first.now)) (plain_spot spot.now)) (plain_first_part first.now)))) }
    ensures names { OnOk result
        (names.new ≡ behind_first (plan_in spot.now) (plain_first_part first.now) (entering (declared_first (plain_first_part first.now)) names.old)) }
    ensures numbers { OnOk result (FirstHasNumbers (plain_first_part first.now)) }
{
    let own = enter_block(alloc, items_of(first), names, to)?;
    let live = inside(alloc, spot.inside, &own)?;
    let around = Spot {
        levels: spot.levels,
        innermost: spot.innermost,
        inside: &live,
        between: spot.between,
        outside: spot.outside,
        result: spot.result,
        plan: spot.plan,
    };
    first_part(alloc, &around, first, names, to)?;
    Ok(own)
}

// The rest of a `for`, with the deaths of its variables' blocks.
#[cycle(statement)]
fn rest_of_for(
    alloc: Global,
    spot: &Spot<'_>,
    own: Vec<u32>,
    a: &Stmt,
    controls: (&[Annot], &Option<Expr>, &Option<Expr>),
    names: &mut Registers<'_>,
    to: &mut Vec<MonStmt>,
) -> Result<(), AllocError>
    ensures code { OnOk result (plain_stmts to.new.items ≡ before (plain_stmts to.old.items)
        (before (turns_by (plan_in spot.now) names.old (with_blocks (reverse own.items) (plain_spot spot.now)) (map plain_annot controls.entry.0.now)
        (option_map plain_expr controls.entry.1.now) (option_map plain_expr controls.entry.2.now) (plain_stmt a.now)) (deaths (reverse own.items)))) }
    ensures names { OnOk result (names.new
        ≡ after_turn_by (plan_in spot.now) (map plain_annot controls.entry.0.now) (option_map plain_expr controls.entry.2.now)
        (after (plan_in spot.now) (plain_stmt a.now)
        (before_body_by (plan_in spot.now) (map plain_annot controls.entry.0.now) (option_map plain_expr controls.entry.1.now) names.old))) }
    ensures numbers { OnOk result (Any ValueHasLetters (option_map plain_expr controls.entry.1.now) × HasNumbers (plain_stmt a.now)
        × Any ActHasLetters (option_map plain_expr controls.entry.2.now) × AreNumbered (map plain_annot controls.entry.0.now)) }
{
    let live = inside(alloc, spot.inside, &own)?;
    let around = Spot {
        levels: spot.levels,
        innermost: spot.innermost,
        inside: &live,
        between: spot.between,
        outside: spot.outside,
        result: spot.result,
        plan: spot.plan,
    };
    turns(alloc, &around, a, controls, names, to)?;
    leave(alloc, &own, to)
}

// The condition of an `if`, and its first branch.
#[cycle(statement)]
fn tested(
    alloc: Global,
    spot: &Spot<'_>,
    a: &Stmt,
    e: &Expr,
    names: &mut Registers<'_>,
    to: &mut Vec<MonStmt>,
) -> Result<(MonExpr, Vec<MonStmt>), AllocError>
    ensures condition { IfOk result (λ r. plain_monitored r.0 ≡ condition_result_by names.old (plain_expr e.now)) }
    ensures first { IfOk result (λ r. plain_stmts r.1.items
        ≡ statement_by (plan_in spot.now) (with_registers (takes (unit_of names.old) (plain_expr e.now)) names.old) (plain_spot spot.now) (plain_stmt a.now)) }
    ensures setup { OnOk result (plain_stmts to.new.items ≡ before (plain_stmts to.old.items) (prepare_by names.old (plain_expr e.now))) }
    ensures names { OnOk result
        (names.new ≡ after (plan_in spot.now) (plain_stmt a.now) (with_registers (takes (unit_of names.old) (plain_expr e.now)) names.old)) }
    ensures numbers { OnOk result (ValueHasLetters (plain_expr e.now) × HasNumbers (plain_stmt a.now)) }
{
    let condition = condition_of(alloc, e, names, to)?;
    let first = apart(alloc, spot, a, names)?;
    Ok((condition, first))
}

// An `if`, from its condition, its first branch and its `else`.
#[cycle(statement)]
fn branches(
    alloc: Global,
    spot: &Spot<'_>,
    b: &Option<Stmt>,
    front: (MonExpr, Vec<MonStmt>),
    names: &mut Registers<'_>,
    to: &mut Vec<MonStmt>,
) -> Result<(), AllocError>
    ensures code { OnOk result (plain_stmts to.new.items ≡ before (plain_stmts to.old.items)
        (one (If (plain_monitored front.0) (plain_stmts front.1.items)
        (else_part_by (plan_in spot.now) names.old (plain_spot spot.now) (plain_else_part b.now))))) }
    ensures names { OnOk result (names.new ≡ behind_else (plan_in spot.now) (plain_else_part b.now) names.old) }
    ensures numbers { OnOk result (ElseHasNumbers (plain_else_part b.now)) }
{
    let second = else_part(alloc, spot, b, names)?;
    let (condition, first) = front;
    then(alloc, to, MonStmtKind::If(condition, first, second))
}

// A statement apart.
#[cycle(statement)]
fn apart(
    alloc: Global,
    spot: &Spot<'_>,
    s: &Stmt,
    names: &mut Registers<'_>,
) -> Result<Vec<MonStmt>, AllocError>
    ensures code { IfOk result (λ code. plain_stmts code.items ≡ statement_by (plan_in spot.now) names.old (plain_spot spot.now) (plain_stmt s.now)) }
    ensures names { OnOk result (names.new ≡ after (plan_in spot.now) (plain_stmt s.now) names.old) }
    ensures numbers { OnOk result (HasNumbers (plain_stmt s.now)) }
{
    let mut code = Vec::new(alloc);
    statement(alloc, spot, s, names, &mut code)?;
    Ok(code)
}

// The `else` of an `if`, apart, which may be left out.
#[cycle(statement)]
fn else_part(
    alloc: Global,
    spot: &Spot<'_>,
    b: &Option<Stmt>,
    names: &mut Registers<'_>,
) -> Result<Vec<MonStmt>, AllocError>
    ensures code { IfOk result (λ code. plain_stmts code.items ≡ else_part_by (plan_in spot.now) names.old (plain_spot spot.now) (plain_else_part b.now)) }
    ensures names { OnOk result (names.new ≡ behind_else (plan_in spot.now) (plain_else_part b.now) names.old) }
    ensures numbers { OnOk result (ElseHasNumbers (plain_else_part b.now)) }
{
    match b {
        Some(b) => apart(alloc, spot, b, names),
        None => Ok(Vec::new(alloc)),
    }
}

// A block, whose variables live as long as its items are done.
#[cycle(statement)]
fn block(
    alloc: Global,
    spot: &Spot<'_>,
    body: &[Item],
    names: &mut Registers<'_>,
    to: &mut Vec<MonStmt>,
) -> Result<(), AllocError>
    ensures code { OnOk result (plain_stmts to.new.items ≡ before (plain_stmts to.old.items)
        (alive (unit_of names.old) (next_register names.old.table) (declared_in (plain_items body.now))
        (items_by (plan_in spot.now) (entering (declared_in (plain_items body.now)) names.old)
        (with_variables (next_register names.old.table) (declared_in (plain_items body.now)) (plain_spot spot.now)) (plain_items body.now)))) }
    ensures names { OnOk result (names.new ≡ behind_items (plan_in spot.now) (plain_items body.now) (entering (declared_in (plain_items body.now)) names.old)) }
    ensures numbers { OnOk result (HaveNumbers (plain_items body.now)) }
{
    let own = enter_block(alloc, body, names, to)?;
    let live = inside(alloc, spot.inside, &own)?;
    let inner = Spot {
        levels: spot.levels,
        innermost: spot.innermost,
        inside: &live,
        between: spot.between,
        outside: spot.outside,
        result: spot.result,
        plan: spot.plan,
    };
    items(alloc, &inner, body, names, to)?;
    leave(alloc, &own, to)
}

// What stands first in a `for`, which may be left out.
#[cycle(statement)]
fn first_part(
    alloc: Global,
    spot: &Spot<'_>,
    first: &Option<Item>,
    names: &mut Registers<'_>,
    to: &mut Vec<MonStmt>,
) -> Result<(), AllocError>
    ensures code { OnOk result (plain_stmts to.new.items ≡ before (plain_stmts to.old.items)
        (first_part_by (plan_in spot.now) names.old (plain_spot spot.now)
        (plain_first_part first.now))) }
    ensures names { OnOk result (names.new ≡ behind_first (plan_in spot.now) (plain_first_part first.now) names.old) }
    ensures numbers { OnOk result (FirstHasNumbers (plain_first_part first.now)) }
{
    match first {
        Some(i) => item(alloc, spot, i, names, to),
        None => Ok(()),
    }
}

// The loop of a `for`, from its annotations, its body, its condition and its step.
#[cycle(statement)]
fn turns(
    alloc: Global,
    spot: &Spot<'_>,
    a: &Stmt,
    controls: (&[Annot], &Option<Expr>, &Option<Expr>),
    names: &mut Registers<'_>,
    to: &mut Vec<MonStmt>,
) -> Result<(), AllocError>
    ensures code { OnOk result (plain_stmts to.new.items ≡ before (plain_stmts to.old.items)
        (turns_by (plan_in spot.now) names.old (plain_spot spot.now) (map plain_annot controls.entry.0.now)
        (option_map plain_expr controls.entry.1.now) (option_map plain_expr controls.entry.2.now) (plain_stmt a.now))) }
    ensures names { OnOk result (names.new
        ≡ after_turn_by (plan_in spot.now) (map plain_annot controls.entry.0.now) (option_map plain_expr controls.entry.2.now)
        (after (plan_in spot.now) (plain_stmt a.now)
        (before_body_by (plan_in spot.now) (map plain_annot controls.entry.0.now) (option_map plain_expr controls.entry.1.now) names.old))) }
    ensures numbers { OnOk result (Any ValueHasLetters (option_map plain_expr controls.entry.1.now) × HasNumbers (plain_stmt a.now)
        × Any ActHasLetters (option_map plain_expr controls.entry.2.now) × AreNumbered (map plain_annot controls.entry.0.now)) }
{
    let (annots, e, step) = controls;
    let loops = one_more(spot.levels)?;
    let front = front_of_for(alloc, spot.plan, loops, annots, e, names)?;
    let mut behind = Vec::new(alloc);
    let kept = turn(alloc, spot, annots, a, names, &mut behind)?;
    act_if_any(alloc, step, names, &mut behind)?;
    compare_variant(alloc, spot.plan, kept, names, &mut behind)?;
    repeat(alloc, loops, front, behind, to)
}

// Translates an item of a block.
#[cycle(statement)]
#[tactic(auto, using(c_effects::proofs::Sequences::before_none))]
fn item(
    alloc: Global,
    spot: &Spot<'_>,
    i: &Item,
    names: &mut Registers<'_>,
    to: &mut Vec<MonStmt>,
) -> Result<(), AllocError>
    ensures code { OnOk result (plain_stmts to.new.items ≡ before (plain_stmts to.old.items)
        (item_by (plan_in spot.now) names.old (plain_spot spot.now) (plain_item i.now))) }
    ensures names { OnOk result (names.new ≡ behind_item (plan_in spot.now) (plain_item i.now) names.old) }
    ensures numbers { OnOk result (ItemHasNumbers (plain_item i.now)) }
{
    match i {
        Item::Declare(decls) => initialise_all(alloc, decls, names, to),
        Item::Specify(..) => Ok(()),
        Item::Run(a) => statement(alloc, spot, a, names, to),
        Item::Asserts(annots) => asserts(alloc, spot.plan, annots, names, to),
    }
}

// Translates the items of a block, whose variables live.
#[cycle(statement)]
fn items(
    alloc: Global,
    spot: &Spot<'_>,
    block: &[Item],
    names: &mut Registers<'_>,
    to: &mut Vec<MonStmt>,
) -> Result<(), AllocError>
    ensures code { OnOk result (plain_stmts to.new.items ≡ before (plain_stmts to.old.items)
        (items_by (plan_in spot.now) names.old (plain_spot spot.now) (plain_items block.now))) }
    ensures names { OnOk result (names.new ≡ behind_items (plan_in spot.now) (plain_items block.now) names.old) }
    ensures numbers { OnOk result (HaveNumbers (plain_items block.now)) }
{
    'items: for i in block {
        item(alloc, spot, i, names, to)?;
    }
    Ok(())
}
