//! The checks of a contract (ACSL 2.3.2, 2.3.3), in their order.

ghost use Rattle.std.specs.Prelude.{◌≡◌, ◌++◌, ◌∷◌, [], pos, IfOk, None, OnOk, map};
ghost use Rattle.c_syntax.specs.Logic.{plain_annot, plain_body};
ghost use Rattle.c_syntax.specs.Programs.{plain_contract};
ghost use Rattle.c_model.specs.ContractChecks.{entry_checks, is_assumes, leave_checks};
ghost use Rattle.mon_syntax.specs.declared.tree.MonOp.TheVariants.{Lt};
ghost use Rattle.mon_syntax.specs.declared.tree.MonType.TheVariants.{I32};
ghost use Rattle.mon_syntax.specs.Registers.{next_register};
ghost use Rattle.mon_syntax.specs.Trees.{Binary, Constant, plain_expr, plain_stmts};
ghost use Rattle.behavior_split.specs.Checks.{plain_clause};
ghost use Rattle.c_effects.specs.Expressions.{before};
ghost use Rattle.annot_code.specs.Checks.{annotations_of, behavior_by, check_by, checks_by, counted_behind_behavior, counted_behind_check};
ghost use Rattle.annot_code.specs.Checks.{counted_behind_cover, counted_behind_demand, cover_by, demand_by, entry_by, leave_by, names_behind_behavior};
ghost use Rattle.annot_code.specs.Checks.{names_behind_check, names_behind_checks, names_behind_cover, names_behind_demand, names_behind_entry};
ghost use Rattle.annot_code.specs.Checks.{names_behind_leave, plain_flags};
ghost use Rattle.annot_simulation.specs.ContractCode.{assumption_code, count, cover_asked, cover_truth};
ghost use Rattle.annot_simulation.specs.Numbered.{AreNumbered, IsNumbered};
ghost use Rattle.annot_pieces.specs.Plain.{clause_by, names_behind_assertion, names_with, plain_stored};
ghost use Rattle.annot_code.specs.Judged.{judgement_of};

use crate::assertion::{assert_of, assertion};
use crate::flags::{Flags, count, flag_at, raise_all, where_flagged};
use crate::judge::{Judged, judge_clause};
use annot_pieces::kept::{Held, Kept};
use annot_pieces::plan::{Plan, Stored};
use behavior_split::{Clause, clauses};
use c_effects::operator::{constant, operation, register};
use c_effects::part::{then, then_all};
use c_syntax::logic::Body;
use c_syntax::{Annot, Contract, Kind, Place};
use mon_syntax::{MonExpr, MonOp, MonStmt, MonStmtKind, MonType, Registers};
use std::alloc::{AllocError, Global};

// ---- clauses that name behaviors

// What `disjoint` and `complete` ask of the number of behaviors that hold, in a register.
fn cover_truth(alloc: Global, kind: Kind, sum: u32) -> Result<MonExpr, AllocError>
    ensures { IfOk result (λ e. plain_expr e ≡ cover_truth kind sum) }
{
    let number = register(alloc, sum)?;
    match kind {
        Kind::Disjoint => {
            let one = constant(alloc, MonType::I32, 1)?;
            operation(alloc, MonOp::Le, MonType::I32, number, one)
        }
        Kind::Assert | Kind::Invariant | Kind::Variant | Kind::Rte | Kind::Requires => {
            above_zero(alloc, number)
        }
        Kind::Assumes | Kind::Ensures | Kind::Complete => above_zero(alloc, number),
    }
}

// `0 < e`
fn above_zero(alloc: Global, e: MonExpr) -> Result<MonExpr, AllocError>
    ensures { IfOk result (λ x. plain_expr x ≡ Binary Lt I32 (Constant I32 (pos 0)) (plain_expr e)) }
{
    let zero = constant(alloc, MonType::I32, 0)?;
    operation(alloc, MonOp::Lt, MonType::I32, zero, e)
}

// It is asked how many of them hold.
fn ask_cover(
    alloc: Global,
    annot: &Annot,
    sum: u32,
    to: &mut Vec<MonStmt>,
) -> Result<(), AllocError>
    ensures code { OnOk result (plain_stmts to.new.items ≡ before (plain_stmts to.old.items) (cover_asked (plain_annot annot.now) sum)) }
    ensures numbered { OnOk result (IsNumbered (plain_annot annot.now)) }
{
    let always = constant(alloc, MonType::I32, 1)?;
    let truth = cover_truth(alloc, annot.kind, sum)?;
    let kind = assert_of(always, truth, annot.number, annot.place.line, annot.kind);
    then(alloc, to, kind)
}

// Flags are counted, in a further register, and then it is asked.
#[tactic(auto, using(c_effects::proofs::Sequences::before_assoc))]
fn count_anew(
    alloc: Global,
    annot: &Annot,
    flags: &[u32],
    names: &mut Registers<'_>,
    to: &mut Vec<MonStmt>,
) -> Result<u32, AllocError>
    ensures code { OnOk result (plain_stmts to.new.items ≡ before (plain_stmts to.old.items)
        (before (count (next_register names.old.table) flags.now) (cover_asked (plain_annot annot.now) (next_register names.old.table)))) }
    ensures number { IfOk result (λ r. r ≡ next_register names.old.table) }
    ensures names { OnOk result (names.new ≡ names_with (names.old.table.kinds ++ I32 ∷ []) names.old) }
    ensures numbered { OnOk result (IsNumbered (plain_annot annot.now)) }
{
    let sum = names.fresh(MonType::I32)?;
    count(alloc, sum, flags, to)?;
    ask_cover(alloc, annot, sum, to)?;
    Ok(sum)
}

// All behaviors, whose number may stand in a register.
fn cover_all(
    alloc: Global,
    annot: &Annot,
    counted: Option<u32>,
    flags: &Flags<'_>,
    names: &mut Registers<'_>,
    to: &mut Vec<MonStmt>,
) -> Result<Option<u32>, AllocError>
    ensures code { OnOk result (plain_stmts to.new.items
        ≡ before (plain_stmts to.old.items) (cover_by (plain_flags flags.now) names.old [] counted (plain_annot annot.now))) }
    ensures counted { IfOk result (λ o. o ≡ counted_behind_cover (plain_flags flags.now) names.old [] counted) }
    ensures names { OnOk result (names.new ≡ names_behind_cover (plain_flags flags.now) [] counted names.old) }
    ensures numbered { OnOk result (IsNumbered (plain_annot annot.now)) }
{
    match counted {
        Some(sum) => {
            ask_cover(alloc, annot, sum, to)?;
            Ok(Some(sum))
        }
        None => {
            let all = flags.all(alloc)?;
            let sum = count_anew(alloc, annot, &all, names, to)?;
            Ok(Some(sum))
        }
    }
}

// A clause that names behaviors: no names are all of them.
fn cover(
    alloc: Global,
    annot: &Annot,
    listed: &[(Place, u32)],
    counted: Option<u32>,
    flags: &Flags<'_>,
    names: &mut Registers<'_>,
    to: &mut Vec<MonStmt>,
) -> Result<Option<u32>, AllocError>
    ensures code { OnOk result (plain_stmts to.new.items
        ≡ before (plain_stmts to.old.items) (cover_by (plain_flags flags.now) names.old listed.now counted (plain_annot annot.now))) }
    ensures counted { IfOk result (λ o. o ≡ counted_behind_cover (plain_flags flags.now) names.old listed.now counted) }
    ensures names { OnOk result (names.new ≡ names_behind_cover (plain_flags flags.now) listed.now counted names.old) }
    ensures numbered { OnOk result (IsNumbered (plain_annot annot.now)) }
{
    match listed {
        [] => cover_all(alloc, annot, counted, flags, names, to),
        [_, ..] => {
            let each = flags.each(alloc, listed)?;
            count_anew(alloc, annot, &each, names, to)?;
            Ok(counted)
        }
    }
}

// ---- a check

// A clause that is demanded.
fn demand(
    alloc: Global,
    annot: &Annot,
    counted: Option<u32>,
    flags: &Flags<'_>,
    stored: &Stored<'_>,
    names: &mut Registers<'_>,
    to: &mut Vec<MonStmt>,
) -> Result<Option<u32>, AllocError>
    ensures code { OnOk result (plain_stmts to.new.items ≡ before (plain_stmts to.old.items)
        (demand_by (plain_stored stored.now) (plain_flags flags.now) names.old counted (plain_annot annot.now))) }
    ensures counted { IfOk result (λ o. o
        ≡ counted_behind_demand (plain_stored stored.now) (plain_flags flags.now) names.old counted (plain_annot annot.now)) }
    ensures names { OnOk result (names.new
        ≡ names_behind_demand (plain_stored stored.now) (plain_flags flags.now) counted (plain_annot annot.now) names.old) }
    ensures numbered { OnOk result (IsNumbered (plain_annot annot.now)) }
{
    match &annot.body {
        Body::Names(listed) => cover(alloc, annot, listed, counted, flags, names, to),
        Body::Raw(_) | Body::Truth(_) | Body::Value(_) => {
            assertion(alloc, annot, stored, names, to)?;
            Ok(counted)
        }
    }
}

// What judges an `assumes`, which must say something, and whose truth is that of its behavior.
fn assume_judged(
    alloc: Global,
    judged: Judged,
    annot: &Annot,
    flag: u32,
    to: &mut Vec<MonStmt>,
) -> Result<(), AllocError>
    ensures code { OnOk result (plain_stmts to.new.items
        ≡ before (plain_stmts to.old.items) (assumption_code (plain_annot annot.now) flag (judgement_of judged []))) }
    ensures numbered { OnOk result (IsNumbered (plain_annot annot.now)) }
{
    let Judged {
        stmts,
        flag: says,
        truth,
    } = judged;
    then_all(to, stmts)?;
    let says = register(alloc, says)?;
    let always = constant(alloc, MonType::I32, 1)?;
    let kind = assert_of(says, always, annot.number, annot.place.line, annot.kind);
    then(alloc, to, kind)?;
    let truth = register(alloc, truth)?;
    then(alloc, to, MonStmtKind::Set(flag, truth))
}

// An `assumes` of the behavior with this flag.
fn assume(
    alloc: Global,
    annot: &Annot,
    flag: u32,
    stored: &Stored<'_>,
    names: &mut Registers<'_>,
    to: &mut Vec<MonStmt>,
) -> Result<(), AllocError>
    ensures code { OnOk result (plain_stmts to.new.items ≡ before (plain_stmts to.old.items)
        (assumption_code (plain_annot annot.now) flag (clause_by names.old (plain_body annot.now.body) (plain_stored stored.now)))) }
    ensures names { OnOk result (names.new ≡ names_behind_assertion (plain_annot annot.now) (plain_stored stored.now) names.old) }
    ensures numbered { OnOk result (IsNumbered (plain_annot annot.now)) }
{
    let judged = judge_clause(alloc, &annot.body, stored, names)?;
    assume_judged(alloc, judged, annot, flag, to)
}

fn is_assumes(kind: Kind) -> bool
    ensures { result ≡ is_assumes kind }
{
    matches!(kind, Kind::Assumes)
}

// A clause of the behavior with this flag. After an `assumes` another number of behaviors may hold, and what is done for one behavior may not be done.
fn of_behavior(
    alloc: Global,
    annot: &Annot,
    state: (Option<u32>, u32),
    flags: &Flags<'_>,
    stored: &Stored<'_>,
    names: &mut Registers<'_>,
    to: &mut Vec<MonStmt>,
) -> Result<Option<u32>, AllocError>
    ensures code { OnOk result (plain_stmts to.new.items ≡ before (plain_stmts to.old.items)
        (behavior_by (plain_stored stored.now) (plain_flags flags.now) names.old state.0 state.1 (plain_annot annot.now))) }
    ensures counted { IfOk result (λ o. o ≡ counted_behind_behavior state.0 (plain_annot annot.now)) }
    ensures names { OnOk result (names.new
        ≡ names_behind_behavior (plain_stored stored.now) (plain_flags flags.now) state.0 (plain_annot annot.now) names.old) }
    ensures numbered { OnOk result (IsNumbered (plain_annot annot.now)) }
{
    let (counted, flag) = state;
    if is_assumes(annot.kind) {
        assume(alloc, annot, flag, stored, names, to)?;
        Ok(None)
    } else {
        demand(alloc, annot, counted, flags, stored, names, to)?;
        Ok(counted)
    }
}

// A check, where the number of behaviors that hold may stand in a register.
fn check(
    alloc: Global,
    clause: &Clause<'_>,
    counted: Option<u32>,
    flags: &Flags<'_>,
    stored: &Stored<'_>,
    names: &mut Registers<'_>,
    to: &mut Vec<MonStmt>,
) -> Result<Option<u32>, AllocError>
    ensures code { OnOk result (plain_stmts to.new.items ≡ before (plain_stmts to.old.items)
        (check_by (plain_stored stored.now) (plain_flags flags.now) names.old counted (plain_clause clause.now))) }
    ensures counted { IfOk result (λ o. o ≡
        counted_behind_check (plain_stored stored.now) (plain_flags flags.now) names.old counted (plain_clause clause.now)) }
    ensures names { OnOk result (names.new
        ≡ names_behind_check (plain_stored stored.now) (plain_flags flags.now) counted (plain_clause clause.now) names.old) }
    ensures numbered { OnOk result (IsNumbered (plain_annot clause.now.annot.now)) }
{
    match clause.behavior {
        None => demand(alloc, clause.annot, counted, flags, stored, names, to),
        Some(index) => {
            let flag = flag_at(flags.first, index)?;
            let mut code = Vec::new(alloc);
            let after = of_behavior(
                alloc,
                clause.annot,
                (counted, flag),
                flags,
                stored,
                names,
                &mut code,
            )?;
            where_flagged(alloc, flag, code, to)?;
            Ok(after)
        }
    }
}

/// Checks of a contract, one after the other.
pub fn checks(
    alloc: Global,
    checks: &[Clause<'_>],
    flags: &Flags<'_>,
    stored: &Stored<'_>,
    names: &mut Registers<'_>,
    to: &mut Vec<MonStmt>,
) -> Result<(), AllocError>
    ensures code { OnOk result (plain_stmts to.new.items ≡ before (plain_stmts to.old.items)
        (checks_by (plain_stored stored.now) (plain_flags flags.now) names.old None (map plain_clause checks.now))) }
    ensures names { OnOk result (names.new
        ≡ names_behind_checks (plain_stored stored.now) (plain_flags flags.now) None (map plain_clause checks.now) names.old) }
    ensures numbered { OnOk result (AreNumbered (annotations_of (map plain_clause checks.now))) }
{
    let mut counted = None;
    'turn: for clause in checks {
        counted = check(alloc, clause, counted, flags, stored, names, to)?;
    }
    Ok(())
}

// ---- a contract

/// What a contract asks where a body begins: all flags are raised, and then its checks. The flags stand in the registers from one on.
#[tactic(auto, using(c_effects::proofs::Sequences::before_assoc))]
pub fn entry(
    alloc: Global,
    contract: &Contract,
    first: u32,
    names: &mut Registers<'_>,
    to: &mut Vec<MonStmt>,
) -> Result<(), AllocError>
    ensures code { OnOk result (plain_stmts to.new.items ≡ before (plain_stmts to.old.items) (entry_by names.old first (plain_contract contract.now))) }
    ensures names { OnOk result (names.new ≡ names_behind_entry first (plain_contract contract.now) names.old) }
    ensures numbered { OnOk result (AreNumbered (annotations_of (entry_checks (plain_contract contract.now)))) }
{
    let ordered = clauses(alloc, contract)?;
    let flags = Flags::new(alloc, &contract.behaviors, first)?;
    let kept: Vec<Kept<'_>> = Vec::new(alloc);
    let held: Vec<Held> = Vec::new(alloc);
    let plan = Plan::new(alloc, &kept)?;
    let nothing = Stored {
        plan: &plan,
        held: &held,
    };
    raise_all(alloc, first, &contract.behaviors, to)?;
    checks(alloc, &ordered.entry, &flags, &nothing, names, to)
}

/// What it asks where the body ends, with what stands in registers.
pub fn leave(
    alloc: Global,
    contract: &Contract,
    first: u32,
    stored: &Stored<'_>,
    names: &mut Registers<'_>,
    to: &mut Vec<MonStmt>,
) -> Result<(), AllocError>
    ensures code { OnOk result (plain_stmts to.new.items
        ≡ before (plain_stmts to.old.items) (leave_by names.old (plain_stored stored.now) first (plain_contract contract.now))) }
    ensures names { OnOk result (names.new ≡ names_behind_leave (plain_stored stored.now) first (plain_contract contract.now) names.old) }
    ensures numbered { OnOk result (AreNumbered (annotations_of (leave_checks (plain_contract contract.now)))) }
{
    let ordered = clauses(alloc, contract)?;
    let flags = Flags::new(alloc, &contract.behaviors, first)?;
    checks(alloc, &ordered.leave, &flags, stored, names, to)
}
