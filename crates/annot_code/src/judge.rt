//! A predicate judged: whether it says something, and whether that is true.

ghost use Rattle.std.specs.Prelude.{◌≡◌, IfOk, None, OnOk, Some, option_map};
ghost use Rattle.c_syntax.specs.Logic.{plain_body, plain_pred};
ghost use Rattle.mon_syntax.specs.Trees.{plain_expr, plain_stmts};
ghost use Rattle.annot_simulation.specs.Code.{judged_anew, judged_by, judged_with, nothing_said};
ghost use Rattle.annot_pieces.specs.Plain.{clause_by, code_of, judgement_by, number_of, plain_stored, written};
ghost use Rattle.annot_simulation.specs.Inside.{AreInside};
ghost use Rattle.annot_code.specs.Judged.{IsValidIn, JudgesIn, judgement_of};

use crate::predicate::pred_code;
use annot_pieces::piece::{Code, take_none};
use annot_pieces::plan::Stored;
use annot_pieces::reading::{Known, Reading};
use c_effects::operator::{constant, register};
use c_effects::part::{alone, then};
use c_syntax::logic::{Body, Pred};
use mon_syntax::{MonExpr, MonExprKind, MonStmt, MonStmtKind, MonType, Registers};
use std::alloc::{AllocError, Global};

/// Statements, and the registers in which they leave the outcome.
#[derive(Drop)]
pub struct Judged {
    pub stmts: Vec<MonStmt>,
    /// 1 where the predicate says something and else 0.
    pub flag: u32,
    /// 1 where it is true and else 0.
    pub truth: u32,
}

// The truth in a register of its own, where the flag in a register is 1.
#[tactic(auto, using(mon_syntax::proofs::Rows::if_is))]
fn judged_by(
    alloc: Global,
    stmts: Vec<MonStmt>,
    flag: u32,
    value: MonExpr,
    names: &mut Registers<'_>,
) -> Result<Judged, AllocError>
    ensures code { IfOk result (λ j. judgement_of j names.new.table.kinds
        ≡ judged_by (plain_stmts stmts.items) flag (plain_expr value) names.old.table.kinds) }
    ensures bound { OnOk result (names.new.table.bound ≡ names.old.table.bound) }
    ensures program { OnOk result (names.new.program ≡ names.old.program) }
{
    let truth = names.fresh(MonType::I32)?;
    let on = alone(alloc, MonStmtKind::Set(truth, value))?;
    let off = take_none(alloc, truth)?;
    let test = register(alloc, flag)?;
    let mut stmts = stmts;
    then(alloc, &mut stmts, MonStmtKind::If(test, on, off))?;
    Ok(Judged { stmts, flag, truth })
}

// The flag in a register of its own.
fn judged_anew(
    alloc: Global,
    flag: MonExpr,
    stmts: Vec<MonStmt>,
    value: MonExpr,
    names: &mut Registers<'_>,
) -> Result<Judged, AllocError>
    ensures code { IfOk result (λ j. judgement_of j names.new.table.kinds
        ≡ judged_anew (plain_expr flag) (written (plain_stmts stmts.items) None (plain_expr value) names.old.table.kinds)) }
    ensures bound { OnOk result (names.new.table.bound ≡ names.old.table.bound) }
    ensures program { OnOk result (names.new.program ≡ names.old.program) }
{
    let number = names.fresh(MonType::I32)?;
    let mut stmts = stmts;
    then(alloc, &mut stmts, MonStmtKind::Set(number, flag))?;
    judged_by(alloc, stmts, number, value, names)
}

// The register that an expression is.
fn number_of(e: &MonExpr) -> Option<u32>
    ensures { result ≡ number_of (plain_expr e.now) }
{
    match &*e.kind {
        MonExprKind::Register(number) => Some(*number),
        MonExprKind::Global(_) | MonExprKind::Constant(_, _) => None,
        MonExprKind::Binary(_, _, _, _) | MonExprKind::Minus(_, _) => None,
        MonExprKind::Flip(_, _) | MonExprKind::Cast(_, _) | MonExprKind::Load(_, _) => None,
    }
}

// A flag that is a register already stays there.
#[tactic(auto, using(annot_pieces::proofs::Arms::judged_is))]
fn judged_where(
    alloc: Global,
    flag: MonExpr,
    stmts: Vec<MonStmt>,
    value: MonExpr,
    names: &mut Registers<'_>,
) -> Result<Judged, AllocError>
    ensures code { IfOk result (λ j. judgement_of j names.new.table.kinds
        ≡ judged_with (Some (plain_expr flag))
        (written (plain_stmts stmts.items) (Some (plain_expr flag)) (plain_expr value) names.old.table.kinds)) }
    ensures bound { OnOk result (names.new.table.bound ≡ names.old.table.bound) }
    ensures program { OnOk result (names.new.program ≡ names.old.program) }
{
    match number_of(&flag) {
        Some(number) => judged_by(alloc, stmts, number, value, names),
        None => judged_anew(alloc, flag, stmts, value, names),
    }
}

fn judged_with(alloc: Global, c: Code, names: &mut Registers<'_>) -> Result<Judged, AllocError>
    ensures code { IfOk result (λ j. judgement_of j names.new.table.kinds
        ≡ judged_with (option_map plain_expr c.flag) (code_of c names.old.table.kinds)) }
    ensures bound { OnOk result (names.new.table.bound ≡ names.old.table.bound) }
    ensures program { OnOk result (names.new.program ≡ names.old.program) }
{
    let Code { stmts, flag, value } = c;
    match flag {
        Some(flag) => judged_where(alloc, flag, stmts, value, names),
        None => {
            let always = constant(alloc, MonType::I32, 1)?;
            judged_anew(alloc, always, stmts, value, names)
        }
    }
}

/// The code that judges a predicate, with further registers.
pub fn judge(
    alloc: Global,
    p: &Pred,
    stored: &Stored<'_>,
    names: &mut Registers<'_>,
) -> Result<Judged, AllocError>
    ensures code { IfOk result (λ j. judgement_of j names.new.table.kinds ≡ judgement_by names.old (plain_pred p.now) (plain_stored stored.now)) }
    ensures bound { OnOk result (names.new.table.bound ≡ names.old.table.bound) }
    ensures program { OnOk result (names.new.program ≡ names.old.program) }
    ensures judges { IfOk result (λ j. JudgesIn names.old (plain_stored stored.now).plan (plain_stored stored.now).held (plain_pred p.now)
        (judgement_of j names.new.table.kinds)) }
    ensures valid { IfOk result (λ j. IsValidIn names.old (plain_stored stored.now).plan (plain_stored stored.now).held (plain_pred p.now)
        (judgement_of j names.new.table.kinds)) }
    ensures inside { IfOk result (λ j. AreInside (judgement_of j names.new.table.kinds).stmts) }
{
    let readings: Vec<Reading> = Vec::new(alloc);
    let known = Known {
        stored: *stored,
        readings: &readings,
    };
    let c = pred_code(alloc, p, &known, names)?;
    judged_with(alloc, c, names)
}

// What isn't typed says nothing.
fn judge_nothing(alloc: Global, names: &mut Registers<'_>) -> Result<Judged, AllocError>
    ensures code { IfOk result (λ j. judgement_of j names.new.table.kinds ≡ nothing_said names.old.table.kinds) }
    ensures bound { OnOk result (names.new.table.bound ≡ names.old.table.bound) }
    ensures program { OnOk result (names.new.program ≡ names.old.program) }
{
    let never = constant(alloc, MonType::I32, 0)?;
    let nothing = constant(alloc, MonType::I32, 0)?;
    judged_anew(alloc, never, Vec::new(alloc), nothing, names)
}

/// The code that judges a clause, with further registers.
pub fn judge_clause(
    alloc: Global,
    body: &Body,
    stored: &Stored<'_>,
    names: &mut Registers<'_>,
) -> Result<Judged, AllocError>
    ensures code { IfOk result (λ j. judgement_of j names.new.table.kinds ≡ clause_by names.old (plain_body body.now) (plain_stored stored.now)) }
    ensures bound { OnOk result (names.new.table.bound ≡ names.old.table.bound) }
    ensures program { OnOk result (names.new.program ≡ names.old.program) }
{
    match body {
        Body::Raw(_) | Body::Names(_) | Body::Value(_) => judge_nothing(alloc, names),
        Body::Truth(p) => judge(alloc, p, stored, names),
    }
}
