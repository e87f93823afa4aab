//! The code at a passage of a label (ACSL 2.4.3): the label's terms are kept in registers.

ghost use Rattle.std.specs.Prelude.{◌≡◌, ◌++◌, ◌∷◌, [], suc, pos, IfOk, OnOk};
ghost use Rattle.c_syntax.specs.Logic.{plain_term};
ghost use Rattle.c_model.specs.State.{same_label};
ghost use Rattle.mon_syntax.specs.declared.tree.MonType.TheVariants.{I32, I128};
ghost use Rattle.mon_syntax.specs.Trees.{Constant, Register, Set, Then, plain_expr, plain_stmts};
ghost use Rattle.c_effects.specs.Expressions.{before, set};
ghost use Rattle.annot_pieces.specs.Plain.{code_of, nothing_known, pointer_of, side_by_names, side_of};
ghost use Rattle.annot_pieces.specs.Tables.{plain_kept, plain_plan};
ghost use Rattle.annot_code.specs.Passages.{kept_by, names_behind_snapshot, names_behind_term, passed_by, names_behind_passed, snapshot_by};
ghost use Rattle.annot_simulation.specs.Snapshots.{behind_keep, keep, keep_number, keep_pointer};

use crate::predicate::side_code;
use annot_pieces::kept::{Held, Kept};
use annot_pieces::piece::{Code, guarded, next, take_none};
use annot_pieces::plan::{Plan, Stored};
use annot_pieces::pointer::PointerCode;
use annot_pieces::reading::{Known, Reading};
use annot_pieces::side::Side;
use c_effects::operator::{constant, register};
use c_effects::part::{alone, then, then_all};
use c_syntax::logic::Term;
use mon_syntax::{MonExpr, MonStmt, MonStmtKind, MonType, Registers};
use std::alloc::{AllocError, Global};

// ---- a value that is kept

// The value of a number, and then the flag.
#[tactic(auto, using(annot_pieces::proofs::Rust::next_is))]
fn number_kept(alloc: Global, value: MonExpr, number: u32) -> Result<Vec<MonStmt>, AllocError>
    ensures { IfOk result (λ v. plain_stmts v.items ≡ Then (Set (suc number) (plain_expr value)) (set number (Constant I32 (pos 1)))) }
{
    let second = next(number)?;
    let mut on = alone(alloc, MonStmtKind::Set(second, value))?;
    let flag = constant(alloc, MonType::I32, 1)?;
    then(alloc, &mut on, MonStmtKind::Set(number, flag))?;
    Ok(on)
}

// A number is kept where there is one.
#[tactic(auto, using(c_effects::proofs::Sequences::before_assoc))]
fn keep_number(alloc: Global, c: Code, number: u32, to: &mut Vec<MonStmt>) -> Result<(), AllocError>
    ensures { OnOk result (plain_stmts to.new.items ≡ before (plain_stmts to.old.items) (keep_number (code_of c []) number)) }
{
    let on = number_kept(alloc, c.value, number)?;
    let off = take_none(alloc, number)?;
    then_all(to, c.stmts)?;
    guarded(alloc, c.flag, on, off, to)
}

// The offset in a register of its own, the base and the offset of a pointer, and then the flag.
#[tactic(auto, using(annot_pieces::proofs::Rust::next_is))]
fn pointer_kept(
    alloc: Global,
    base: MonExpr,
    offset: MonExpr,
    number: u32,
    own: u32,
) -> Result<Vec<MonStmt>, AllocError>
    ensures { IfOk result (λ v. plain_stmts v.items ≡ Then (Set own (plain_expr offset)) (Then (Set (suc number) (plain_expr base))
        (Then (Set (suc (suc number)) (Register own)) (set number (Constant I32 (pos 1)))))) }
{
    let second = next(number)?;
    let third = next(second)?;
    let mut on = alone(alloc, MonStmtKind::Set(own, offset))?;
    then(alloc, &mut on, MonStmtKind::Set(second, base))?;
    let there = register(alloc, own)?;
    then(alloc, &mut on, MonStmtKind::Set(third, there))?;
    let flag = constant(alloc, MonType::I32, 1)?;
    then(alloc, &mut on, MonStmtKind::Set(number, flag))?;
    Ok(on)
}

// A pointer is kept where there is one.
#[tactic(auto, using(c_effects::proofs::Sequences::before_assoc))]
fn keep_pointer(
    alloc: Global,
    c: PointerCode,
    number: u32,
    names: &mut Registers<'_>,
    to: &mut Vec<MonStmt>,
) -> Result<(), AllocError>
    ensures code { OnOk result (plain_stmts to.new.items
        ≡ before (plain_stmts to.old.items) (keep_pointer (pointer_of c names.old.table.kinds) number)) }
    ensures kinds { OnOk result (names.new.table.kinds ≡ names.old.table.kinds ++ I128 ∷ []) }
    ensures bound { OnOk result (names.new.table.bound ≡ names.old.table.bound) }
    ensures program { OnOk result (names.new.program ≡ names.old.program) }
{
    let own = names.fresh(MonType::I128)?;
    let on = pointer_kept(alloc, c.base, c.offset, number, own)?;
    let off = take_none(alloc, number)?;
    then_all(to, c.stmts)?;
    guarded(alloc, c.flag, on, off, to)
}

// A side is kept where it has a value.
fn keep(
    alloc: Global,
    x: Side,
    number: u32,
    names: &mut Registers<'_>,
    to: &mut Vec<MonStmt>,
) -> Result<(), AllocError>
    ensures code { OnOk result (plain_stmts to.new.items ≡ before (plain_stmts to.old.items) (keep (side_of x names.old.table.kinds) number)) }
    ensures kinds { OnOk result (names.new.table.kinds ≡ behind_keep (side_of x names.old.table.kinds)) }
    ensures bound { OnOk result (names.new.table.bound ≡ names.old.table.bound) }
    ensures program { OnOk result (names.new.program ≡ names.old.program) }
{
    match x {
        Side::Number(c) => keep_number(alloc, c, number, to),
        Side::Pointer(c) => keep_pointer(alloc, c, number, names, to),
    }
}

// ---- a term

// The code of a term that is kept, in which no name and no label stands.
fn entry_side(alloc: Global, t: &Term, names: &mut Registers<'_>) -> Result<Side, AllocError>
    ensures code { IfOk result (λ c. side_of c names.new.table.kinds ≡ side_by_names names.old (plain_term t.now) nothing_known) }
    ensures bound { OnOk result (names.new.table.bound ≡ names.old.table.bound) }
    ensures program { OnOk result (names.new.program ≡ names.old.program) }
{
    let kept: Vec<Kept<'_>> = Vec::new(alloc);
    let held: Vec<Held> = Vec::new(alloc);
    let readings: Vec<Reading> = Vec::new(alloc);
    let plan = Plan::new(alloc, &kept)?;
    let stored = Stored {
        plan: &plan,
        held: &held,
    };
    let known = Known {
        stored,
        readings: &readings,
    };
    side_code(alloc, t, &known, names)
}

// A term is evaluated and kept.
fn keep_term(
    alloc: Global,
    entry: &Kept<'_>,
    names: &mut Registers<'_>,
    to: &mut Vec<MonStmt>,
) -> Result<(), AllocError>
    ensures code { OnOk result (plain_stmts to.new.items ≡ before (plain_stmts to.old.items) (kept_by names.old (plain_kept entry.now))) }
    ensures names { OnOk result (names.new ≡ names_behind_term (plain_kept entry.now) names.old) }
{
    let x = entry_side(alloc, entry.term, names)?;
    keep(alloc, x, entry.register, names, to)
}

// ---- a label

// Whether it is the same label.
fn same_label(a: Option<u32>, b: Option<u32>) -> bool
    ensures { result ≡ same_label a b }
{
    match (a, b) {
        (None, None) => true,
        (Some(a), Some(b)) => a == b,
        (None, Some(_)) | (Some(_), None) => false,
    }
}

// A term is kept where its label is passed.
fn keep_passed(
    alloc: Global,
    label: Option<u32>,
    entry: &Kept<'_>,
    names: &mut Registers<'_>,
    to: &mut Vec<MonStmt>,
) -> Result<(), AllocError>
    ensures code { OnOk result (plain_stmts to.new.items ≡ before (plain_stmts to.old.items) (passed_by names.old label (plain_kept entry.now))) }
    ensures names { OnOk result (names.new ≡ names_behind_passed label (plain_kept entry.now) names.old) }
{
    if same_label(entry.label, label) {
        keep_term(alloc, entry, names, to)
    } else {
        Ok(())
    }
}

/// The code at a passage of a label, by the number of its name; none is the beginning of the call. Each term of the label is evaluated and
/// kept, with further registers.
pub fn snapshot(
    alloc: Global,
    label: Option<u32>,
    kept: &[Kept<'_>],
    names: &mut Registers<'_>,
    to: &mut Vec<MonStmt>,
) -> Result<(), AllocError>
    ensures code { OnOk result (plain_stmts to.new.items ≡ before (plain_stmts to.old.items) (snapshot_by names.old label (plain_plan kept.now))) }
    ensures names { OnOk result (names.new ≡ names_behind_snapshot label (plain_plan kept.now) names.old) }
{
    'terms: for entry in kept {
        keep_passed(alloc, label, entry, names, to)?;
    }
    Ok(())
}
