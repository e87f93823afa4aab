//! Pieces of code: statements, a flag and a value.

ghost use Rattle.std.specs.Prelude.{◌≡◌, ◌≤◌, ◌<◌, ◌+◌, ◌++◌, ◌∷◌, [], IfOk, OnOk, length, option_map};
ghost use Rattle.mon_syntax.specs.declared.tree.MonType.TheVariants.{I32};
ghost use Rattle.mon_syntax.specs.Registers.{next_register};
ghost use Rattle.mon_syntax.specs.Trees.{plain_expr, plain_stmt, plain_stmts};
ghost use Rattle.c_effects.specs.Expressions.{before, one};
ghost use Rattle.annot_simulation.specs.Code.{branch, conjunction, take, take_none, taken, two_code};
ghost use Rattle.annot_pieces.specs.Plain.{code_of};

use crate::value::conjunction;
use c_effects::operator::{constant, register};
use c_effects::part::{alone, then, then_all};
use mon_syntax::{MonExpr, MonStmt, MonStmtKind, MonType, Registers};
pub use quantifier_loops::tries::guarded;
use std::alloc::{AllocError, Global};

/// The code of a term or of a predicate.
#[derive(Drop)]
pub struct Code {
    /// The statements that run first.
    pub stmts: Vec<MonStmt>,
    /// 1 where the value exists and else 0; none where it always exists.
    pub flag: Option<MonExpr>,
    /// The value, which may be asked for only where it exists.
    pub value: MonExpr,
}

/// The one statement alone.
#[tactic(auto, using(c_effects::proofs::Sequences::stmts_push))]
pub fn only(alloc: Global, s: MonStmt) -> Result<Vec<MonStmt>, AllocError>
    ensures { IfOk result (λ v. plain_stmts v.items ≡ one (plain_stmt s)) }
{
    let mut only = Vec::new(alloc);
    only.push(s)?;
    Ok(only)
}

/// Puts a statement after the others.
pub fn then_one(alloc: Global, to: &mut Vec<MonStmt>, s: MonStmt) -> Result<(), AllocError>
    ensures { OnOk result (plain_stmts to.new.items ≡ before (plain_stmts to.old.items) (one (plain_stmt s))) }
{
    let next = only(alloc, s)?;
    then_all(to, next)
}

/// The statements of two parts, one after the other, and both flags.
pub fn in_sequence(
    alloc: Global,
    a: (Vec<MonStmt>, Option<MonExpr>),
    b: (Vec<MonStmt>, Option<MonExpr>),
) -> Result<(Vec<MonStmt>, Option<MonExpr>), AllocError>
    ensures stmts { IfOk result (λ r. plain_stmts r.0.items ≡ before (plain_stmts a.0.items) (plain_stmts b.0.items)) }
    ensures flag { IfOk result (λ r. option_map plain_expr r.1 ≡ conjunction (option_map plain_expr a.1) (option_map plain_expr b.1)) }
{
    let (mut stmts, first) = a;
    let (more, second) = b;
    then_all(&mut stmts, more)?;
    let flag = conjunction(alloc, first, second)?;
    Ok((stmts, flag))
}

// Two statements, of which the second runs where the flag in the first one's register is 1.
#[tactic(auto, using(mon_syntax::proofs::Rows::if_is, crate::proofs::Rust::take_some))]
fn take_some(
    alloc: Global,
    flag: MonExpr,
    value: MonExpr,
    number: u32,
    to: &mut Vec<MonStmt>,
) -> Result<(), AllocError>
    requires { number < 4294967295 }
    ensures { OnOk result (plain_stmts to.new.items ≡ before (plain_stmts to.old.items) (take (Some (plain_expr flag)) (plain_expr value) number)) }
{
    then(alloc, to, MonStmtKind::Set(number, flag))?;
    let on = alone(alloc, MonStmtKind::Set(number + 1, value))?;
    let test = register(alloc, number)?;
    then(alloc, to, MonStmtKind::If(test, on, Vec::new(alloc)))
}

/// Puts a flag into a register, and the value into the next one where it exists.
#[tactic(auto, using(crate::proofs::Rust::take_none))]
pub fn take(
    alloc: Global,
    flag: Option<MonExpr>,
    value: MonExpr,
    number: u32,
    to: &mut Vec<MonStmt>,
) -> Result<(), AllocError>
    requires { number < 4294967295 }
    ensures { OnOk result (plain_stmts to.new.items ≡ before (plain_stmts to.old.items)
        (take (option_map plain_expr flag) (plain_expr value) number)) }
{
    match flag {
        None => {
            let one = constant(alloc, MonType::I32, 1)?;
            then(alloc, to, MonStmtKind::Set(number, one))?;
            then(alloc, to, MonStmtKind::Set(number + 1, value))
        }
        Some(flag) => take_some(alloc, flag, value, number, to),
    }
}

/// No value, in a flag's register.
pub fn take_none(alloc: Global, number: u32) -> Result<Vec<MonStmt>, AllocError>
    ensures { IfOk result (λ v. plain_stmts v.items ≡ take_none number) }
{
    let nothing = constant(alloc, MonType::I32, 0)?;
    alone(alloc, MonStmtKind::Set(number, nothing))
}

/// Two further registers, for a flag and for a value of the type: the first one's number.
pub fn two_fresh(t: MonType, names: &mut Registers<'_>) -> Result<u32, AllocError>
    ensures number { IfOk result (λ r. r ≡ next_register names.old.table) }
    ensures few { IfOk result (λ r. r < 4294967295) }
    ensures kinds { OnOk result (names.new.table.kinds ≡ names.old.table.kinds ++ I32 ∷ t ∷ []) }
    ensures bound { OnOk result (names.new.table.bound ≡ names.old.table.bound) }
    ensures program { OnOk result (names.new.program ≡ names.old.program) }
{
    let flag = names.fresh(MonType::I32)?;
    let _ = names.fresh(t)?;
    Ok(flag)
}

/// The register behind another. No memory holds more registers than 32 bits count.
pub fn next(register: u32) -> Result<u32, AllocError>
    ensures { IfOk result (λ r. r ≡ register + 1) }
{
    register.checked_add(1).ok_or(AllocError)
}
