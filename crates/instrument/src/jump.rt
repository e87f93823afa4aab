//! Jumps (C99 6.8.6): the blocks of the variables that are left die before them.

ghost use Rattle.std.specs.Prelude.{◌≡◌, ◌+◌, ◌++◌, IfOk, OnOk, length, option_map, reverse};
ghost use Rattle.c_syntax.specs.Expressions.{plain_expr};
ghost use Rattle.c_simulation.specs.Labels.{end_label, next_label};
ghost use Rattle.mon_syntax.specs.Trees.{Goto, plain_expr as plain_monitored, plain_stmts};
ghost use Rattle.track_scopes.specs.Blocks.{deaths};
ghost use Rattle.c_effects.specs.Letters.{Any, ValueHasLetters};
ghost use Rattle.c_effects.specs.Expressions.{before, one, set};
ghost use Rattle.c_effects.specs.Effects.{any_temporaries};
ghost use Rattle.c_effects.specs.Full.{takes};
ghost use Rattle.c_effects.specs.Named.{unit_of, with_registers};
ghost use Rattle.c_evaluation.specs.Evaluated.{prepare_by, result_by};
ghost use Rattle.instrument.specs.Options.{plain_spot, plan_in, returned_by};
ghost use Rattle.instrument.specs.Translation.{all_live, given_register, returned_temporaries, way_out};

use crate::block::leave;
use crate::name::{end_label, leave_label, next_label};
use crate::spot::Spot;
use c_effects::conversion::value_type;
use c_effects::operator::register;
use c_effects::part::then;
use c_evaluation::evaluation::value;
use c_syntax::Expr;
use mon_syntax::{MonExpr, MonStmt, MonStmtKind, Registers};
use std::alloc::{AllocError, Global};

/// `break`: the blocks of the variables that are left die before it.
#[tactic(auto, using(c_effects::proofs::Sequences::before_assoc))]
pub fn break_out(alloc: Global, spot: &Spot<'_>, to: &mut Vec<MonStmt>) -> Result<(), AllocError>
    ensures { OnOk result (plain_stmts to.new.items ≡ before (plain_stmts to.old.items)
        (before (deaths (reverse spot.now.inside.now)) (one (Goto (end_label spot.now.levels))))) }
{
    let label = end_label(alloc, spot.levels)?;
    leave(alloc, spot.inside, to)?;
    then(alloc, to, MonStmtKind::Goto(label))
}

// The deaths of the blocks of these, and then of those.
#[tactic(auto, using(c_effects::proofs::Sequences::before_assoc, crate::proofs::DeclarationCode::deaths_behind))]
fn leave_both(
    alloc: Global,
    first: &[u32],
    second: &[u32],
    to: &mut Vec<MonStmt>,
) -> Result<(), AllocError>
    ensures { OnOk result (plain_stmts to.new.items ≡ before (plain_stmts to.old.items) (deaths (reverse first.now ++ reverse second.now))) }
{
    leave(alloc, first, to)?;
    leave(alloc, second, to)
}

/// `continue`: those born in the body of the loop die before it.
#[tactic(auto, using(c_effects::proofs::Sequences::before_assoc))]
pub fn go_on(alloc: Global, spot: &Spot<'_>, to: &mut Vec<MonStmt>) -> Result<(), AllocError>
    ensures { OnOk result (plain_stmts to.new.items ≡ before (plain_stmts to.old.items)
        (before (deaths (reverse spot.now.inside.now ++ reverse spot.now.between.now)) (one (Goto (next_label spot.now.innermost))))) }
{
    let label = next_label(alloc, spot.innermost)?;
    leave_both(alloc, spot.inside, spot.between, to)?;
    then(alloc, to, MonStmtKind::Goto(label))
}

// The deaths of all blocks of a function.
#[tactic(auto, using(c_effects::proofs::Sequences::before_assoc, crate::proofs::DeclarationCode::deaths_behind))]
fn leave_all(alloc: Global, spot: &Spot<'_>, to: &mut Vec<MonStmt>) -> Result<(), AllocError>
    ensures { OnOk result (plain_stmts to.new.items ≡ before (plain_stmts to.old.items) (deaths (all_live (plain_spot spot.now)))) }
{
    leave(alloc, spot.inside, to)?;
    leave_both(alloc, spot.between, spot.outside, to)
}

// The register in which a value stands that is returned: one of its own, or that of the result.
fn given_register(given: Option<u32>, own: u32) -> u32
    ensures { result ≡ given_register given own }
{
    match given {
        None => own,
        Some(number) => number,
    }
}

/// A value in a further register, since it may be read from blocks that die before it is used, or in the register of the result,
/// where there is one. It gives the register.
#[tactic(auto, using(c_effects::proofs::Sequences::before_assoc))]
pub fn set_aside(
    alloc: Global,
    e: &Expr,
    given: Option<u32>,
    names: &mut Registers<'_>,
    to: &mut Vec<MonStmt>,
) -> Result<u32, AllocError>
    ensures number { IfOk result (λ r. r ≡ given_register given (length (names.old.table.kinds ++ takes (unit_of names.old) (plain_expr e.now)))) }
    ensures code { OnOk result (plain_stmts to.new.items ≡ before (plain_stmts to.old.items) (before (prepare_by names.old (plain_expr e.now))
        (set (given_register given (length (names.old.table.kinds ++ takes (unit_of names.old) (plain_expr e.now))))
        (result_by names.old (plain_expr e.now))))) }
    ensures names { OnOk result (names.new ≡ with_registers (returned_temporaries (unit_of names.old) (plain_expr e.now)) names.old) }
    ensures letters { OnOk result (ValueHasLetters (plain_expr e.now)) }
{
    let found = value(alloc, e, names, to)?;
    let number = given_register(given, names.fresh(value_type(&e.ctype))?);
    then(alloc, to, MonStmtKind::Set(number, found))?;
    Ok(number)
}

// The way out of a body: a `return`, or its end, where a contract is checked behind it.
fn way_out(
    alloc: Global,
    given: Option<u32>,
    value: Option<MonExpr>,
    to: &mut Vec<MonStmt>,
) -> Result<(), AllocError>
    ensures { OnOk result (plain_stmts to.new.items ≡ before (plain_stmts to.old.items) (one (way_out given (option_map plain_monitored value)))) }
{
    match given {
        None => then(alloc, to, MonStmtKind::Return(value)),
        Some(_) => {
            let label = leave_label(alloc)?;
            then(alloc, to, MonStmtKind::Goto(label))
        }
    }
}

/// `return`: all blocks die that live, and the value is in a register.
#[tactic(auto, using(c_effects::proofs::Sequences::before_assoc))]
pub fn give_back(
    alloc: Global,
    spot: &Spot<'_>,
    e: &Option<Expr>,
    names: &mut Registers<'_>,
    to: &mut Vec<MonStmt>,
) -> Result<(), AllocError>
    ensures code { OnOk result (plain_stmts to.new.items ≡ before (plain_stmts to.old.items)
        (returned_by (plan_in spot.now) names.old (plain_spot spot.now) (option_map plain_expr e.now))) }
    ensures names { OnOk result (names.new ≡ with_registers
        (any_temporaries (returned_temporaries (unit_of names.old)) (option_map plain_expr e.now)) names.old) }
    ensures letters { OnOk result (Any ValueHasLetters (option_map plain_expr e.now)) }
{
    match e {
        Some(e) => {
            let number = set_aside(alloc, e, spot.result, names, to)?;
            leave_all(alloc, spot, to)?;
            let value = register(alloc, number)?;
            way_out(alloc, spot.result, Some(value), to)
        }
        None => {
            leave_all(alloc, spot, to)?;
            way_out(alloc, spot.result, None, to)
        }
    }
}
