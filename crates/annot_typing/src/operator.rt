//! Operators of one operand and of two (ACSL 2.2), as unbounded integers and pointers have them.

ghost use Rattle.c_syntax.specs.declared.expression.UnOp.TheVariants as unary;
ghost use Rattle.c_model.specs.PredicateTyping.{binary_on, on_integer, on_integers, unary_on};
ghost use Rattle.c_scopes.specs.Answers.{Answers};
ghost use Rattle.c_scopes.specs.Sights.{plain_sight};
ghost use Rattle.annot_typing.specs.Sorts.{plain_sorted};

use crate::demand::{as_integer, as_predicate, as_value};
use crate::places::{address, deref};
use crate::pointer::{difference, sum};
use crate::sorted::{Sorted, integer, predicate};
use c_scopes::fault::TypeFault;
use c_scopes::sight::Sight;
use c_syntax::logic::{PredKind, TermKind};
use c_syntax::{BinOp, Place, UnOp};
use std::alloc::Global;

/// An operator on one integer.
fn on_integer(alloc: Global, place: Place, op: UnOp, a: Sorted) -> Result<Sorted, TypeFault>
    ensures { Answers plain_sorted (on_integer place op (plain_sorted a)) result }
{
    let a = as_integer(place, a)?;
    integer(alloc, place, TermKind::Unary(op, a))
}

fn negation(alloc: Global, place: Place, a: Sorted) -> Result<Sorted, TypeFault>
    ensures { Answers plain_sorted (unary_on place unary.Not (plain_sorted a)) result }
{
    let a = as_value(a)?;
    let a = as_predicate(alloc, place, a)?;
    predicate(alloc, place, PredKind::Not(a))
}

/// Prefix operators. `&` alone takes a place as it is.
pub fn unary_on(alloc: Global, place: Place, op: UnOp, a: Sorted) -> Result<Sorted, TypeFault>
    ensures { Answers plain_sorted (unary_on place op (plain_sorted a)) result }
{
    match op {
        UnOp::Plus | UnOp::Minus | UnOp::Flip => {
            let a = as_value(a)?;
            on_integer(alloc, place, op, a)
        }
        UnOp::Not => negation(alloc, place, a),
        UnOp::Deref => {
            let a = as_value(a)?;
            deref(alloc, place, a)
        }
        UnOp::Address => address(alloc, place, a),
    }
}

/// An operator on two integers.
fn on_integers(
    alloc: Global,
    place: Place,
    op: BinOp,
    a: Sorted,
    b: Sorted,
) -> Result<Sorted, TypeFault>
    ensures { Answers plain_sorted (on_integers place op (plain_sorted a) (plain_sorted b)) result }
{
    let a = as_integer(place, a)?;
    let b = as_integer(place, b)?;
    integer(alloc, place, TermKind::Binary(op, a, b))
}

/// Operators between two values.
pub fn binary_on(
    alloc: Global,
    sight: &Sight,
    place: Place,
    op: BinOp,
    a: Sorted,
    b: Sorted,
) -> Result<Sorted, TypeFault>
    ensures { Answers plain_sorted (binary_on (plain_sight sight.now) place op (plain_sorted a) (plain_sorted b)) result }
{
    match op {
        BinOp::Add => sum(alloc, sight, place, a, b),
        BinOp::Sub => difference(alloc, sight, place, a, b),
        _ => on_integers(alloc, place, op, a, b),
    }
}
