//! Sides of relations: numbers and pointers.

ghost use Rattle.std.specs.Prelude.{◌≡◌, [], IfOk, OnOk};
ghost use Rattle.c_syntax.specs.Logic.{plain_term};
ghost use Rattle.mon_syntax.specs.Trees.{plain_expr, plain_stmts};
ghost use Rattle.annot_simulation.specs.Code.{again, is_null_term, is_pointer_term, related_code, relation_code, stmts_of, sure_code};
ghost use Rattle.annot_simulation.specs.Pointers.{sure_pointer};
ghost use Rattle.annot_pieces.specs.Plain.{code_of, ended, pointer_of, side_of};

use crate::compare::addresses_code;
use crate::join::related;
use crate::piece::Code;
use crate::pointer::{PointerCode, null_code};
use crate::value::{type_of_width, wider};
use crate::width::{type_of, width_of};
use c_effects::copy::copy_of;
use c_effects::operator::constant;
use c_syntax::logic::{Term, TermKind};
use c_syntax::{CType, Relation};
use mon_syntax::{MonExpr, MonStmt, MonType, Registers};
use std::alloc::{AllocError, Global};

/// The code of a side.
#[derive(Drop)]
pub enum Side {
    Number(Code),
    Pointer(PointerCode),
}

/// Whether a term is a pointer, or an array, which is one to its first element.
#[tactic(auto, using(crate::proofs::Arms::is_pointer_is))]
pub fn is_pointer_term(t: &Term) -> bool
    ensures { result ≡ is_pointer_term (plain_term t.now) }
{
    matches!(&t.ctype, Some(CType::Ptr(_) | CType::Array(..)))
}

/// Whether a side is known to be null: `\null`, or 0 beside a pointer.
pub fn is_null_term(t: &Term) -> bool
    ensures { result ≡ is_null_term (plain_term t.now) }
{
    match &*t.kind {
        TermKind::Null | TermKind::Number(_) => true,
        TermKind::Letter(_) | TermKind::Variable(_) | TermKind::Unary(_, _) => false,
        TermKind::Binary(_, _, _) | TermKind::Cast(_, _) | TermKind::Choice(_, _, _) => false,
        TermKind::Deref(_) | TermKind::Member(_, _) | TermKind::Address(_) => false,
        TermKind::Moved(_, _, _, _) | TermKind::Difference(_, _, _) => false,
        TermKind::Told(_, _) | TermKind::Named(_) | TermKind::At(_, _) => false,
    }
}

// A value that is known.
fn again_number(alloc: Global, value: &MonExpr) -> Result<Code, AllocError>
    ensures { IfOk result (λ c. code_of c [] ≡ sure_code (plain_expr value.now) []) }
{
    let value = copy_of(alloc, value)?;
    Ok(Code {
        stmts: Vec::new(alloc),
        flag: None,
        value,
    })
}

// A pointer that is known.
fn again_pointer(alloc: Global, base: &MonExpr, offset: &MonExpr) -> Result<PointerCode, AllocError>
    ensures { IfOk result (λ c. pointer_of c [] ≡ sure_pointer (plain_expr base.now) (plain_expr offset.now) []) }
{
    let base = copy_of(alloc, base)?;
    let offset = copy_of(alloc, offset)?;
    Ok(PointerCode {
        stmts: Vec::new(alloc),
        flag: None,
        base,
        offset,
    })
}

// A side that was computed already.
fn again(alloc: Global, x: &Side) -> Result<Side, AllocError>
    ensures { IfOk result (λ s. side_of s [] ≡ again (side_of x.now []) []) }
{
    match x {
        Side::Number(c) => {
            let c = again_number(alloc, &c.value)?;
            Ok(Side::Number(c))
        }
        Side::Pointer(c) => {
            let c = again_pointer(alloc, &c.base, &c.offset)?;
            Ok(Side::Pointer(c))
        }
    }
}

// The statements of a side.
fn stmts_of(x: Side) -> Vec<MonStmt>
    ensures { plain_stmts result.items ≡ stmts_of (side_of x []) }
{
    match x {
        Side::Number(c) => c.stmts,
        Side::Pointer(c) => c.stmts,
    }
}

/// After the last relation of a chain.
pub fn ended(alloc: Global, x: Side) -> Result<Code, AllocError>
    ensures { IfOk result (λ c. code_of c [] ≡ ended (side_of x [])) }
{
    let value = constant(alloc, MonType::I32, 1)?;
    Ok(Code {
        stmts: stmts_of(x),
        flag: None,
        value,
    })
}

/// A relation of two numbers.
pub fn relation_code(
    alloc: Global,
    relation: Relation,
    t: &Term,
    u: &Term,
    x: Code,
    y: Code,
) -> Result<Code, AllocError>
    ensures { IfOk result (λ c. code_of c [] ≡ relation_code relation (plain_term t.now) (plain_term u.now) (code_of x []) (code_of y [])) }
{
    let working = type_of_width(wider(width_of(t), width_of(u)));
    related(alloc, relation, working, (type_of(t), type_of(u)), x, y)
}

/// A relation of two sides, of which the second one's registers are the last ones.
pub fn related_code(
    alloc: Global,
    relation: Relation,
    terms: (&Term, &Term),
    x: Side,
    y: Side,
    names: &mut Registers<'_>,
) -> Result<Code, AllocError>
    ensures code { IfOk result (λ c. code_of c names.new.table.kinds
        ≡ related_code relation (plain_term terms.entry.0.now) (plain_term terms.entry.1.now) (side_of x []) (side_of y names.old.table.kinds)) }
    ensures bound { OnOk result (names.new.table.bound ≡ names.old.table.bound) }
    ensures program { OnOk result (names.new.program ≡ names.old.program) }
{
    let (t, u) = terms;
    let nulls = (is_null_term(t), is_null_term(u));
    match (x, y) {
        (Side::Number(x), Side::Number(y)) => relation_code(alloc, relation, t, u, x, y),
        (Side::Number(x), Side::Pointer(y)) => {
            let x = null_code(alloc, x)?;
            addresses_code(alloc, relation, nulls, x, y, names)
        }
        (Side::Pointer(x), Side::Number(y)) => {
            let y = null_code(alloc, y)?;
            addresses_code(alloc, relation, nulls, x, y, names)
        }
        (Side::Pointer(x), Side::Pointer(y)) => {
            addresses_code(alloc, relation, nulls, x, y, names)
        }
    }
}

/// The same, and the second side again, for the next relation.
pub fn related_again(
    alloc: Global,
    relation: Relation,
    terms: (&Term, &Term),
    x: Side,
    y: Side,
    names: &mut Registers<'_>,
) -> Result<(Code, Side), AllocError>
    ensures code { IfOk result (λ c. code_of c.0 names.new.table.kinds
        ≡ related_code relation (plain_term terms.entry.0.now) (plain_term terms.entry.1.now) (side_of x []) (side_of y names.old.table.kinds)) }
    ensures again { IfOk result (λ c. side_of c.1 [] ≡ again (side_of y []) []) }
    ensures bound { OnOk result (names.new.table.bound ≡ names.old.table.bound) }
    ensures program { OnOk result (names.new.program ≡ names.old.program) }
{
    let next = again(alloc, &y)?;
    let first = related_code(alloc, relation, terms, x, y, names)?;
    Ok((first, next))
}
