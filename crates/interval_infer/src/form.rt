//! The range of each form of terms, from those of its parts.

ghost use Rattle.std.specs.Prelude.{◌≡◌, IfErr, if◌then◌else◌};
ghost use Rattle.c_syntax.specs.Ctypes.{plain_type};
ghost use Rattle.c_syntax.specs.Formulas.{OfC, plain_cast_type};
ghost use Rattle.c_model.specs.Ranges.{IsRange};
ghost use Rattle.c_model.specs.TermRanges.{binary_range, cast_range, hull, is_inside, unary_range};
ghost use Rattle.c_scopes.specs.Answers.{IsRefusal};
ghost use Rattle.interval_infer.specs.Answers.{no_range, or_no_range};

use c_scopes::fault::{Fault, TypeFault};
use c_syntax::logic::LogicType;
use c_syntax::{BinOp, CType, Place, Range, UnOp, code};
use ea_num::{
    add, bit_and, bit_or, bit_xor, div, flip, is_inside, mul, neg, rem, shl, shr, sub, type_range,
};

/// The range, or the refusal of the term at a place that has none.
pub fn or_no_range(range: Option<Range>, at: Place) -> Result<Range, TypeFault>
    ensures is { result ≡ or_no_range range at }
    ensures sure { IfErr result IsRefusal }
{
    match range {
        Some(range) => Ok(range),
        None => Err(no_range(at)),
    }
}

/// The refusal of a term or a zone, at its place.
pub fn no_range(at: Place) -> TypeFault
    ensures is { result ≡ no_range at }
    ensures sure { IsRefusal result }
{
    TypeFault::Refused(Fault {
        code: code::RANGE,
        place: at,
    })
}

/// The range of `+`, `-` or `~` of a term.
pub fn unary_range(op: UnOp, a: Range) -> Option<Range>
    requires operand { IsRange a }
    ensures { result ≡ unary_range op a }
{
    match op {
        UnOp::Plus => Some(a),
        UnOp::Minus => neg(a),
        UnOp::Flip => flip(a),
        UnOp::Not | UnOp::Deref | UnOp::Address => None,
    }
}

/// The range of an operator on two terms.
pub fn binary_range(op: BinOp, a: Range, b: Range) -> Option<Range>
    requires left { IsRange a }
    requires right { IsRange b }
    ensures { result ≡ binary_range op a b }
{
    match op {
        BinOp::Add => add(a, b),
        BinOp::Sub => sub(a, b),
        BinOp::Mul => mul(a, b),
        BinOp::Div => div(a, b),
        BinOp::Rem => rem(a, b),
        BinOp::Shl => shl(a, b),
        BinOp::Shr => shr(a, b),
        BinOp::BitAnd => bit_and(a, b),
        BinOp::BitOr => bit_or(a, b),
        BinOp::BitXor => bit_xor(a, b),
        BinOp::Eq | BinOp::Ne | BinOp::Lt | BinOp::Le | BinOp::Gt | BinOp::Ge => None,
    }
}

/// A range that a type has is left as it is by a cast to the type.
fn converted(a: Range, to: Range) -> Range
    ensures { result ≡ if is_inside a to then a else to }
{
    if is_inside(a, to) { a } else { to }
}

/// The range of a cast.
pub fn cast_range(to: &LogicType, a: Range) -> Option<Range>
    ensures { result ≡ cast_range (plain_cast_type to.now) a }
{
    match to {
        LogicType::Integer => Some(a),
        LogicType::Of(ctype) => cast_to(ctype, a),
    }
}

// A pointer's offset stays as it is.
fn cast_to(ctype: &CType, a: Range) -> Option<Range>
    ensures { result ≡ cast_range (OfC (plain_type ctype.now)) a }
{
    match ctype {
        CType::Int(k) => Some(converted(a, type_range(*k))),
        CType::Ptr(_) => Some(a),
        _ => None,
    }
}

/// From the least to the greatest number of two ranges.
pub fn hull(a: Range, b: Range) -> Range
    ensures { result ≡ hull a b }
{
    Range {
        lo: a.lo.min(b.lo),
        hi: a.hi.max(b.hi),
    }
}
