//! Operators over registers (C99 6.5).

ghost use Rattle.std.specs.Prelude.{◌≡◌, IfOk, map, pos};
ghost use Rattle.c_syntax.specs.Ctypes.{plain_type};
ghost use Rattle.c_syntax.specs.Programs.{plain_layout};
ghost use Rattle.c_model.specs.Conversions.{operation_type};
ghost use Rattle.mon_syntax.specs.declared.tree.MonOp.TheVariants.{Div, Sub};
ghost use Rattle.mon_syntax.specs.declared.tree.MonType.TheVariants.{I64, Ptr};
ghost use Rattle.mon_syntax.specs.Trees.{Binary, Constant, Register, plain_expr};
ghost use Rattle.c_effects.specs.Expressions.{binary, compared, compound, compound_in, condition, converted, element, element_back, farther};
ghost use Rattle.c_effects.specs.Expressions.{in_type, indexed, loaded, operated, operator_of, pointer_and_integer, register_type, scaled};
ghost use Rattle.c_effects.specs.Expressions.{truth, two_pointers, unary};
ghost use Rattle.c_effects.specs.Parts.{pointers_operated};

use crate::conversion::{operand_type, operation_type, register_type, value_type};
use crate::layout::unit_of;
use c_syntax::{BinOp, CInt, CType, Layout, UnOp};
use mon_syntax::{MonExpr, MonExprKind, MonOp, MonType, is_pointer, result_type, same_type};
use std::alloc::{AllocError, Global};
use track_scopes::size::size_of;

/// The operator of registers that does what the operator does.
pub fn operator_of(op: BinOp) -> MonOp
    ensures { result ≡ operator_of op }
{
    match op {
        BinOp::Add => MonOp::Add,
        BinOp::Sub => MonOp::Sub,
        BinOp::Mul => MonOp::Mul,
        BinOp::Div => MonOp::Div,
        BinOp::Rem => MonOp::Rem,
        BinOp::Shl => MonOp::Shl,
        BinOp::Shr => MonOp::Shr,
        BinOp::BitAnd => MonOp::And,
        BinOp::BitOr => MonOp::Or,
        BinOp::BitXor => MonOp::Xor,
        BinOp::Eq => MonOp::Eq,
        BinOp::Ne => MonOp::Ne,
        BinOp::Lt => MonOp::Lt,
        BinOp::Le => MonOp::Le,
        BinOp::Gt => MonOp::Gt,
        BinOp::Ge => MonOp::Ge,
    }
}

/// A value of a type.
pub fn constant(alloc: Global, t: MonType, n: i128) -> Result<MonExpr, AllocError>
    ensures { IfOk result (λ m. plain_expr m ≡ Constant t n) }
{
    MonExpr::new(alloc, MonExprKind::Constant(t, n))
}

/// The value of a register.
pub fn register(alloc: Global, number: u32) -> Result<MonExpr, AllocError>
    ensures { IfOk result (λ m. plain_expr m ≡ Register number) }
{
    MonExpr::new(alloc, MonExprKind::Register(number))
}

/// A value of the first type in the second.
pub fn in_type(alloc: Global, from: MonType, to: MonType, e: MonExpr) -> Result<MonExpr, AllocError>
    ensures { IfOk result (λ m. plain_expr m ≡ in_type from to (plain_expr e)) }
{
    if same_type(from, to) {
        Ok(e)
    } else {
        MonExpr::new(alloc, MonExprKind::Cast(to, e))
    }
}

/// An operator on two operands of a type.
pub fn operation(
    alloc: Global,
    op: MonOp,
    t: MonType,
    left: MonExpr,
    right: MonExpr,
) -> Result<MonExpr, AllocError>
    ensures { IfOk result (λ m. plain_expr m ≡ Binary op t (plain_expr left) (plain_expr right)) }
{
    MonExpr::new(alloc, MonExprKind::Binary(op, t, left, right))
}

// A value of the type compared with 0.
fn compared(alloc: Global, op: MonOp, t: MonType, e: MonExpr) -> Result<MonExpr, AllocError>
    ensures { IfOk result (λ m. plain_expr m ≡ compared op t (plain_expr e)) }
{
    let operand = operand_type(t);
    let value = in_type(alloc, t, operand, e)?;
    let nothing = constant(alloc, operand, 0)?;
    operation(alloc, op, operand, value, nothing)
}

/// 1 where a value of the type isn't 0, else 0.
pub fn truth(alloc: Global, t: MonType, e: MonExpr) -> Result<MonExpr, AllocError>
    ensures { IfOk result (λ m. plain_expr m ≡ truth t (plain_expr e)) }
{
    compared(alloc, MonOp::Ne, t, e)
}

/// The same as a condition, for which any number but 0 will do.
pub fn condition(alloc: Global, t: MonType, e: MonExpr) -> Result<MonExpr, AllocError>
    ensures { IfOk result (λ m. plain_expr m ≡ condition t (plain_expr e)) }
{
    if same_type(t, MonType::I32) {
        Ok(e)
    } else {
        truth(alloc, t, e)
    }
}

/// A prefix operator on a value of the type.
pub fn unary(alloc: Global, op: UnOp, t: MonType, e: MonExpr) -> Result<MonExpr, AllocError>
    ensures { IfOk result (λ m. plain_expr m ≡ unary op t (plain_expr e)) }
{
    match op {
        UnOp::Plus | UnOp::Deref | UnOp::Address => Ok(e),
        UnOp::Minus => MonExpr::new(alloc, MonExprKind::Minus(t, e)),
        UnOp::Not => compared(alloc, MonOp::Eq, t, e),
        UnOp::Flip => MonExpr::new(alloc, MonExprKind::Flip(t, e)),
    }
}

/// An operator on values of two types, which differ in shifts alone: there the count takes the type of the left side.
pub fn binary(
    alloc: Global,
    op: BinOp,
    t: MonType,
    u: MonType,
    left: MonExpr,
    right: MonExpr,
) -> Result<MonExpr, AllocError>
    ensures { IfOk result (λ m. plain_expr m ≡ binary op t u (plain_expr left) (plain_expr right)) }
{
    let right = in_type(alloc, u, t, right)?;
    operation(alloc, operator_of(op), t, left, right)
}

// `left op right` computed in the type m, in the type of the left side.
fn compound_in(
    alloc: Global,
    op: BinOp,
    m: MonType,
    t: MonType,
    u: MonType,
    left: MonExpr,
    right: MonExpr,
) -> Result<MonExpr, AllocError>
    ensures { IfOk result (λ e. plain_expr e ≡ compound_in op m t u (plain_expr left) (plain_expr right)) }
{
    let left = in_type(alloc, t, m, left)?;
    let right = in_type(alloc, u, m, right)?;
    let value = operation(alloc, operator_of(op), m, left, right)?;
    in_type(alloc, result_type(operator_of(op), m), t, value)
}

// A number of elements of so many bytes, in bytes.
fn scaled(alloc: Global, unit: u64, t: MonType, i: MonExpr) -> Result<MonExpr, AllocError>
    ensures { IfOk result (λ e. plain_expr e ≡ scaled unit t (plain_expr i)) }
{
    let count = in_type(alloc, t, MonType::I64, i)?;
    let size = constant(alloc, MonType::I64, i128::from(unit))?;
    operation(alloc, MonOp::Mul, MonType::I64, count, size)
}

/// A pointer so many bytes farther.
pub fn farther(alloc: Global, p: MonExpr, d: u64) -> Result<MonExpr, AllocError>
    ensures { IfOk result (λ e. plain_expr e ≡ farther (plain_expr p) d) }
{
    let distance = constant(alloc, MonType::I64, i128::from(d))?;
    operation(alloc, MonOp::Add, MonType::Ptr, p, distance)
}

/// A pointer so many elements farther (C99 6.5.6 p8).
pub fn element(
    alloc: Global,
    unit: u64,
    p: MonExpr,
    t: MonType,
    i: MonExpr,
) -> Result<MonExpr, AllocError>
    ensures { IfOk result (λ e. plain_expr e ≡ element unit (plain_expr p) t (plain_expr i)) }
{
    let distance = scaled(alloc, unit, t, i)?;
    operation(alloc, MonOp::Add, MonType::Ptr, p, distance)
}

// The same back.
fn element_back(
    alloc: Global,
    unit: u64,
    p: MonExpr,
    t: MonType,
    i: MonExpr,
) -> Result<MonExpr, AllocError>
    ensures { IfOk result (λ e. plain_expr e ≡ element_back unit (plain_expr p) t (plain_expr i)) }
{
    let distance = scaled(alloc, unit, t, i)?;
    let back = MonExpr::new(alloc, MonExprKind::Minus(MonType::I64, distance))?;
    operation(alloc, MonOp::Add, MonType::Ptr, p, back)
}

// An operator on a pointer and an integer.
fn pointer_and_integer(
    alloc: Global,
    op: BinOp,
    unit: u64,
    p: MonExpr,
    t: MonType,
    i: MonExpr,
) -> Result<MonExpr, AllocError>
    ensures { IfOk result (λ e. plain_expr e ≡ pointer_and_integer op unit (plain_expr p) t (plain_expr i)) }
{
    match op {
        BinOp::Sub => element_back(alloc, unit, p, t, i),
        _ => element(alloc, unit, p, t, i),
    }
}

// The difference of two pointers in elements (C99 6.5.6 p9).
fn difference(alloc: Global, unit: u64, a: MonExpr, b: MonExpr) -> Result<MonExpr, AllocError>
    ensures { IfOk result (λ e. plain_expr e ≡ Binary Div I64 (Binary Sub Ptr (plain_expr a) (plain_expr b)) (Constant I64 (pos unit))) }
{
    let bytes = operation(alloc, MonOp::Sub, MonType::Ptr, a, b)?;
    let size = constant(alloc, MonType::I64, i128::from(unit))?;
    operation(alloc, MonOp::Div, MonType::I64, bytes, size)
}

// An operator on two pointers.
fn two_pointers(
    alloc: Global,
    op: BinOp,
    unit: u64,
    a: MonExpr,
    b: MonExpr,
) -> Result<MonExpr, AllocError>
    ensures { IfOk result (λ e. plain_expr e ≡ two_pointers op unit (plain_expr a) (plain_expr b)) }
{
    match op {
        BinOp::Sub => difference(alloc, unit, a, b),
        _ => operation(alloc, operator_of(op), MonType::Ptr, a, b),
    }
}

// An operator on values of two types, of which at least one is a pointer to something of this size.
fn pointers_operated(
    alloc: Global,
    op: BinOp,
    unit: u64,
    types: (MonType, MonType),
    a: MonExpr,
    b: MonExpr,
) -> Result<MonExpr, AllocError>
    ensures { IfOk result (λ e. plain_expr e ≡ pointers_operated op unit types.0 types.1 (plain_expr a) (plain_expr b)) }
{
    let (t, u) = types;
    if !is_pointer(t) {
        element(alloc, unit, b, t, a)
    } else if is_pointer(u) {
        two_pointers(alloc, op, unit, a, b)
    } else {
        pointer_and_integer(alloc, op, unit, a, u, b)
    }
}

/// An operator on values of two types of annotated C.
pub fn operated(
    alloc: Global,
    structs: &[Layout],
    op: BinOp,
    types: (&CType, &CType),
    a: MonExpr,
    b: MonExpr,
) -> Result<MonExpr, AllocError>
    ensures { IfOk result (λ e. plain_expr e ≡ operated (map plain_layout structs.now) op (plain_type types.entry.0.now) (plain_type types.entry.1.now)
        (plain_expr a) (plain_expr b)) }
{
    let (t, u) = types;
    let kinds = (value_type(t), value_type(u));
    if is_pointer(kinds.0) || is_pointer(kinds.1) {
        pointers_operated(alloc, op, unit_of(structs, t, u)?, kinds, a, b)
    } else {
        binary(alloc, op, kinds.0, kinds.1, a, b)
    }
}

/// `a[b]`, of which one is a pointer (C99 6.5.2.1 p2).
pub fn indexed(
    alloc: Global,
    structs: &[Layout],
    t: &CType,
    u: &CType,
    a: MonExpr,
    b: MonExpr,
) -> Result<MonExpr, AllocError>
    ensures { IfOk result (λ e. plain_expr e ≡ indexed (map plain_layout structs.now) (plain_type t.now) (plain_type u.now) (plain_expr a)
        (plain_expr b)) }
{
    let unit = unit_of(structs, t, u)?;
    if is_pointer(value_type(t)) {
        element(alloc, unit, a, value_type(u), b)
    } else {
        element(alloc, unit, b, value_type(t), a)
    }
}

/// A value of the first type converted to the second: an integer that becomes a pointer is the null constant, and what
/// becomes `void` has no value.
pub fn converted(alloc: Global, t: &CType, u: &CType, e: MonExpr) -> Result<MonExpr, AllocError>
    ensures { IfOk result (λ m. plain_expr m ≡ converted (plain_type t.now) (plain_type u.now) (plain_expr e)) }
{
    match (t, u) {
        (CType::Int(k), CType::Int(l)) => in_type(alloc, register_type(*k), register_type(*l), e),
        (CType::Int(_), CType::Ptr(_)) => constant(alloc, MonType::Ptr, 0),
        (_, CType::Ptr(_)) => Ok(e),
        _ => constant(alloc, MonType::I32, 0),
    }
}

/// What stands at a place: a value, or an object of a type that has none.
pub fn loaded(alloc: Global, t: &CType, e: MonExpr) -> Result<MonExpr, AllocError>
    ensures { IfOk result (λ m. plain_expr m ≡ loaded (plain_type t.now) (plain_expr e)) }
{
    match t {
        CType::Int(_) | CType::Ptr(_) => MonExpr::new(alloc, MonExprKind::Load(value_type(t), e)),
        _ => Ok(e),
    }
}

// `left op right` of two integers.
fn integers_compound(
    alloc: Global,
    op: BinOp,
    k: CInt,
    l: CInt,
    left: MonExpr,
    right: MonExpr,
) -> Result<MonExpr, AllocError>
    ensures { IfOk result (λ e. plain_expr e ≡ compound_in op (register_type (operation_type op k l)) (register_type k) (register_type l)
        (plain_expr left) (plain_expr right)) }
{
    let m = register_type(operation_type(op, k, l));
    compound_in(
        alloc,
        op,
        m,
        register_type(k),
        register_type(l),
        left,
        right,
    )
}

/// `left op right`, as what stands on the left has it (C99 6.5.16.2 p3).
pub fn compound(
    alloc: Global,
    structs: &[Layout],
    op: BinOp,
    types: (&CType, &CType),
    left: MonExpr,
    right: MonExpr,
) -> Result<MonExpr, AllocError>
    ensures { IfOk result (λ e. plain_expr e ≡ compound (map plain_layout structs.now) op (plain_type types.entry.0.now) (plain_type types.entry.1.now)
        (plain_expr left) (plain_expr right)) }
{
    match types {
        (CType::Int(k), CType::Int(l)) => integers_compound(alloc, op, *k, *l, left, right),
        (CType::Ptr(t), u) => {
            let unit = size_of(structs, t)?;
            pointer_and_integer(alloc, op, unit, left, value_type(u), right)
        }
        _ => constant(alloc, MonType::I32, 0),
    }
}
