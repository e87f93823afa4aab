//! Values of terms and truths of relations, each in the narrowest type that holds its operands and its result.

ghost use Rattle.std.specs.Prelude.{◌≡◌, IfOk, option_map, pos};
ghost use Rattle.c_syntax.specs.Formulas.{plain_cast_type};
ghost use Rattle.annot_simulation.specs.Code.{relation_operator};
ghost use Rattle.mon_syntax.specs.declared.tree.MonOp.TheVariants.{Lt};
ghost use Rattle.mon_syntax.specs.declared.tree.MonType.TheVariants.{I128};
ghost use Rattle.mon_syntax.specs.Trees.{Binary, Cast, Constant, Minus, plain_expr};
ghost use Rattle.annot_simulation.specs.Code.{binary_value, cast_value, conjunction, converted_to, count_in, is_shift, is_total};
ghost use Rattle.annot_simulation.specs.Code.{relation_value, second_operand, type_of_width, unary_value, wider, working};

use c_conversions::conversion::integer_type;
use c_effects::conversion::register_type;
use c_effects::copy::copy_of;
use c_effects::operator::{constant, in_type, operation, operator_of, unary};
use c_syntax::logic::LogicType;
use c_syntax::{BinOp, CInt, Range, Relation, UnOp, Width};
use ea_num::{is_inside, type_range};
use mon_syntax::{MonExpr, MonExprKind, MonOp, MonType};
use std::alloc::{AllocError, Global};

// ---- widths

/// The signed type of a width.
pub fn type_of_width(w: Width) -> MonType
    ensures { result ≡ type_of_width w }
{
    match w {
        Width::W32 => MonType::I32,
        Width::W64 => MonType::I64,
        Width::W128 => MonType::I128,
    }
}

/// The wider one.
pub fn wider(a: Width, b: Width) -> Width
    ensures { result ≡ wider a b }
{
    match (a, b) {
        (Width::W32, _) => b,
        (Width::W64, Width::W128) | (Width::W128, _) => Width::W128,
        (Width::W64, Width::W32 | Width::W64) => Width::W64,
    }
}

fn is_shift(op: BinOp) -> bool
    ensures { result ≡ is_shift op }
{
    match op {
        BinOp::Shl | BinOp::Shr => true,
        BinOp::Add | BinOp::Sub | BinOp::Mul | BinOp::Div | BinOp::Rem => false,
        BinOp::BitAnd | BinOp::BitOr | BinOp::BitXor => false,
        BinOp::Eq | BinOp::Ne | BinOp::Lt | BinOp::Le | BinOp::Gt | BinOp::Ge => false,
    }
}

/// The width in which an operator is computed, by those of its result and its operands.
pub fn working(op: BinOp, whole: Width, left: Width, right: Width) -> Width
    ensures { result ≡ working op whole left right }
{
    if is_shift(op) {
        Width::W128
    } else {
        wider(whole, wider(left, right))
    }
}

/// Whether an operator is defined for all second operands of a range.
pub fn is_total(op: BinOp, b: Range) -> bool
    ensures { result ≡ is_total op b }
{
    match op {
        BinOp::Div | BinOp::Rem => b.lo > 0 || b.hi < 0,
        BinOp::Shl | BinOp::Shr => b.lo >= 0,
        BinOp::Add | BinOp::Sub | BinOp::Mul => true,
        BinOp::BitAnd | BinOp::BitOr | BinOp::BitXor => true,
        BinOp::Eq | BinOp::Ne | BinOp::Lt | BinOp::Le | BinOp::Gt | BinOp::Ge => true,
    }
}

// ---- flags

/// Both flags.
pub fn conjunction(
    alloc: Global,
    a: Option<MonExpr>,
    b: Option<MonExpr>,
) -> Result<Option<MonExpr>, AllocError>
    ensures { IfOk result (λ r. option_map plain_expr r ≡ conjunction (option_map plain_expr a) (option_map plain_expr b)) }
{
    match a {
        None => Ok(b),
        Some(a) => match b {
            None => Ok(Some(a)),
            Some(b) => both_flags(alloc, a, b),
        },
    }
}

fn both_flags(alloc: Global, a: MonExpr, b: MonExpr) -> Result<Option<MonExpr>, AllocError>
    ensures { IfOk result (λ r. option_map plain_expr r ≡ conjunction (Some (plain_expr a)) (Some (plain_expr b))) }
{
    let both = operation(alloc, MonOp::And, MonType::I32, a, b)?;
    Ok(Some(both))
}

// ---- operators

/// The types of an operation: of its result, of its computation and of its operands.
#[derive(Clone, Copy)]
pub struct OperationTypes {
    pub result: MonType,
    pub working: MonType,
    pub left: MonType,
    pub right: MonType,
}

/// -1 where the count is above 127, and else 0.
fn surplus(alloc: Global, e: MonExpr) -> Result<MonExpr, AllocError>
    ensures { IfOk result (λ x. plain_expr x ≡ Minus I128 (Cast I128 (Binary Lt I128 (Constant I128 (pos 127)) (plain_expr e)))) }
{
    let most = constant(alloc, MonType::I128, 127)?;
    let above = operation(alloc, MonOp::Lt, MonType::I128, most, e)?;
    let wide = MonExpr::new(alloc, MonExprKind::Cast(MonType::I128, above))?;
    MonExpr::new(alloc, MonExprKind::Minus(MonType::I128, wide))
}

fn count_in(alloc: Global, b: Range, e: MonExpr) -> Result<MonExpr, AllocError>
    ensures { IfOk result (λ x. plain_expr x ≡ count_in b (plain_expr e)) }
{
    if b.hi <= 127 {
        return Ok(e);
    }
    let again = copy_of(alloc, &e)?;
    let bits = surplus(alloc, again)?;
    operation(alloc, MonOp::Or, MonType::I128, e, bits)
}

fn second_operand(alloc: Global, op: BinOp, b: Range, e: MonExpr) -> Result<MonExpr, AllocError>
    ensures { IfOk result (λ x. plain_expr x ≡ second_operand op b (plain_expr e)) }
{
    match op {
        BinOp::Shr => count_in(alloc, b, e),
        BinOp::Add | BinOp::Sub | BinOp::Mul | BinOp::Div | BinOp::Rem | BinOp::Shl => Ok(e),
        BinOp::BitAnd | BinOp::BitOr | BinOp::BitXor => Ok(e),
        BinOp::Eq | BinOp::Ne | BinOp::Lt | BinOp::Le | BinOp::Gt | BinOp::Ge => Ok(e),
    }
}

/// An operator on operands of which the second one lies in a range.
pub fn binary_value(
    alloc: Global,
    op: BinOp,
    types: OperationTypes,
    range: Range,
    x: MonExpr,
    y: MonExpr,
) -> Result<MonExpr, AllocError>
    ensures { IfOk result (λ e. plain_expr e ≡ binary_value op types.result types.working types.left types.right range (plain_expr x) (plain_expr y)) }
{
    let left = in_type(alloc, types.left, types.working, x)?;
    let right = in_type(alloc, types.right, types.working, y)?;
    let right = second_operand(alloc, op, range, right)?;
    let value = operation(alloc, operator_of(op), types.working, left, right)?;
    in_type(alloc, types.working, types.result, value)
}

/// `+`, `-` or `~`.
pub fn unary_value(
    alloc: Global,
    op: UnOp,
    result_type: MonType,
    working: MonType,
    operand: MonType,
    x: MonExpr,
) -> Result<MonExpr, AllocError>
    ensures { IfOk result (λ e. plain_expr e ≡ unary_value op result_type working operand (plain_expr x)) }
{
    let x = in_type(alloc, operand, working, x)?;
    let value = unary(alloc, op, working, x)?;
    in_type(alloc, working, result_type, value)
}

/// The operator of a relation.
pub fn relation_operator(relation: Relation) -> MonOp
    ensures { result ≡ relation_operator relation }
{
    match relation {
        Relation::Eq => MonOp::Eq,
        Relation::Ne => MonOp::Ne,
        Relation::Lt => MonOp::Lt,
        Relation::Le => MonOp::Le,
        Relation::Gt => MonOp::Gt,
        Relation::Ge => MonOp::Ge,
    }
}

/// The truth of a relation in the type `working`.
pub fn relation_value(
    alloc: Global,
    relation: Relation,
    working: MonType,
    left: MonType,
    right: MonType,
    x: MonExpr,
    y: MonExpr,
) -> Result<MonExpr, AllocError>
    ensures { IfOk result (λ e. plain_expr e ≡ relation_value relation working left right (plain_expr x) (plain_expr y)) }
{
    let x = in_type(alloc, left, working, x)?;
    let y = in_type(alloc, right, working, y)?;
    operation(alloc, relation_operator(relation), working, x, y)
}

// ---- casts

/// A value converted to a type that needn't have it.
fn converted_in(
    alloc: Global,
    k: CInt,
    a: Range,
    result_type: MonType,
    x: MonExpr,
) -> Result<MonExpr, AllocError>
    ensures { IfOk result (λ e. plain_expr e ≡ converted_to (Some k) a result_type result_type (plain_expr x)) }
{
    if is_inside(a, type_range(k)) {
        return Ok(x);
    }
    let t = register_type(k);
    let value = MonExpr::new(alloc, MonExprKind::Cast(t, x))?;
    in_type(alloc, t, result_type, value)
}

/// The value of a cast, of an operand in a range and of a type.
pub fn cast_value(
    alloc: Global,
    to: &LogicType,
    a: Range,
    result_type: MonType,
    operand: MonType,
    x: MonExpr,
) -> Result<MonExpr, AllocError>
    ensures { IfOk result (λ e. plain_expr e ≡ cast_value (plain_cast_type to.now) a result_type operand (plain_expr x)) }
{
    match to {
        LogicType::Integer => Ok(x),
        LogicType::Of(ctype) => match integer_type(ctype) {
            None => Ok(x),
            Some(k) => converted_in(alloc, k, a, result_type, x),
        },
    }
}
