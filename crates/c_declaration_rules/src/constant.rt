//! Initialisers of globals, which are constant (C99 6.6 p7, 6.7.8 p4): numbers, strings, null, and addresses of globals plus constants.

ghost use Rattle.std.specs.Prelude.{◌≡◌, IfOk, map, true};
ghost use Rattle.c_syntax.specs.Ctypes.{plain_type};
ghost use Rattle.c_syntax.specs.Expressions.{plain_expr};
ghost use Rattle.c_syntax.specs.Programs.{plain_layout};
ghost use Rattle.c_model.specs.Meaning.{is_member, unit_of};
ghost use Rattle.c_model.specs.ExpressionTyping.{constant};
ghost use Rattle.c_model.specs.DeclarationTyping.{is_address};
ghost use Rattle.c_scopes.specs.Sights.{plain_sight};
ghost use Rattle.c_expression_rules.specs.Constants.{has_small_sizes};
ghost use Rattle.c_declaration_rules.specs.Initialisers.{allowed_where};
ghost use Rattle.c_declaration_rules.specs.Statics.{address_spot, difference_of, element_of, member_spot, object_size, place_spot};
ghost use Rattle.c_declaration_rules.specs.Statics.{pointer_of, stepped, taken_spot};

use c_conversions::conversion::{is_array, is_pointer, pointed};
use c_expression_rules::constant::constant;
use c_scopes::limits::{size_of, small_size};
use c_scopes::sight::Sight;
use c_syntax::layout::{offset_in_target, offset_of_member};
use c_syntax::{BinOp, CType, Expr, ExprKind, Layout, UnOp, Use};
use std::alloc::AllocError;

/// Where a constant address points: null, or so many bytes behind the start of an object of so many bytes.
#[derive(Clone, Copy, PartialEq, Eq, Debug, Drop)]
pub enum Spot {
    Null,
    Within(u64, u32),
}

/// Whether each size that an expression asks for is within the limit.
fn has_small_sizes(structs: &[Layout], e: &Expr) -> bool
    ensures { result ≡ has_small_sizes (map plain_layout structs.now) (plain_expr e.now) }
{
    match &*e.kind {
        ExprKind::Unary(_, a) | ExprKind::Cast(_, a) => has_small_sizes(structs, a),
        ExprKind::Binary(_, a, b)
        | ExprKind::Both(a, b)
        | ExprKind::Either(a, b)
        | ExprKind::Comma(a, b) => has_small_sizes(structs, a) && has_small_sizes(structs, b),
        ExprKind::Choice(a, b, c) => {
            has_small_sizes(structs, a)
                && (has_small_sizes(structs, b) && has_small_sizes(structs, c))
        }
        ExprKind::SizeOfType(t) => small_size(structs, t).is_some(),
        ExprKind::SizeOfExpr(a) => small_size(structs, &a.ctype).is_some(),
        _ => true,
    }
}

/// The value of an integer constant expression; a size past the limit, which no typed expression asks for, wants memory.
fn number(sight: &Sight, e: &Expr) -> Result<Option<i128>, AllocError>
    ensures { IfOk result (λ z. z ≡ constant (plain_sight sight.now) (plain_expr e.now)) }
{
    if has_small_sizes(&sight.structs, e) {
        Ok(constant(sight, e))
    } else {
        Err(AllocError)
    }
}

/// The size of the first object with the number of a declaration.
fn object_size(sight: &Sight, decl: u32) -> Result<Option<u32>, AllocError>
    ensures { IfOk result (λ n. n ≡ object_size (plain_sight sight.now).structs decl (plain_sight sight.now).entities) }
{
    match sight.entities.object_with(decl) {
        Some(object) => {
            let size = size_of(&sight.structs, &object.ctype)?;
            Ok(Some(size))
        }
        None => Ok(None),
    }
}

/// So many elements of a size farther, within the object or one after its end (C99 6.5.6 p8). A sum past the numbers that there are wants
/// memory.
fn stepped(p: Option<Spot>, unit: u32, i: i128) -> Result<Option<Spot>, AllocError>
    ensures { IfOk result (λ q. q ≡ stepped p unit i) }
{
    match p {
        Some(Spot::Within(offset, size)) => {
            let Some(bytes) = i.checked_mul(i128::from(unit)) else {
                return Err(AllocError);
            };
            let Some(at) = i128::from(offset).checked_add(bytes) else {
                return Err(AllocError);
            };
            if 0 <= at && at <= i128::from(size) {
                Ok(Some(Spot::Within(at as u64, size)))
            } else {
                Ok(None)
            }
        }
        Some(Spot::Null) | None => Ok(None),
    }
}

/// Whether an expression is a member of an object.
fn is_member(e: &Expr) -> bool
    ensures { result ≡ is_member (plain_expr e.now) }
{
    matches!(&*e.kind, ExprKind::Dot(..) | ExprKind::Arrow(..))
}

/// The address of the object that an expression designates, which stands there: that of a member lies in its object.
fn taken(e: &Expr, p: Option<Spot>) -> Result<Option<Spot>, AllocError>
    ensures { IfOk result (λ q. q ≡ taken_spot (plain_expr e.now) p) }
{
    if is_member(e) {
        stepped(p, 1, 0)
    } else {
        Ok(p)
    }
}

/// A member at an offset in an object, which stands there.
fn member(offset: u32, p: Option<Spot>) -> Result<Option<Spot>, AllocError>
    ensures { IfOk result (λ q. q ≡ member_spot offset p) }
{
    match p {
        Some(Spot::Within(at, size)) => match at.checked_add(u64::from(offset)) {
            None => Err(AllocError),
            Some(at) => Ok(Some(Spot::Within(at, size))),
        },
        Some(Spot::Null) => Ok(Some(Spot::Null)),
        None => Ok(None),
    }
}

/// The size of what is pointed to, on either side.
fn unit_of(structs: &[Layout], t: &CType, u: &CType) -> Result<u32, AllocError>
    ensures { IfOk result (λ n. n ≡ unit_of (map plain_layout structs.now) (plain_type t.now) (plain_type u.now)) }
{
    match (pointed(t), pointed(u)) {
        (Some(v), _) => size_of(structs, v),
        (None, Some(v)) => size_of(structs, v),
        (None, None) => Ok(0),
    }
}

/// An address and a number of elements, on either side (C99 6.5.2.1, 6.5.6).
#[cycle(spot)]
fn element(sight: &Sight, a: &Expr, b: &Expr) -> Result<Option<Spot>, AllocError>
    ensures { IfOk result (λ p. p ≡ element_of (plain_sight sight.now) (plain_expr a.now) (plain_expr b.now)) }
{
    match number(sight, b)? {
        Some(y) => {
            let unit = unit_of(&sight.structs, &a.ctype, &b.ctype)?;
            stepped(address(sight, a)?, unit, y)
        }
        None => match number(sight, a)? {
            Some(x) => {
                let unit = unit_of(&sight.structs, &a.ctype, &b.ctype)?;
                stepped(address(sight, b)?, unit, x)
            }
            None => Ok(None),
        },
    }
}

/// An address less a number of elements.
#[cycle(spot)]
fn difference(sight: &Sight, a: &Expr, b: &Expr) -> Result<Option<Spot>, AllocError>
    ensures { IfOk result (λ p. p ≡ difference_of (plain_sight sight.now) (plain_expr a.now) (plain_expr b.now)) }
{
    match number(sight, b)? {
        None => Ok(None),
        Some(y) => match 0_i128.checked_sub(y) {
            None => Err(AllocError),
            Some(y) => {
                let unit = unit_of(&sight.structs, &a.ctype, &b.ctype)?;
                stepped(address(sight, a)?, unit, y)
            }
        },
    }
}

/// A cast to a pointer: of an array, of a number, which is the null constant, or of an address (C99 6.3.2.1 p3, 6.3.2.3).
#[cycle(spot)]
fn pointer(sight: &Sight, a: &Expr) -> Result<Option<Spot>, AllocError>
    ensures { IfOk result (λ p. p ≡ pointer_of (plain_sight sight.now) (plain_expr a.now)) }
{
    if is_array(&a.ctype) {
        return taken(a, place(sight, a)?);
    }
    match number(sight, a)? {
        Some(_) => Ok(Some(Spot::Null)),
        None => address(sight, a),
    }
}

/// Where a constant address points, where the expression is one that has a value (C99 6.6 p9).
#[cycle(spot)]
fn address(sight: &Sight, e: &Expr) -> Result<Option<Spot>, AllocError>
    ensures { IfOk result (λ p. p ≡ address_spot (plain_sight sight.now) (plain_expr e.now)) }
{
    match &*e.kind {
        ExprKind::Variable(x) => {
            if x.decl == Use::LIBRARY && is_pointer(&e.ctype) {
                Ok(Some(Spot::Null))
            } else {
                Ok(None)
            }
        }
        ExprKind::Unary(UnOp::Address, a) => taken(a, place(sight, a)?),
        ExprKind::Binary(BinOp::Add, a, b) => element(sight, a, b),
        ExprKind::Binary(BinOp::Sub, a, b) => difference(sight, a, b),
        ExprKind::Cast(to, a) => {
            if is_pointer(to) {
                pointer(sight, a)
            } else {
                Ok(None)
            }
        }
        _ => Ok(None),
    }
}

/// Where an object stands whose address is constant.
#[cycle(spot)]
fn place(sight: &Sight, e: &Expr) -> Result<Option<Spot>, AllocError>
    ensures { IfOk result (λ p. p ≡ place_spot (plain_sight sight.now) (plain_expr e.now)) }
{
    match &*e.kind {
        ExprKind::Variable(x) => {
            if x.decl == Use::LIBRARY {
                return Ok(None);
            }
            match object_size(sight, x.decl)? {
                None => Ok(None),
                Some(size) => Ok(Some(Spot::Within(0, size))),
            }
        }
        ExprKind::Unary(UnOp::Deref, a) => address(sight, a),
        ExprKind::Index(a, b) => element(sight, a, b),
        ExprKind::Dot(a, m) => {
            let p = place(sight, a)?;
            member(offset_of_member(&sight.structs, &a.ctype, *m), p)
        }
        ExprKind::Arrow(a, m) => {
            let p = address(sight, a)?;
            member(offset_in_target(&sight.structs, &a.ctype, *m), p)
        }
        _ => Ok(None),
    }
}

/// Whether an expression is a constant address that has a value. An object with the number of the library, which no text has, wants
/// memory.
fn is_address(sight: &Sight, e: &Expr) -> Result<bool, AllocError>
    ensures { IfOk result (λ b. b ≡ is_address (plain_sight sight.now) (plain_expr e.now)) }
{
    if !is_pointer(&e.ctype) {
        return Ok(false);
    }
    if sight.entities.object_with(Use::LIBRARY).is_some() {
        return Err(AllocError);
    }
    Ok(address(sight, e)?.is_some())
}

/// Whether a typed expression, which was read as a string literal or wasn't, initialises a global: the last object in sight, of this
/// type.
pub fn is_static(sight: &Sight, text: bool, e: &Expr) -> Result<bool, AllocError>
    ensures { IfOk result (λ b. b ≡ allowed_where (plain_sight sight.now) true text (plain_expr e.now)) }
{
    if text || number(sight, e)?.is_some() {
        return Ok(true);
    }
    is_address(sight, e)
}
