//! The parameters of printf, which its format asks for (C99 7.19.6.1).

ghost use Rattle.std.specs.Prelude.{◌≡◌, [], ◌∷◌, ◌++◌, IfOk, OnOk, map, option_map};
ghost use Rattle.c_syntax.specs.Ctypes.{Int, Ptr, plain_type};
ghost use Rattle.c_syntax.specs.Expressions.{plain_exprs};
ghost use Rattle.c_syntax.specs.declared.types.CInt.TheVariants.{I8};
ghost use Rattle.c_model.specs.Formats.{types_of};
ghost use Rattle.c_model.specs.ExpressionTyping.{callee_for, format_of, format_params, is_printed, is_printf, with_directives};
ghost use Rattle.c_scopes.specs.Answers.{Answers};
ghost use Rattle.c_scopes.specs.Pieces.{plain_piece};
ghost use Rattle.c_scopes.specs.Signatures.{plain_signature};
ghost use Rattle.c_scopes.specs.Sights.{plain_sight};

use crate::call::{callee, one_type};
use c_conversions::conversion::{promoted, same_type, width};
use c_scopes::fault::TypeFault;
use c_scopes::format::{Piece, pieces_of};
use c_scopes::literal::bytes_at;
use c_scopes::sight::{Sight, name_at};
use c_scopes::signature::Signature;
use c_syntax::{CInt, CType, Expr, ExprKind, Place};
use std::alloc::{AllocError, Global};

/// Whether a name is printf.
pub fn is_printf(sight: &Sight, name: u32) -> bool
    ensures { result ≡ is_printf (plain_sight sight.now) name }
{
    name_at(&sight.names, name) == b"printf".as_slice()
}

/// A pointer to `char`.
pub fn pointer_to_char(alloc: Global) -> Result<CType, AllocError>
    ensures { IfOk result (λ t. plain_type t ≡ Ptr (Int I8)) }
{
    Ok(CType::Ptr(Box::new(alloc, CType::Int(CInt::I8))?))
}

/// The pieces of the format, where the first argument is a string literal.
fn format_of(
    alloc: Global,
    sight: &Sight,
    arguments: &[Expr],
) -> Result<Option<Vec<Piece>>, AllocError>
    ensures { IfOk result (λ found. option_map (λ v. map plain_piece v.items) found ≡ format_of (plain_sight sight.now) (plain_exprs arguments.now)) }
{
    match arguments {
        [] => Ok(None),
        [first, ..] => match &*first.kind {
            ExprKind::Text(offset) => match bytes_at(&sight.texts, *offset) {
                Some(bytes) => pieces_of(alloc, bytes),
                None => Ok(None),
            },
            _ => Ok(None),
        },
    }
}

/// The type of the argument that a piece asks for, behind the others.
fn put_type_of(alloc: Global, piece: &Piece, types: &mut Vec<CType>) -> Result<(), AllocError>
    ensures { OnOk result (map plain_type types.new.items ≡ map plain_type types.old.items ++ types_of (plain_piece piece.now ∷ [])) }
{
    let t = match piece {
        Piece::Bytes(_) => return Ok(()),
        Piece::Number(k) => CType::Int(*k),
        Piece::Character => CType::Int(CInt::I32),
        Piece::String => pointer_to_char(alloc)?,
    };
    types.push(t)?;
    Ok(())
}

/// The types of the arguments that pieces ask for, behind the others.
fn put_types_of(alloc: Global, pieces: &[Piece], types: &mut Vec<CType>) -> Result<(), AllocError>
    ensures { OnOk result (map plain_type types.new.items ≡ map plain_type types.old.items ++ types_of (map plain_piece pieces.now)) }
{
    for piece in pieces {
        put_type_of(alloc, piece, types)?;
    }
    Ok(())
}

/// The format's type and those of its directives; what is no format has a type that no argument has.
fn format_params(alloc: Global, format: &Option<Vec<Piece>>) -> Result<Vec<CType>, AllocError>
    ensures { IfOk result (λ ts. map plain_type ts.items ≡ format_params (option_map (λ v. map plain_piece v.items) format.now)) }
{
    match format {
        None => one_type(alloc, CType::Void),
        Some(pieces) => {
            let first = pointer_to_char(alloc)?;
            let mut types = one_type(alloc, first)?;
            put_types_of(alloc, pieces, &mut types)?;
            Ok(types)
        }
    }
}

/// The parameters of printf at a call with these arguments.
fn params_asked(alloc: Global, sight: &Sight, arguments: &[Expr]) -> Result<Vec<CType>, AllocError>
    ensures { IfOk result (λ ts. map plain_type ts.items ≡ format_params (format_of (plain_sight sight.now) (plain_exprs arguments.now))) }
{
    let format = format_of(alloc, sight, arguments)?;
    format_params(alloc, &format)
}

/// A function as this call of it sees it.
fn with_directives(
    alloc: Global,
    sight: &Sight,
    arguments: &[Expr],
    f: Signature,
) -> Result<Signature, AllocError>
    ensures { IfOk result (λ g. plain_signature g ≡ with_directives (plain_sight sight.now) (plain_exprs arguments.now) (plain_signature f)) }
{
    if !is_printf(sight, f.name) {
        return Ok(f);
    }
    let params = params_asked(alloc, sight, arguments)?;
    Ok(Signature { params, ..f })
}

/// The function that is called, with the parameters of this call.
pub fn callee_for(
    alloc: Global,
    sight: &Sight,
    place: Place,
    name: u32,
    arguments: &[Expr],
) -> Result<Signature, TypeFault>
    ensures { Answers plain_signature (callee_for (plain_sight sight.now) place name (plain_exprs arguments.now)) result }
{
    let f = callee(alloc, sight, place, name)?;
    let f = with_directives(alloc, sight, arguments, f)?;
    Ok(f)
}

/// Whether a value goes to a format or a directive: an integer whose promoted type is as wide, or a pointer of the same type (C99 7.19.6.1 p7, p8).
pub fn is_printed(t: &CType, u: &CType) -> bool
    ensures { result ≡ is_printed (plain_type t.now) (plain_type u.now) }
{
    match (t, u) {
        (CType::Int(k), CType::Int(l)) => width(promoted(*k)) == width(*l),
        (CType::Ptr(t), CType::Ptr(u)) => same_type(t, u),
        _ => false,
    }
}
