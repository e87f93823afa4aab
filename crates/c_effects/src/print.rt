//! printf as statements, one for each piece of its format (C99 7.19.6.1).

ghost use Rattle.std.specs.Prelude.{◌≡◌, [], ◌∷◌, IfOk, None, OnOk, map};
ghost use Rattle.c_syntax.specs.Expressions.{plain_exprs};
ghost use Rattle.c_syntax.specs.Programs.{plain_program};
ghost use Rattle.c_model.specs.TypedTrees.{literal_in};
ghost use Rattle.c_scopes.specs.Pieces.{plain_piece};
ghost use Rattle.mon_syntax.specs.Trees.{plain_expr as plain_monitored, plain_stmt_kind, plain_stmts};
ghost use Rattle.c_effects.specs.Expressions.{before};
ghost use Rattle.c_effects.specs.Printing.{PrintsPiece, behind_first, first_of, format_pieces, print_call, print_number, prints};

use crate::conversion::register_type;
use crate::operator::{constant, in_type};
use crate::part::then;
use c_conversions::conversion::is_signed;
use c_scopes::format::{Piece, pieces_of};
use c_syntax::{CInt, Expr, ExprKind, Name};
use mon_syntax::{MonExpr, MonStmt, MonStmtKind, MonType, Registers};
use std::alloc::{AllocError, Global};

/// Takes the first of the values, or 0 where there is none.
pub fn take_first(alloc: Global, args: &mut Vec<MonExpr>) -> Result<MonExpr, AllocError>
    ensures value { IfOk result (λ e. plain_monitored e ≡ first_of (map plain_monitored args.old.items)) }
    ensures rest { OnOk result (map plain_monitored args.new.items ≡ behind_first (map plain_monitored args.old.items)) }
{
    if args.is_empty() {
        constant(alloc, MonType::I32, 0)
    } else {
        Ok(args.remove(0))
    }
}

/// The statement that prints a number of a type.
fn print_number(alloc: Global, k: CInt, e: MonExpr) -> Result<MonStmtKind, AllocError>
    ensures { IfOk result (λ a. plain_stmt_kind a ≡ print_number k (plain_monitored e)) }
{
    if is_signed(k) {
        let e = in_type(alloc, register_type(k), MonType::I64, e)?;
        Ok(MonStmtKind::PrintSigned(e))
    } else {
        let e = in_type(alloc, register_type(k), MonType::U64, e)?;
        Ok(MonStmtKind::PrintUnsigned(e))
    }
}

/// The statement of a piece, which takes the value that it needs.
fn print_piece(
    alloc: Global,
    piece: &Piece,
    args: &mut Vec<MonExpr>,
) -> Result<MonStmtKind, AllocError>
    ensures { IfOk result (λ a. PrintsPiece (plain_piece piece.now) (map plain_monitored args.old.items) (plain_stmt_kind a)
        (map plain_monitored args.new.items)) }
{
    match piece {
        Piece::Bytes(bytes) => {
            let bytes = bytes.as_slice().to_vec(alloc)?;
            Ok(MonStmtKind::PrintText(Name::new(bytes)))
        }
        Piece::Number(k) => {
            let e = take_first(alloc, args)?;
            print_number(alloc, *k, e)
        }
        Piece::Character => {
            let e = take_first(alloc, args)?;
            Ok(MonStmtKind::PutChar(None, e))
        }
        Piece::String => {
            let e = take_first(alloc, args)?;
            Ok(MonStmtKind::PrintString(e))
        }
    }
}

/// The statements of pieces, after those that are there.
fn prints(
    alloc: Global,
    pieces: &[Piece],
    mut args: Vec<MonExpr>,
    to: &mut Vec<MonStmt>,
) -> Result<(), AllocError>
    ensures { OnOk result (plain_stmts to.new.items ≡ before (plain_stmts to.old.items)
        (prints (map plain_piece pieces.now) (map plain_monitored args.items))) }
{
    for piece in pieces {
        let a = print_piece(alloc, piece, &mut args)?;
        then(alloc, to, a)?;
    }
    Ok(())
}

/// The number of the string literal that is the first of typed arguments.
fn literal_in(args: &[Expr]) -> Option<u32>
    ensures { result ≡ literal_in (plain_exprs args.now) }
{
    match args {
        [] => None,
        [first, ..] => match &*first.kind {
            ExprKind::Cast(_, e) => match &*e.kind {
                ExprKind::Text(n) => Some(*n),
                _ => None,
            },
            _ => None,
        },
    }
}

/// The pieces of the format of a typed call.
fn format_pieces(
    alloc: Global,
    names: &Registers<'_>,
    source: &[Expr],
) -> Result<Vec<Piece>, AllocError>
    ensures { IfOk result (λ pieces. map plain_piece pieces.items ≡ format_pieces (plain_program names.now.program) (plain_exprs source.now)) }
{
    let Some(n) = literal_in(source) else {
        return Ok(Vec::new(alloc));
    };
    let Some(text) = names.texts().get(n as usize) else {
        return Ok(Vec::new(alloc));
    };
    match pieces_of(alloc, text.bytes.bytes())? {
        None => Ok(Vec::new(alloc)),
        Some(pieces) => Ok(pieces),
    }
}

/// A call of printf, of whose values the first is the format's address.
pub fn print_call(
    alloc: Global,
    names: &Registers<'_>,
    source: &[Expr],
    mut args: Vec<MonExpr>,
    to: &mut Vec<MonStmt>,
) -> Result<(), AllocError>
    ensures { OnOk result (plain_stmts to.new.items ≡ before (plain_stmts to.old.items)
        (print_call (plain_program names.now.program) (plain_exprs source.now) (map plain_monitored args.items))) }
{
    let pieces = format_pieces(alloc, names, source)?;
    drop(take_first(alloc, &mut args)?);
    prints(alloc, &pieces, args, to)
}
