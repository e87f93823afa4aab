//! String literals (C99 6.4.5).

ghost use Rattle.std.specs.Prelude.{◌≡◌, ◌+◌, IfOk};
ghost use Rattle.c_syntax.specs.Ctypes.{Array, Count, Int, plain_type};
ghost use Rattle.c_syntax.specs.Expressions.{Node, plain_kind};
ghost use Rattle.c_syntax.specs.declared.types.CInt.TheVariants.{I8};
ghost use Rattle.c_model.specs.ExpressionTyping.{text};
ghost use Rattle.c_scopes.specs.Answers.{Answers};
ghost use Rattle.c_scopes.specs.Sights.{plain_sight};

use crate::operator::put;
use c_scopes::fault::{TypeFault, no_type};
use c_scopes::limits::number;
use c_scopes::literal::literal_at;
use c_scopes::sight::Sight;
use c_syntax::{CInt, CType, ExprKind, Length, Place};
use std::alloc::{AllocError, Global};

/// The count of bytes with a 0 after them.
pub fn count_with_zero(n: usize) -> Result<u32, AllocError>
    ensures { IfOk result (λ m. m ≡ n + 1) }
{
    match n.checked_add(1) {
        Some(n) => number(n as u64),
        None => Err(AllocError),
    }
}

/// An array of characters.
fn characters(alloc: Global, count: u32) -> Result<CType, AllocError>
    ensures { IfOk result (λ t. plain_type t ≡ Array (Int I8) (Count count)) }
{
    Ok(CType::Array(Box::new(alloc, CType::Int(CInt::I8))?, Length::Count(count)))
}

/// Puts the number of a string literal in its place. Gives its type: an array of its bytes and a 0 (C99 6.4.5 p5).
pub fn text(
    alloc: Global,
    sight: &Sight,
    place: Place,
    offset: u32,
    kind: &mut ExprKind,
) -> Result<CType, TypeFault>
    ensures { Answers (λ t. Node place (plain_type t) (plain_kind kind.new)) (text (plain_sight sight.now) place offset) result }
{
    match literal_at(&sight.texts, offset) {
        None => Err(no_type(place)),
        Some((n, count)) => {
            let n = number(n as u64)?;
            let count = count_with_zero(count)?;
            put(kind, ExprKind::Text(n));
            let ctype = characters(alloc, count)?;
            Ok(ctype)
        }
    }
}
