//! The types that stars and brackets derive (C99 6.7.5.1, 6.7.5.2).

ghost use Rattle.std.specs.Prelude.{◌≡◌, [], ◌∷◌, ◌++◌, IfOk};
ghost use Rattle.c_syntax.specs.Ctypes.{plain_type, plain_length};
ghost use Rattle.c_model.specs.ExpressionGrammar.{pointers, arrays_of, declared_type};
ghost use Rattle.c_expr_parser.specs.Reading.{plain_base, plain_brackets};

use crate::types::{BaseType, ctype_of};
use c_model::operands::Stars;
use c_syntax::{CType, Length};
use smallvec::SmallVec;
use std::alloc::{AllocError, AllocFailed, Global};
use std::default::MadeWith;

/// The length in brackets.
#[derive(Drop)]
pub struct Bracket {
    pub length: Length,
}

impl MadeWith<Global> for Bracket {
    fn made_with(_alloc: Global) -> Self {
        Bracket {
            length: Length::Left,
        }
    }
}

/// The brackets with one more.
pub fn pushed(
    all: SmallVec<Bracket, 4>,
    bracket: Bracket,
) -> Result<SmallVec<Bracket, 4>, AllocFailed<Bracket>>
    ensures { IfOk result (λ x. plain_brackets x.items ≡ plain_brackets all.items ++ plain_length bracket.length ∷ []) }
{
    let mut all = all;
    all.push(bracket)?;
    Ok(all)
}

/// A pointer to a pointer .. to the type.
fn pointers(alloc: Global, count: usize, t: CType) -> Result<CType, AllocError>
    ensures { IfOk result (λ u. plain_type u ≡ pointers count (plain_type t)) }
{
    let mut made = t;
    let mut left = count;
    'turn: while left > 0 {
        made = CType::Ptr(Box::new(alloc, made)?);
        left -= 1;
    }
    Ok(made)
}

/// An array of arrays of the type, of which the first length is the outermost.
fn arrays_of(alloc: Global, t: CType, brackets: SmallVec<Bracket, 4>) -> Result<CType, AllocError>
    ensures { IfOk result (λ u. plain_type u ≡ arrays_of (plain_type t) (plain_brackets brackets.items)) }
{
    let mut left = brackets;
    let mut made = t;
    'turn: while let Some(bracket) = left.pop() {
        made = CType::Array(Box::new(alloc, made)?, bracket.length);
    }
    Ok(made)
}

/// The type of a declarator with its stars and its brackets.
pub fn declared_type(
    alloc: Global,
    base: BaseType,
    stars: Stars,
    brackets: SmallVec<Bracket, 4>,
) -> Result<CType, AllocError>
    ensures { IfOk result (λ u. plain_type u ≡ declared_type (plain_base base) stars (plain_brackets brackets.items)) }
{
    let t = pointers(alloc, stars.count, ctype_of(base))?;
    arrays_of(alloc, t, brackets)
}
