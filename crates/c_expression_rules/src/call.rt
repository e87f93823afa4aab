//! Names and calls (C99 6.5.1, 6.5.2.2), and members of structs (C99 6.5.2.3).

ghost use Rattle.std.specs.Prelude.{◌≡◌, ℕ, [], ◌∷◌, IfErr, IfOk, map};
ghost use Rattle.c_syntax.specs.Ctypes.{Ptr, Void, plain_type};
ghost use Rattle.c_syntax.specs.Expressions.{Arrow, Call, Dot, Node, plain_expr, plain_exprs, plain_kind};
ghost use Rattle.c_model.specs.ExpressionTyping.{arrow, call, callee, dot, is_null_word, library_name, member, typed_name, no_function, use_as};
ghost use Rattle.c_scopes.specs.Answers.{Answers, IsRefusal};
ghost use Rattle.c_scopes.specs.Library.{signature_of};
ghost use Rattle.c_scopes.specs.Signatures.{plain_signature};
ghost use Rattle.c_scopes.specs.Sights.{plain_sight};
ghost use Rattle.c_expression_rules.specs.Callees.{callable, known_params, library_callee};

use crate::format::pointer_to_char;
use crate::operator::{has_size, put};
use c_conversions::conversion::{is_struct, pointed};
use c_scopes::entity::Entity;
use c_scopes::fault::{TypeFault, no_name, no_type};
use c_scopes::library::{LibraryFunction, library_constant, library_function};
use c_scopes::sight::{Sight, name_at};
use c_scopes::signature::{Signature, copy_signature};
use c_syntax::copy::copy_type;
use c_syntax::layout::{member_among, members_of};
use c_syntax::{CInt, CType, Expr, ExprKind, Place, Use};
use std::alloc::{AllocError, Global};

/// Whether the name is `NULL`.
pub fn is_null_word(sight: &Sight, name: u32) -> bool
    ensures { result ≡ is_null_word (plain_sight sight.now) name }
{
    name_at(&sight.names, name) == b"NULL".as_slice()
}

/// A pointer to void.
fn pointer_to_void(alloc: Global) -> Result<CType, AllocError>
    ensures { IfOk result (λ t. plain_type t ≡ Ptr Void) }
{
    Ok(CType::Ptr(Box::new(alloc, CType::Void)?))
}

/// Puts what a name of the library stands for in its place: the value of a constant, or `NULL`. Gives its type.
fn library_name(
    alloc: Global,
    sight: &Sight,
    place: Place,
    name: u32,
    kind: &mut ExprKind,
) -> Result<CType, TypeFault>
    ensures { Answers (λ t. Node place (plain_type t) (plain_kind kind.new)) (library_name (plain_sight sight.now) place name) result }
{
    match library_constant(name_at(&sight.names, name)) {
        Some((k, n)) => {
            put(kind, ExprKind::Number(n, Some(k)));
            Ok(CType::Int(k))
        }
        None => {
            if is_null_word(sight, name) {
                let decl = Use::LIBRARY;
                put(kind, ExprKind::Variable(Use { name, decl }));
                let ctype = pointer_to_void(alloc)?;
                Ok(ctype)
            } else if library_function(name_at(&sight.names, name)).is_some() {
                Err(no_type(place))
            } else {
                Err(no_name(place))
            }
        }
    }
}

/// Puts what a name stands for in its place: an object, or the value of an enumerator or a constant. Gives its type.
pub fn mean(
    alloc: Global,
    sight: &Sight,
    place: Place,
    name: u32,
    kind: &mut ExprKind,
) -> Result<CType, TypeFault>
    ensures { Answers (λ t. Node place (plain_type t) (plain_kind kind.new)) (typed_name (plain_sight sight.now) place name) result }
{
    match sight.entities.named(name) {
        Some(Entity::AnObject(object)) => {
            let ctype = copy_type(alloc, &object.ctype)?;
            let decl = object.decl;
            put(kind, ExprKind::Variable(Use { name, decl }));
            Ok(ctype)
        }
        Some(Entity::AnEnumerator(enumerator)) => {
            put(
                kind,
                ExprKind::Number(i128::from(enumerator.value), Some(CInt::I32)),
            );
            Ok(CType::Int(CInt::I32))
        }
        None => {
            if sight.functions.called(name).is_some() {
                Err(no_type(place))
            } else {
                library_name(alloc, sight, place, name, kind)
            }
        }
    }
}

/// A type alone.
pub fn one_type(alloc: Global, t: CType) -> Result<Vec<CType>, AllocError>
    ensures { IfOk result (λ ts. map plain_type ts.items ≡ plain_type t ∷ []) }
{
    Ok(vec![in alloc; t]?)
}

/// The types of the parameters of a function of the library.
fn library_params(alloc: Global, f: LibraryFunction) -> Result<Vec<CType>, AllocError>
    ensures { (x : ℕ) → IfOk result (λ ts. map plain_type ts.items ≡ (signature_of x f).params) }
{
    match f {
        LibraryFunction::Getchar => Ok(Vec::new(alloc)),
        LibraryFunction::Putchar | LibraryFunction::Exit => one_type(alloc, CType::Int(CInt::I32)),
        LibraryFunction::Malloc => one_type(alloc, CType::Int(CInt::U64)),
        LibraryFunction::Calloc => {
            Ok(vec![in alloc; CType::Int(CInt::U64), CType::Int(CInt::U64)]?)
        }
        LibraryFunction::Free => {
            let t = pointer_to_void(alloc)?;
            one_type(alloc, t)
        }
        LibraryFunction::Printf => {
            let t = pointer_to_char(alloc)?;
            one_type(alloc, t)
        }
    }
}

/// The type of what a function of the library gives.
fn library_result(alloc: Global, f: LibraryFunction) -> Result<CType, AllocError>
    ensures { (x : ℕ) → IfOk result (λ t. plain_type t ≡ (signature_of x f).result) }
{
    match f {
        LibraryFunction::Putchar | LibraryFunction::Getchar => Ok(CType::Int(CInt::I32)),
        LibraryFunction::Exit | LibraryFunction::Free | LibraryFunction::Printf => Ok(CType::Void),
        LibraryFunction::Malloc | LibraryFunction::Calloc => pointer_to_void(alloc),
    }
}

/// What a function of the library tells its callers.
fn library_signature(alloc: Global, name: u32, f: LibraryFunction) -> Result<Signature, AllocError>
    ensures { IfOk result (λ s. plain_signature s ≡ signature_of name f) }
{
    let result = library_result(alloc, f)?;
    let params = library_params(alloc, f)?;
    Ok(Signature {
        name,
        decl: Use::LIBRARY,
        defined: true,
        params,
        result,
    })
}

/// A function that is called, where the file defines it and it isn't `main`.
fn callable(place: Place, bytes: &[u8], f: Signature) -> Result<Signature, TypeFault>
    ensures callable { Answers plain_signature (callable place bytes.now (plain_signature f)) result }
    ensures sure { IfErr result IsRefusal }
{
    if !f.defined {
        return Err(no_name(place));
    }
    if bytes == b"main".as_slice() {
        return Err(no_type(place));
    }
    Ok(f)
}

/// A name that is called and is no function's: a constant of the library, or unknown.
fn no_function(sight: &Sight, place: Place, name: u32) -> Result<Signature, TypeFault>
    ensures typed { Answers plain_signature (no_function (plain_sight sight.now) place name) result }
    ensures sure { IfErr result IsRefusal }
{
    if library_constant(name_at(&sight.names, name)).is_some() || is_null_word(sight, name) {
        Err(no_type(place))
    } else {
        Err(no_name(place))
    }
}

/// The function of the library that is called, where it is built.
fn library_callee(
    alloc: Global,
    sight: &Sight,
    place: Place,
    name: u32,
) -> Result<Signature, TypeFault>
    ensures { Answers plain_signature (library_callee (plain_sight sight.now) place name) result }
{
    match library_function(name_at(&sight.names, name)) {
        Some(f) => {
            let f = library_signature(alloc, name, f)?;
            callable(place, name_at(&sight.names, name), f)
        }
        None => no_function(sight, place, name),
    }
}

/// The function that is called, by its name: the file defines it, and `main` isn't to be called (this profile).
pub fn callee(alloc: Global, sight: &Sight, place: Place, name: u32) -> Result<Signature, TypeFault>
    ensures { Answers plain_signature (callee (plain_sight sight.now) place name) result }
{
    if sight.entities.named(name).is_some() {
        return Err(no_type(place));
    }
    match sight.functions.called(name) {
        Some(f) => {
            let f = copy_signature(alloc, f)?;
            callable(place, name_at(&sight.names, name), f)
        }
        None => library_callee(alloc, sight, place, name),
    }
}

/// The types of a callee's parameters, and none where it has a fault.
pub fn known_params(callee: &Result<Signature, TypeFault>) -> &[CType]
    ensures { map plain_type result.now ≡ known_params callee.now }
{
    match callee {
        Ok(f) => &f.params,
        Err(_) => &[],
    }
}

/// The type of a member of a struct whose members are known (C99 6.5.2.3).
fn member(
    alloc: Global,
    sight: &Sight,
    place: Place,
    t: &CType,
    name: u32,
) -> Result<CType, TypeFault>
    ensures { Answers plain_type (member (plain_sight sight.now) place (plain_type t.now) name) result }
{
    if !is_struct(t) {
        return Err(no_type(place));
    }
    has_size(sight, place, t)?;
    match member_among(members_of(&sight.structs, t), name) {
        None => Err(no_name(place)),
        Some(m) => {
            let ctype = copy_type(alloc, &m.ctype)?;
            Ok(ctype)
        }
    }
}

/// `a.m` (C99 6.5.2.3).
pub fn dot(
    alloc: Global,
    sight: &Sight,
    place: Place,
    name: u32,
    a: &Expr,
) -> Result<CType, TypeFault>
    ensures { Answers (λ t. Node place (plain_type t) (Dot (plain_expr a.now) name))
        (dot (plain_sight sight.now) place name (plain_expr a.now)) result }
{
    member(alloc, sight, place, &a.ctype, name)
}

/// `a->m` (C99 6.5.2.3).
pub fn arrow(
    alloc: Global,
    sight: &Sight,
    place: Place,
    name: u32,
    a: &Expr,
) -> Result<CType, TypeFault>
    ensures { Answers (λ t. Node place (plain_type t) (Arrow (plain_expr a.now) name))
        (arrow (plain_sight sight.now) place name (plain_expr a.now)) result }
{
    match pointed(&a.ctype) {
        None => Err(no_type(place)),
        Some(t) => member(alloc, sight, place, t, name),
    }
}

/// The number of arguments is that of the parameters.
pub fn called(
    alloc: Global,
    place: Place,
    f: &Signature,
    arguments: &[Expr],
) -> Result<CType, TypeFault>
    ensures { Answers (λ t. Node place (plain_type t) (Call (use_as f.now.name f.now.decl) (plain_exprs arguments.now)))
        (call place (plain_signature f.now) (plain_exprs arguments.now)) result }
{
    if arguments.len() == f.params.len() {
        let ctype = copy_type(alloc, &f.result)?;
        Ok(ctype)
    } else {
        Err(no_type(place))
    }
}
