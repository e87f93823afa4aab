//! The types of objects, parameters and results (C99 6.7 p7, 6.7.5.3, 6.7.8 p14, p22, 6.9.1 p3).

ghost use Rattle.std.specs.Prelude.{◌≡◌, IfErr, IfOk, OnOk, length, option_map, true};
ghost use Rattle.c_syntax.specs.Ctypes.{Array, PlainType, Ptr, plain_length, plain_type};
ghost use Rattle.c_syntax.specs.Expressions.{plain_expr};
ghost use Rattle.c_syntax.specs.Statements.{plain_init, plain_inits};
ghost use Rattle.c_model.specs.ExpressionTyping.{known_type, typed_type};
ghost use Rattle.c_model.specs.Library.{is_there};
ghost use Rattle.c_model.specs.DeclarationTyping.{completed, elements_of_parameter, items_in, known_parameter_type, length_by, pointer_where_array};
ghost use Rattle.c_model.specs.DeclarationTyping.{scalar_type, text_read, typed_outer, typed_parameter_type, typed_result};
ghost use Rattle.c_scopes.specs.Answers.{Answers, IfTold, IsRefusal};
ghost use Rattle.c_scopes.specs.Sights.{plain_sight};
ghost use Rattle.c_declaration_rules.specs.Objects.{bytes_alone, bytes_read, is_left, object_typed, plain_maybe_init};
ghost use Rattle.c_declaration_rules.specs.Objects.{function_result, sized_object, typed_pointed, written_result};

use c_conversions::conversion::{is_character, is_scalar, is_struct, is_void};
use c_expression_rules::expression::{type_elements, type_length, type_written};
use c_expression_rules::operator::has_size;
use c_expression_rules::text::count_with_zero;
use c_expression_rules::types::limited;
use c_scopes::fault::{TypeFault, both, no_name, no_type};
use c_scopes::limits::{KnownSize, number, sized};
use c_scopes::literal::literal_at;
use c_scopes::sight::Sight;
use c_syntax::{CType, Expr, ExprKind, Init, Length, Place};
use std::alloc::{AllocError, Global};
use std::mem::replace;

fn is_left(n: &Length) -> bool
    ensures { result ≡ is_left (plain_length n.now) }
{
    matches!(n, Length::Left)
}

/// Types the type of an object that has an initialiser, which may give the first length of an array.
fn type_completable(
    alloc: Global,
    sight: &Sight,
    place: Place,
    t: &mut CType,
) -> Result<(), TypeFault>
    ensures typed { Answers (λ _. plain_type t.new) (typed_outer true (plain_sight sight.now) place (plain_type t.old)) result }
    ensures known { IfTold result (plain_type t.new ≡ known_type (plain_sight sight.now) (plain_type t.old)) }
{
    match t {
        CType::Array(u, Length::Left) => type_elements(alloc, sight, place, u),
        _ => type_written(alloc, sight, place, t),
    }
}

/// Types the type of an object as it is written; the first length of an array may be left out, where so much is said.
fn type_outer(
    alloc: Global,
    sight: &Sight,
    may_leave: bool,
    place: Place,
    t: &mut CType,
) -> Result<(), TypeFault>
    ensures typed { Answers (λ _. plain_type t.new) (typed_outer may_leave (plain_sight sight.now) place (plain_type t.old)) result }
    ensures known { IfTold result (plain_type t.new ≡ known_type (plain_sight sight.now) (plain_type t.old)) }
{
    if may_leave {
        type_completable(alloc, sight, place, t)
    } else {
        type_written(alloc, sight, place, t)
    }
}

/// The count of bytes of the string literal that an expression is, where it is one.
fn text_of(sight: &Sight, e: &Expr) -> Option<usize>
    ensures { result ≡ bytes_read (plain_sight sight.now) (plain_expr e.now) }
{
    match &*e.kind {
        ExprKind::Text(offset) => match literal_at(&sight.texts, *offset) {
            None => None,
            Some((_, count)) => Some(count),
        },
        _ => None,
    }
}

/// The same of a list that is one expression.
fn text_alone(sight: &Sight, items: &[Init]) -> Option<usize>
    ensures { result ≡ bytes_alone (plain_sight sight.now) (plain_inits items.now) }
{
    match items {
        [Init::One(e)] => text_of(sight, e),
        _ => None,
    }
}

/// The count of bytes of a string literal, where an initialiser that is read is one, in braces or without.
fn text_read(sight: &Sight, init: &Init) -> Option<usize>
    ensures { result ≡ option_map length (text_read (plain_sight sight.now) (plain_init init.now)) }
{
    match init {
        Init::One(e) => text_of(sight, e),
        Init::Many(_, items) => text_alone(sight, items.as_slice()),
    }
}

/// As many elements as an initialiser has: one expression is none that fits.
fn items_in(init: &Init) -> usize
    ensures { result ≡ items_in (plain_init init.now) }
{
    match init {
        Init::One(_) => 1,
        Init::Many(_, items) => items.len(),
    }
}

/// The length that an initialiser gives to an array of these elements (C99 6.7.8 p14, p22).
fn length_by(sight: &Sight, element: &CType, init: &Init) -> Result<u32, AllocError>
    ensures { IfOk result (λ n. n ≡ length_by (plain_sight sight.now) (plain_type element.now) (plain_init init.now)) }
{
    match text_read(sight, init) {
        Some(count) if is_character(element) => count_with_zero(count),
        _ => number(items_in(init) as u64),
    }
}

/// Puts the length that an initialiser gives in its place, where it was left out.
fn complete(sight: &Sight, init: &Option<(Place, Init)>, t: &mut CType) -> Result<(), AllocError>
    ensures { OnOk result (plain_type t.new ≡ completed (plain_sight sight.now) (plain_type t.old) (plain_maybe_init init.now)) }
{
    match (init, t) {
        (Some((_, init)), CType::Array(u, n)) if is_left(n) => {
            let count = length_by(sight, u, init)?;
            drop(replace(n, Length::Count(count)));
            Ok(())
        }
        _ => Ok(()),
    }
}

fn has_initialiser(init: &Option<(Place, Init)>) -> bool
    ensures { result ≡ is_there (plain_maybe_init init.now) }
{
    init.is_some()
}

/// Types the type of an object with the length that its initialiser gives, where it gives one.
fn type_sized_object(
    alloc: Global,
    sight: &Sight,
    place: Place,
    init: &Option<(Place, Init)>,
    t: &mut CType,
) -> Result<(), TypeFault>
    ensures typed { Answers (λ _. plain_type t.new)
        (sized_object (plain_sight sight.now) place (plain_type t.old) (plain_maybe_init init.now)) result }
    ensures known { IfTold result (plain_type t.new
        ≡ completed (plain_sight sight.now) (known_type (plain_sight sight.now) (plain_type t.old)) (plain_maybe_init init.now)) }
{
    let written = type_outer(alloc, sight, has_initialiser(init), place, t);
    complete(sight, init, t)?;
    written?;
    has_size(sight, place, t)
}

/// Types the type of a declared object (C99 6.7 p7, 6.7.8 p22), which passes no limit.
pub fn type_object(
    alloc: Global,
    sight: &Sight,
    place: Place,
    init: &Option<(Place, Init)>,
    t: &mut CType,
) -> Result<(), TypeFault>
    ensures { Answers (λ _. plain_type t.new)
        (object_typed (plain_sight sight.now) place (plain_type t.old) (plain_maybe_init init.now)) result }
{
    let object = type_sized_object(alloc, sight, place, init, t);
    limited(sight, place, t, object)
}

/// Puts a pointer to the elements in the place of an array's type.
fn point_to_elements(t: &mut CType)
    ensures { plain_type t.new ≡ pointer_where_array (plain_type t.old) }
{
    let now = match replace(t, CType::Void) {
        CType::Array(u, n) => {
            drop(n);
            CType::Ptr(u)
        }
        other => other,
    };
    drop(replace(t, now));
}

/// A type that a parameter that is written as an array has elements of: of a struct that isn't known yet, they are pointed to.
fn is_element(sight: &Sight, place: Place, t: &CType) -> Result<(), TypeFault>
    ensures checked { Answers (λ _. Ptr (plain_type t.now)) (elements_of_parameter (plain_sight sight.now) place (plain_type t.now)) result }
    ensures sure { IfErr result IsRefusal }
{
    match sized(&sight.structs, t) {
        KnownSize::HasNoSize => Err(no_type(place)),
        KnownSize::HasSize | KnownSize::NotYet => Ok(()),
    }
}

/// Types the type of the elements of a parameter that is written as an array.
fn type_pointed(alloc: Global, sight: &Sight, place: Place, u: &mut CType) -> Result<(), TypeFault>
    ensures typed { Answers (λ _. Ptr (plain_type u.new)) (typed_pointed (plain_sight sight.now) place (plain_type u.old)) result }
    ensures known { IfTold result (plain_type u.new ≡ known_type (plain_sight sight.now) (plain_type u.old)) }
{
    type_written(alloc, sight, place, u)?;
    is_element(sight, place, u)
}

/// Types the parts of a parameter's type that is written as an array.
fn type_parameter_array(
    alloc: Global,
    sight: &Sight,
    place: Place,
    u: &mut CType,
    n: &mut Length,
) -> Result<(), TypeFault>
    ensures typed { Answers (λ _. Ptr (plain_type u.new))
        (typed_parameter_type (plain_sight sight.now) place (Array (plain_type u.old) (plain_length n.old))) result }
    ensures known { IfTold result (plain_type u.new ≡ known_type (plain_sight sight.now) (plain_type u.old)) }
{
    let pointed = type_pointed(alloc, sight, place, u);
    if is_left(n) {
        pointed
    } else {
        both(pointed, type_length(alloc, sight, place, n))
    }
}

/// Types the parts of a parameter's type, which is a pointer where it is an array.
fn type_parameter_parts(
    alloc: Global,
    sight: &Sight,
    place: Place,
    t: &mut CType,
) -> Result<(), TypeFault>
    ensures typed { Answers (λ _. pointer_where_array (plain_type t.new)) (typed_parameter_type (plain_sight sight.now) place (plain_type t.old)) result }
    ensures known { IfTold result (pointer_where_array (plain_type t.new) ≡ known_parameter_type (plain_sight sight.now) (plain_type t.old)) }
{
    match t {
        CType::Array(u, n) => type_parameter_array(alloc, sight, place, u, n),
        _ => type_written(alloc, sight, place, t),
    }
}

/// Types the type of a parameter; the first array is a pointer (C99 6.7.5.3 p7).
pub fn type_parameter_type(
    alloc: Global,
    sight: &Sight,
    place: Place,
    t: &mut CType,
) -> Result<(), TypeFault>
    ensures typed { Answers (λ _. plain_type t.new) (typed_parameter_type (plain_sight sight.now) place (plain_type t.old)) result }
    ensures known { IfTold result (plain_type t.new ≡ known_parameter_type (plain_sight sight.now) (plain_type t.old)) }
{
    let typed = type_parameter_parts(alloc, sight, place, t);
    point_to_elements(t);
    typed
}

/// A parameter or a result is a scalar; a definition needs the size of a struct (C99 6.7.5.3 p4, 6.9.1 p3).
pub fn check_scalar(sight: &Sight, defined: bool, place: Place, t: &CType) -> Result<(), TypeFault>
    ensures checked { Answers (λ _. plain_type t.now) (scalar_type (plain_sight sight.now) defined place (plain_type t.now)) result }
    ensures sure { IfErr result IsRefusal }
{
    if defined && is_struct(t) && sized(&sight.structs, t) == KnownSize::NotYet {
        return Err(no_name(place));
    }
    if is_scalar(t) {
        Ok(())
    } else {
        Err(no_type(place))
    }
}

/// What a function gives: nothing or a scalar.
fn check_result(sight: &Sight, defined: bool, place: Place, t: &CType) -> Result<(), TypeFault>
    ensures { Answers (λ _. plain_type t.now) (function_result (plain_sight sight.now) defined place (plain_type t.now)) result }
{
    if is_void(t) {
        Ok(())
    } else {
        check_scalar(sight, defined, place, t)
    }
}

/// What a function gives, by its type, which is written without a fault, or with one.
fn written_result(
    sight: &Sight,
    defined: bool,
    place: Place,
    written: &Result<(), TypeFault>,
    t: &CType,
) -> Result<(), TypeFault>
    ensures typed { (u : PlainType) → Answers (λ _. plain_type t.now) (typed_type (plain_sight sight.now) place u) written.now
        → Answers (λ _. plain_type t.now) (written_result (plain_sight sight.now) defined place u) result }
    ensures known { (u : PlainType) → IfTold written.now (plain_type t.now ≡ u) → IfTold result (plain_type t.now ≡ u) }
{
    match written {
        Err(f) => Err(*f),
        Ok(()) => check_result(sight, defined, place, t),
    }
}

/// The same at the place of its name, where the type passes no limit.
pub fn result_of(
    sight: &Sight,
    defined: bool,
    place: Place,
    written: &Result<(), TypeFault>,
    t: &CType,
) -> Result<(), TypeFault>
    ensures { (u : PlainType) → Answers (λ _. plain_type t.now) (typed_type (plain_sight sight.now) place u) written.now
        → IfTold written.now (plain_type t.now ≡ known_type (plain_sight sight.now) u)
        → Answers (λ _. plain_type t.now) (typed_result (plain_sight sight.now) defined place u) result }
{
    let given = written_result(sight, defined, place, written, t);
    limited(sight, place, t, given)
}
