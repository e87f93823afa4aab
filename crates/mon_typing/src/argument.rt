//! Arguments of calls, in order. A wrong number of them is a fault at the call's `(`.

ghost use Rattle.std.specs.Prelude.{◌≡◌, ℕ, List, map, bytes_eq};
ghost use Rattle.c_syntax.specs.declared.annotation.Kind.{Kind};
ghost use Rattle.c_model.specs.Reports.{kind_word};
ghost use Rattle.mon_syntax.specs.Trees.{plain_expr, MonExpression, MonStatement};
ghost use Rattle.mon_syntax.specs.Parsed.{ParsedArgument};
ghost use Rattle.mon_syntax.specs.Arithmetic.{access_bytes, copy_bytes};
ghost use Rattle.mon_syntax.specs.declared.tree.AccessSize.{AccessSize};
ghost use Rattle.mon_syntax.specs.declared.tree.CopySize.{CopySize};
ghost use Rattle.mon_syntax.specs.Checking.{value_of_type, number_given, small_number, size_with, sizes, size_named};
ghost use Rattle.mon_syntax.specs.Checking.{copy_sizes, copy_size_named, string, kinds, kind_of, kind_named, others, wrong_number};
ghost use Rattle.mon_syntax.specs.Checking.{no_more, arguments_of};
ghost use Rattle.mon_parser.specs.ParsedTrees as read;
ghost use Rattle.mon_typing.specs.Answers.{Fails, Gives};
ghost use Rattle.mon_typing.specs.Arguments.{first_of, only_copy_size, only_kind, only_size, only_value, only_string};
ghost use Rattle.mon_typing.specs.Scopes.{plain_scope};

use crate::expression::{checked_expression, of_type, place_of};
use crate::fault::CheckFault;
use crate::scope::Scope;
use c_syntax::{Kind, Name, Place};
use mon_parser::parsed::ParsedArg;
use mon_syntax::{AccessSize, CopySize, MonExpr, MonType, kind_word};
use std::alloc::Global;

fn value_of_type(
    alloc: Global,
    scope: &Scope,
    kind: MonType,
    argument: &ParsedArg,
) -> Result<MonExpr, CheckFault>
    ensures { Gives plain_expr result (value_of_type (plain_scope scope.now) kind (read.plain_arg argument.now)) }
{
    match argument {
        ParsedArg::Value(e) => of_type(alloc, scope, kind, place_of(e), e),
        ParsedArg::Number(place, _) => Err(CheckFault::BadType(*place)),
        ParsedArg::Text(place, _) => Err(CheckFault::BadType(*place)),
    }
}

fn number_given(
    alloc: Global,
    scope: &Scope,
    argument: &ParsedArg,
) -> Result<(u128, Place), CheckFault>
    ensures { Gives (λ n. n) result (number_given (plain_scope scope.now) (read.plain_arg argument.now)) }
{
    match argument {
        ParsedArg::Value(e) => {
            checked_expression(alloc, scope, e)?;
            Err(CheckFault::BadType(place_of(e)))
        }
        ParsedArg::Number(place, value) => Ok((value.unsigned_abs(), *place)),
        ParsedArg::Text(place, _) => Err(CheckFault::BadType(*place)),
    }
}

/// A number of at most 4,294,967,295.
fn small_number(alloc: Global, scope: &Scope, argument: &ParsedArg) -> Result<u32, CheckFault>
    ensures { Gives (λ n. n) result (small_number (plain_scope scope.now) (read.plain_arg argument.now)) }
{
    let (value, place) = number_given(alloc, scope, argument)?;
    match u32::try_from(value) {
        Ok(small) => Ok(small),
        Err(_) => Err(CheckFault::BadType(place)),
    }
}

/// A number of bytes of which a question asks.
fn size_of(number: u128) -> Option<AccessSize>
    ensures { result ≡ size_with access_bytes sizes number }
{
    match number {
        1 => Some(AccessSize::One),
        2 => Some(AccessSize::Two),
        4 => Some(AccessSize::Four),
        8 => Some(AccessSize::Eight),
        16 => Some(AccessSize::Sixteen),
        _ => None,
    }
}

/// A number of bytes that a copy takes.
fn copy_size_of(number: u128) -> Option<CopySize>
    ensures { result ≡ size_with copy_bytes copy_sizes number }
{
    match number {
        1 => Some(CopySize::One),
        2 => Some(CopySize::Two),
        4 => Some(CopySize::Four),
        8 => Some(CopySize::Eight),
        _ => None,
    }
}

fn size_named(alloc: Global, scope: &Scope, argument: &ParsedArg) -> Result<AccessSize, CheckFault>
    ensures { Gives (λ a. a) result (size_named (plain_scope scope.now) (read.plain_arg argument.now)) }
{
    let (value, place) = number_given(alloc, scope, argument)?;
    match size_of(value) {
        Some(size) => Ok(size),
        None => Err(CheckFault::BadType(place)),
    }
}

fn copy_size_named(
    alloc: Global,
    scope: &Scope,
    argument: &ParsedArg,
) -> Result<CopySize, CheckFault>
    ensures { Gives (λ a. a) result (copy_size_named (plain_scope scope.now) (read.plain_arg argument.now)) }
{
    let (value, place) = number_given(alloc, scope, argument)?;
    match copy_size_of(value) {
        Some(size) => Ok(size),
        None => Err(CheckFault::BadType(place)),
    }
}

fn string<'a>(
    alloc: Global,
    scope: &Scope,
    argument: &'a ParsedArg,
) -> Result<(&'a Name, Place), CheckFault>
    ensures { Gives (λ w. (w.0.now, w.1)) result (string (plain_scope scope.now) (read.plain_arg argument.now)) }
{
    match argument {
        ParsedArg::Value(e) => {
            checked_expression(alloc, scope, e)?;
            Err(CheckFault::BadType(place_of(e)))
        }
        ParsedArg::Number(place, _) => Err(CheckFault::BadType(*place)),
        ParsedArg::Text(place, text) => Ok((text, *place)),
    }
}

fn names_kind(word: &[u8], kind: Kind) -> bool
    ensures { result ≡ bytes_eq (kind_word kind) word.now }
{
    kind_word(kind).as_bytes() == word
}

/// The kind of annotation that the word names.
fn kind_of(word: &[u8]) -> Option<Kind>
    ensures { result ≡ kind_of kinds word.now }
{
    if names_kind(word, Kind::Assert) {
        Some(Kind::Assert)
    } else if names_kind(word, Kind::Requires) {
        Some(Kind::Requires)
    } else if names_kind(word, Kind::Assumes) {
        Some(Kind::Assumes)
    } else if names_kind(word, Kind::Ensures) {
        Some(Kind::Ensures)
    } else if names_kind(word, Kind::Complete) {
        Some(Kind::Complete)
    } else if names_kind(word, Kind::Disjoint) {
        Some(Kind::Disjoint)
    } else if names_kind(word, Kind::Invariant) {
        Some(Kind::Invariant)
    } else if names_kind(word, Kind::Variant) {
        Some(Kind::Variant)
    } else if names_kind(word, Kind::Rte) {
        Some(Kind::Rte)
    } else {
        None
    }
}

fn kind_named(alloc: Global, scope: &Scope, argument: &ParsedArg) -> Result<Kind, CheckFault>
    ensures { Gives (λ k. k) result (kind_named (plain_scope scope.now) (read.plain_arg argument.now)) }
{
    let (word, place) = string(alloc, scope, argument)?;
    match kind_of(word.bytes()) {
        Some(kind) => Ok(kind),
        None => Err(CheckFault::BadType(place)),
    }
}

/// Arguments of which nothing is demanded, each by itself.
fn others(alloc: Global, scope: &Scope, arguments: &[ParsedArg]) -> Result<(), CheckFault>
    ensures { Gives (λ u. tt) result (others (plain_scope scope.now) (map read.plain_arg arguments.now)) }
{
    'each: for argument in arguments {
        match argument {
            ParsedArg::Value(e) => {
                checked_expression(alloc, scope, e)?;
            }
            ParsedArg::Number(_, _) | ParsedArg::Text(_, _) => {}
        }
    }
    Ok(())
}

/// The fault of arguments of which there are too many.
pub fn wrong_number(
    alloc: Global,
    scope: &Scope,
    place: Place,
    arguments: &[ParsedArg],
) -> CheckFault
    ensures { Fails result (wrong_number {A = MonStatement} (plain_scope scope.now) place (map read.plain_arg arguments.now)) }
{
    match others(alloc, scope, arguments) {
        Ok(()) => CheckFault::BadType(place),
        Err(fault) => fault,
    }
}

/// No more arguments.
pub fn no_more(
    alloc: Global,
    scope: &Scope,
    place: Place,
    arguments: &[ParsedArg],
) -> Result<(), CheckFault>
    ensures { Gives (λ u. tt) result (no_more {A = Unit {0}} (plain_scope scope.now) place (map read.plain_arg arguments.now) tt) }
{
    if arguments.is_empty() {
        return Ok(());
    }
    others(alloc, scope, arguments)?;
    Err(CheckFault::BadType(place))
}

/// The first argument, a value of the type, and the others.
pub fn next_value<'a>(
    alloc: Global,
    scope: &Scope,
    place: Place,
    kind: MonType,
    arguments: &'a [ParsedArg],
) -> Result<(MonExpr, &'a [ParsedArg]), CheckFault>
    ensures { let s = plain_scope scope.now in Gives {A = MonExpression × List ParsedArgument} (λ x. (plain_expr x.0, map read.plain_arg x.1.now)) result
        (first_of s place (value_of_type s kind) (map read.plain_arg arguments.now)) }
{
    match arguments {
        [] => Err(CheckFault::BadType(place)),
        [first, more @ ..] => Ok((value_of_type(alloc, scope, kind, first)?, more)),
    }
}

/// The first argument, a number, and the others.
pub fn next_number<'a>(
    alloc: Global,
    scope: &Scope,
    place: Place,
    arguments: &'a [ParsedArg],
) -> Result<(u32, &'a [ParsedArg]), CheckFault>
    ensures { let s = plain_scope scope.now in Gives {A = ℕ × List ParsedArgument} (λ x. (x.0, map read.plain_arg x.1.now)) result
        (first_of s place (small_number s) (map read.plain_arg arguments.now)) }
{
    match arguments {
        [] => Err(CheckFault::BadType(place)),
        [first, more @ ..] => Ok((small_number(alloc, scope, first)?, more)),
    }
}

/// The first argument, the kind of an annotation, and the others.
fn next_kind<'a>(
    alloc: Global,
    scope: &Scope,
    place: Place,
    arguments: &'a [ParsedArg],
) -> Result<(Kind, &'a [ParsedArg]), CheckFault>
    ensures { let s = plain_scope scope.now in Gives {A = Kind × List ParsedArgument} (λ x. (x.0, map read.plain_arg x.1.now)) result
        (first_of s place (kind_named s) (map read.plain_arg arguments.now)) }
{
    match arguments {
        [] => Err(CheckFault::BadType(place)),
        [first, more @ ..] => Ok((kind_named(alloc, scope, first)?, more)),
    }
}

/// One argument, the kind of an annotation, and no others.
pub fn only_kind(
    alloc: Global,
    scope: &Scope,
    place: Place,
    arguments: &[ParsedArg],
) -> Result<Kind, CheckFault>
    ensures { Gives (λ k. k) result (only_kind (plain_scope scope.now) place (map read.plain_arg arguments.now)) }
{
    let (kind, more) = next_kind(alloc, scope, place, arguments)?;
    no_more(alloc, scope, place, more)?;
    Ok(kind)
}

/// The first argument, a number of bytes, and the others.
fn next_size<'a>(
    alloc: Global,
    scope: &Scope,
    place: Place,
    arguments: &'a [ParsedArg],
) -> Result<(AccessSize, &'a [ParsedArg]), CheckFault>
    ensures { let s = plain_scope scope.now in Gives {A = AccessSize × List ParsedArgument} (λ x. (x.0, map read.plain_arg x.1.now)) result
        (first_of s place (size_named s) (map read.plain_arg arguments.now)) }
{
    match arguments {
        [] => Err(CheckFault::BadType(place)),
        [first, more @ ..] => Ok((size_named(alloc, scope, first)?, more)),
    }
}

/// One argument, a number of bytes, and no others.
pub fn only_size(
    alloc: Global,
    scope: &Scope,
    place: Place,
    arguments: &[ParsedArg],
) -> Result<AccessSize, CheckFault>
    ensures { Gives (λ a. a) result (only_size (plain_scope scope.now) place (map read.plain_arg arguments.now)) }
{
    let (size, more) = next_size(alloc, scope, place, arguments)?;
    no_more(alloc, scope, place, more)?;
    Ok(size)
}

/// The first argument, a number of bytes that a copy takes, and the others.
fn next_copy_size<'a>(
    alloc: Global,
    scope: &Scope,
    place: Place,
    arguments: &'a [ParsedArg],
) -> Result<(CopySize, &'a [ParsedArg]), CheckFault>
    ensures { let s = plain_scope scope.now in Gives {A = CopySize × List ParsedArgument} (λ x. (x.0, map read.plain_arg x.1.now)) result
        (first_of s place (copy_size_named s) (map read.plain_arg arguments.now)) }
{
    match arguments {
        [] => Err(CheckFault::BadType(place)),
        [first, more @ ..] => Ok((copy_size_named(alloc, scope, first)?, more)),
    }
}

/// One argument, a number of bytes that a copy takes, and no others.
pub fn only_copy_size(
    alloc: Global,
    scope: &Scope,
    place: Place,
    arguments: &[ParsedArg],
) -> Result<CopySize, CheckFault>
    ensures { Gives (λ a. a) result (only_copy_size (plain_scope scope.now) place (map read.plain_arg arguments.now)) }
{
    let (size, more) = next_copy_size(alloc, scope, place, arguments)?;
    no_more(alloc, scope, place, more)?;
    Ok(size)
}

/// One argument, a value of the type, and no others.
pub fn only_value(
    alloc: Global,
    scope: &Scope,
    place: Place,
    kind: MonType,
    arguments: &[ParsedArg],
) -> Result<MonExpr, CheckFault>
    ensures { Gives plain_expr result (only_value (plain_scope scope.now) place kind (map read.plain_arg arguments.now)) }
{
    let (value, more) = next_value(alloc, scope, place, kind, arguments)?;
    no_more(alloc, scope, place, more)?;
    Ok(value)
}

/// One argument, a string, and no others.
pub fn only_string<'a>(
    alloc: Global,
    scope: &Scope,
    place: Place,
    arguments: &'a [ParsedArg],
) -> Result<&'a Name, CheckFault>
    ensures { Gives (λ w. w.now) result (only_string (plain_scope scope.now) place (map read.plain_arg arguments.now)) }
{
    match arguments {
        [] => Err(CheckFault::BadType(place)),
        [first, more @ ..] => {
            let (text, _) = string(alloc, scope, first)?;
            no_more(alloc, scope, place, more)?;
            Ok(text)
        }
    }
}

/// The values, after which there are no more arguments.
#[tactic(auto, using(crate::proofs::Parts::more_fails, crate::proofs::Parts::none_more))]
fn all_values(
    alloc: Global,
    scope: &Scope,
    place: Place,
    values: Vec<MonExpr>,
    arguments: &[ParsedArg],
) -> Result<Vec<MonExpr>, CheckFault>
    ensures { Gives (λ v. map plain_expr v.items) result (no_more (plain_scope scope.now) place (map read.plain_arg arguments.now)
        (map plain_expr values.items)) }
{
    no_more(alloc, scope, place, arguments)?;
    Ok(values)
}

/// Values of these types, and no other arguments.
pub fn values_of(
    alloc: Global,
    scope: &Scope,
    place: Place,
    kinds: &[MonType],
    arguments: &[ParsedArg],
) -> Result<Vec<MonExpr>, CheckFault>
    ensures { Gives (λ v. map plain_expr v.items) result (arguments_of (plain_scope scope.now) place kinds.now (map read.plain_arg arguments.now)) }
{
    let mut values = Vec::new(alloc);
    let mut rest = arguments;
    'each: for kind in kinds {
        let (value, more) = next_value(alloc, scope, place, *kind, rest)?;
        values.push(value)?;
        rest = more;
    }
    all_values(alloc, scope, place, values, rest)
}
