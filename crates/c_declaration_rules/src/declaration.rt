//! Declarations of objects, of names of types and of parameters (C99 6.7, 6.7.5.3, 6.7.7).

ghost use Rattle.std.specs.Prelude.{◌≡◌, OnOk};
ghost use Rattle.c_syntax.specs.Ctypes.{plain_type};
ghost use Rattle.c_syntax.specs.Statements.{plain_decl};
ghost use Rattle.c_model.specs.ExpressionTyping.{with_object};
ghost use Rattle.c_model.specs.DeclarationTyping.{known_parameter_type, parameter_name, typed_global, typed_parameter, typed_typedef, typed_variable};
ghost use Rattle.c_scopes.specs.Answers.{Answers, IfTold};
ghost use Rattle.c_scopes.specs.Sights.{plain_sight};
ghost use Rattle.c_declaration_rules.specs.Declarations.{declaration_typed, declarator_typed, initialised, limited_type, limited_declaration};
ghost use Rattle.c_declaration_rules.specs.Declarations.{scalar_parameter, scalar_parts};

use crate::initialiser::type_maybe_initialiser;
use crate::name::{behind, is_declared_in_file, own_name};
use crate::object::{check_scalar, type_object, type_parameter_type};
use c_expression_rules::expression::type_written;
use c_expression_rules::types::limited;
use c_scopes::fault::TypeFault;
use c_scopes::sight::{Sight, declared_here, with_object};
use c_syntax::{CType, Decl, Place};
use std::alloc::Global;

/// Types what a declaration says before its initialiser, which may give its length: its name and its type.
fn type_declarator(
    alloc: Global,
    sight: &Sight,
    declared: bool,
    d: &mut Decl,
) -> Result<(), TypeFault>
    ensures { Answers (λ _. plain_decl d.new) (declarator_typed (plain_sight sight.now) declared (plain_decl d.old)) result }
{
    let name = own_name(sight, declared, d.place, d.name);
    let object = type_object(alloc, sight, d.place, &d.init, &mut d.ctype);
    behind(name, object)
}

/// Types the initialiser of an object, which is in sight there and behind it (C99 6.2.1 p7). That of a global is constant.
fn type_initialised(
    alloc: Global,
    sight: &mut Sight,
    global: bool,
    d: &mut Decl,
) -> Result<(), TypeFault>
    ensures typed { Answers (λ _. plain_decl d.new) (initialised (plain_sight sight.old) global (plain_decl d.old)) result }
    ensures declared { OnOk result (plain_sight sight.new ≡ with_object (plain_sight sight.old) (plain_decl d.new)) }
{
    with_object(alloc, sight, d)?;
    type_maybe_initialiser(alloc, sight, global, &d.ctype, &mut d.init)
}

/// Types a declaration whose name its scope has declared or hasn't, and brings the object in sight behind it.
fn type_declaration(
    alloc: Global,
    sight: &mut Sight,
    declared: bool,
    global: bool,
    d: &mut Decl,
) -> Result<(), TypeFault>
    ensures typed { Answers (λ _. plain_decl d.new) (declaration_typed (plain_sight sight.old) declared global (plain_decl d.old)) result }
    ensures declared { OnOk result (plain_sight sight.new ≡ with_object (plain_sight sight.old) (plain_decl d.new)) }
{
    type_declarator(alloc, sight, declared, d)?;
    type_initialised(alloc, sight, global, d)
}

/// Types the declaration of an object in a block, and brings the object in sight behind it.
pub fn type_variable(alloc: Global, sight: &mut Sight, d: &mut Decl) -> Result<(), TypeFault>
    ensures typed { Answers (λ _. plain_decl d.new) (typed_variable (plain_sight sight.old) (plain_decl d.old)) result }
    ensures declared { OnOk result (plain_sight sight.new ≡ with_object (plain_sight sight.old) (plain_decl d.new)) }
{
    let declared = declared_here(sight, d.name).is_some();
    type_declaration(alloc, sight, declared, false, d)
}

/// Types the declaration of a global, whose initialiser is constant, and brings the global in sight behind it.
pub fn type_global(alloc: Global, sight: &mut Sight, d: &mut Decl) -> Result<(), TypeFault>
    ensures typed { Answers (λ _. plain_decl d.new) (typed_global (plain_sight sight.old) (plain_decl d.old)) result }
    ensures declared { OnOk result (plain_sight sight.new ≡ with_object (plain_sight sight.old) (plain_decl d.new)) }
{
    let declared = is_declared_in_file(sight, d.name);
    type_declaration(alloc, sight, declared, true, d)
}

/// Types a type that is written, and that passes no limit.
fn type_limited(alloc: Global, sight: &Sight, place: Place, t: &mut CType) -> Result<(), TypeFault>
    ensures { Answers (λ _. plain_type t.new) (limited_type (plain_sight sight.now) place (plain_type t.old)) result }
{
    let written = type_written(alloc, sight, place, t);
    limited(sight, place, t, written)
}

/// Types the declaration of a name of a type, whose size need not be known (C99 6.7.7).
fn type_named(alloc: Global, sight: &Sight, d: &mut Decl) -> Result<(), TypeFault>
    ensures { Answers (λ _. plain_decl d.new) (limited_declaration (plain_sight sight.now) (plain_decl d.old)) result }
{
    let name = own_name(sight, is_declared_in_file(sight, d.name), d.place, d.name);
    let ctype = type_limited(alloc, sight, d.place, &mut d.ctype);
    behind(name, ctype)
}

/// Types the declaration of a name of a type, or one without declarators.
pub fn type_typedef(alloc: Global, sight: &Sight, d: &mut Decl) -> Result<(), TypeFault>
    ensures { Answers (λ _. plain_decl d.new) (typed_typedef (plain_sight sight.now) (plain_decl d.old)) result }
{
    if d.named {
        type_named(alloc, sight, d)
    } else {
        type_written(alloc, sight, d.place, &mut d.ctype)
    }
}

/// A parameter's name, where it has one, is new.
fn parameter_name(sight: &Sight, d: &Decl) -> Result<(), TypeFault>
    ensures { Answers (λ u. u) (parameter_name (plain_sight sight.now) (plain_decl d.now)) result }
{
    if d.named {
        own_name(
            sight,
            declared_here(sight, d.name).is_some(),
            d.place,
            d.name,
        )
    } else {
        Ok(())
    }
}

/// Types the type of a parameter, which is a scalar.
fn type_scalar_parts(
    alloc: Global,
    sight: &Sight,
    defined: bool,
    place: Place,
    t: &mut CType,
) -> Result<(), TypeFault>
    ensures typed { Answers (λ _. plain_type t.new) (scalar_parts (plain_sight sight.now) defined place (plain_type t.old)) result }
    ensures known { IfTold result (plain_type t.new ≡ known_parameter_type (plain_sight sight.now) (plain_type t.old)) }
{
    type_parameter_type(alloc, sight, place, t)?;
    check_scalar(sight, defined, place, t)
}

/// Types the type of a parameter, which is a scalar and passes no limit.
fn type_scalar(
    alloc: Global,
    sight: &Sight,
    defined: bool,
    place: Place,
    t: &mut CType,
) -> Result<(), TypeFault>
    ensures { Answers (λ _. plain_type t.new) (scalar_parameter (plain_sight sight.now) defined place (plain_type t.old)) result }
{
    let scalar = type_scalar_parts(alloc, sight, defined, place, t);
    limited(sight, place, t, scalar)
}

/// Types a parameter of a function, which is defined here or isn't (C99 6.7.5.3).
pub fn type_parameter(
    alloc: Global,
    sight: &Sight,
    defined: bool,
    d: &mut Decl,
) -> Result<(), TypeFault>
    ensures { Answers (λ _. plain_decl d.new) (typed_parameter (plain_sight sight.now) defined (plain_decl d.old)) result }
{
    let name = parameter_name(sight, d);
    let ctype = type_scalar(alloc, sight, defined, d.place, &mut d.ctype);
    behind(name, ctype)
}
