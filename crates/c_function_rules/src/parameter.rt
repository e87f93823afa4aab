//! Parameters (C99 6.7.5.3): those of a body stand in its scope, and those of a heading in a scope that ends with it.

ghost use Rattle.std.specs.Prelude.{◌≡◌, OnOk, map};
ghost use Rattle.c_syntax.specs.Statements.{plain_decl};
ghost use Rattle.c_model.specs.ExpressionTyping.{inner};
ghost use Rattle.c_model.specs.DeclarationTyping.{typed_parameter};
ghost use Rattle.c_model.specs.UnitTyping.{typed_parameters, with_parameter, with_parameters};
ghost use Rattle.c_scopes.specs.Answers.{Answers};
ghost use Rattle.c_scopes.specs.Sights.{plain_sight};

use c_declaration_rules::declaration::type_parameter;
use c_scopes::fault::TypeFault;
use c_scopes::sight::{Sight, enter, leave, with_object};
use c_syntax::Decl;
use std::alloc::{AllocError, Global};

/// Brings a parameter in sight, where it has a name.
fn see_parameter(alloc: Global, sight: &mut Sight, d: &Decl) -> Result<(), AllocError>
    ensures { OnOk result (plain_sight sight.new ≡ with_parameter (plain_sight sight.old) (plain_decl d.now)) }
{
    if d.named {
        with_object(alloc, sight, d)
    } else {
        Ok(())
    }
}

/// Brings parameters in sight.
pub fn see_parameters(alloc: Global, sight: &mut Sight, params: &[Decl]) -> Result<(), AllocError>
    ensures { OnOk result (plain_sight sight.new ≡ with_parameters (plain_sight sight.old) (map plain_decl params.now)) }
{
    let mut rest = params;
    'turn: while let [d, after @ ..] = rest {
        see_parameter(alloc, sight, d)?;
        rest = after;
    }
    Ok(())
}

/// Types a parameter, and brings it in sight.
fn type_next(alloc: Global, sight: &mut Sight, defined: bool, d: &mut Decl) -> Result<(), TypeFault>
    ensures typed { Answers (λ _. plain_decl d.new) (typed_parameter (plain_sight sight.old) defined (plain_decl d.old)) result }
    ensures behind { OnOk result (plain_sight sight.new ≡ with_parameter (plain_sight sight.old) (plain_decl d.new)) }
{
    type_parameter(alloc, sight, defined, d)?;
    see_parameter(alloc, sight, d)?;
    Ok(())
}

/// Types parameters, each in sight of those after it.
fn type_each(
    alloc: Global,
    sight: &mut Sight,
    defined: bool,
    params: &mut Vec<Decl>,
) -> Result<(), TypeFault>
    ensures typed { Answers (λ _. map plain_decl params.new.items) (typed_parameters (plain_sight sight.old) defined (map plain_decl params.old.items)) result }
    ensures behind { OnOk result (plain_sight sight.new ≡ with_parameters (plain_sight sight.old) (map plain_decl params.new.items)) }
{
    for i in 0..params.len() {
        type_next(alloc, sight, defined, &mut params[i])?;
    }
    Ok(())
}

/// Types the parameters of a heading, whose scope ends with it.
pub fn type_parameters(
    alloc: Global,
    sight: &mut Sight,
    defined: bool,
    params: &mut Vec<Decl>,
) -> Result<(), TypeFault>
    ensures typed { Answers (λ _. map plain_decl params.new.items)
        (typed_parameters (inner (plain_sight sight.old)) defined (map plain_decl params.old.items)) result }
    ensures same { OnOk result (plain_sight sight.new ≡ plain_sight sight.old) }
{
    let mark = enter(sight);
    type_each(alloc, sight, defined, params)?;
    leave(sight, mark);
    Ok(())
}
