//! Names of annotations (ACSL 2.2): objects, enumerators, constants of the library, and `NULL`.

ghost use Rattle.std.specs.Prelude.{◌≡◌, Some};
ghost use Rattle.c_syntax.specs.Ctypes.{plain_type};
ghost use Rattle.c_syntax.specs.Logic.{Variable};
ghost use Rattle.c_model.specs.AnnotationSights.{binder_named};
ghost use Rattle.c_model.specs.Checked.{Good};
ghost use Rattle.c_model.specs.ExpressionTyping as plain;
ghost use Rattle.c_model.specs.PredicateTyping.{ATerm, formal_value, library_term, named_in_c, null, object_place, range_to_infer, term_named};
ghost use Rattle.c_scopes.specs.Answers.{Answers};
ghost use Rattle.c_scopes.specs.Entity.{plain_object};
ghost use Rattle.c_scopes.specs.Sights.{plain_sight};
ghost use Rattle.annot_typing.specs.Sights.{annotation_sight, form_sight, plain_clause};
ghost use Rattle.annot_typing.specs.Sorts.{plain_sorted};

use crate::clause_sight::{ClauseSight, FormSight, is_formal};
use crate::label::at_label;
use crate::sorted::{Sorted, integer, place_of, pointer, term_of};
use c_expression_rules::call::is_null_word;
use c_scopes::entity::{Entity, Object};
use c_scopes::fault::{TypeFault, no_name};
use c_scopes::library::library_constant;
use c_scopes::sight::{Sight, name_at};
use c_syntax::copy::copy_type;
use c_syntax::logic::{Label, TermKind};
use c_syntax::{CType, Place, Use};
use std::alloc::Global;

/// The value of a parameter in an `ensures`, at the beginning of the call; under a label it is that of the label.
fn formal_value(
    alloc: Global,
    clause: ClauseSight<'_>,
    place: Place,
    used: Use,
    ctype: &CType,
) -> Result<Sorted, TypeFault>
    ensures { (s : plain.Sight) → Answers plain_sorted
        (Good (ATerm (formal_value (plain_clause s clause.entry) (Variable place (Some (plain_type ctype.now)) range_to_infer used)))) result }
{
    let variable_type = copy_type(alloc, ctype)?;
    let t = term_of(alloc, place, TermKind::Variable(used), Some(variable_type))?;
    match clause {
        ClauseSight::AtEnd(..) => at_label(alloc, place, Label::Pre, Sorted::Term(t)),
        ClauseSight::InBody(..) | ClauseSight::AtEntry | ClauseSight::UnderLabel(_) => {
            Ok(Sorted::Term(t))
        }
    }
}

/// An object, of any type. A parameter in an `ensures` is a value, and no place.
fn object_place(
    alloc: Global,
    clause: ClauseSight<'_>,
    place: Place,
    name: u32,
    object: &Object,
) -> Result<Sorted, TypeFault>
    ensures { (s : plain.Sight) → Answers plain_sorted (Good (object_place (plain_clause s clause.entry) place name (plain_object object.now))) result }
{
    let decl = object.decl;
    let used = Use { name, decl };
    if is_formal(clause, decl) {
        return formal_value(alloc, clause, place, used, &object.ctype);
    }
    let ctype = copy_type(alloc, &object.ctype)?;
    place_of(alloc, place, TermKind::Variable(used), ctype)
}

/// `\null` and `NULL`: a null pointer of type `void *`.
pub fn null(alloc: Global, place: Place) -> Result<Sorted, TypeFault>
    ensures { Answers plain_sorted (Good (null place)) result }
{
    pointer(alloc, place, TermKind::Null, CType::Void)
}

/// A name of the library: a constant, or `NULL`.
fn library_term(alloc: Global, sight: &Sight, place: Place, name: u32) -> Result<Sorted, TypeFault>
    ensures { Answers plain_sorted (library_term (plain_sight sight.now) place name) result }
{
    match library_constant(name_at(&sight.names, name)) {
        Some((_, n)) => integer(alloc, place, TermKind::Number(n)),
        None => {
            if is_null_word(sight, name) {
                null(alloc, place)
            } else {
                Err(no_name(place))
            }
        }
    }
}

/// What a name of C stands for; that of a function has no meaning in annotations.
fn named_in_c(
    alloc: Global,
    sight: &Sight,
    clause: ClauseSight<'_>,
    place: Place,
    name: u32,
) -> Result<Sorted, TypeFault>
    ensures { Answers plain_sorted (named_in_c (annotation_sight (plain_sight sight.now) clause.entry) place name) result }
{
    match sight.entities.named(name) {
        Some(Entity::AnObject(object)) => object_place(alloc, clause, place, name, object),
        Some(Entity::AnEnumerator(enumerator)) => {
            integer(alloc, place, TermKind::Number(i128::from(enumerator.value)))
        }
        None => library_term(alloc, sight, place, name),
    }
}

/// The place of the innermost binder of a name.
#[tactic(auto, using(crate::proofs::Binders::named_here, crate::proofs::Binders::named_elsewhere))]
fn binder_named(binders: &[(Place, u32)], name: u32) -> Option<Place>
    ensures { result ≡ binder_named name binders.now }
{
    let mut found = None;
    'binders: for binder in binders {
        if name == binder.1 {
            found = Some(binder.0);
        }
    }
    found
}

/// What a name stands for: a binder, or what it does in C.
pub fn term_named(
    alloc: Global,
    sight: &Sight,
    clause: FormSight<'_>,
    place: Place,
    name: u32,
) -> Result<Sorted, TypeFault>
    ensures { Answers plain_sorted (term_named (form_sight (plain_sight sight.now) clause.entry) place name) result }
{
    match binder_named(clause.binders, name) {
        Some(binder) => {
            let decl = binder.offset;
            integer(alloc, place, TermKind::Named(Use { name, decl }))
        }
        None => named_in_c(alloc, sight, clause.clause, place, name),
    }
}
