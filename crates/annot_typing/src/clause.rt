//! Clauses of annotations (ACSL 2.3, 2.4), which are predicates, or the terms of variants.

ghost use Rattle.std.specs.Prelude.{◌≡◌, map};
ghost use Rattle.c_syntax.specs.Formulas.{plain_form};
ghost use Rattle.c_syntax.specs.Logic.{Raw, plain_annot, plain_body};
ghost use Rattle.c_model.specs.PredicateTyping.{said, typed_annotations, typed_clause};
ghost use Rattle.c_scopes.specs.Answers.{Answers};
ghost use Rattle.c_scopes.specs.Sights.{plain_sight};
ghost use Rattle.annot_typing.specs.Sights.{annotation_sight};
ghost use Rattle.annot_typing.specs.Sorts.{plain_sorted};

use crate::clause_sight::{ClauseSight, FormSight};
use crate::demand::{clause_holds, variant_value};
use crate::form::type_value;
use crate::sorted::Sorted;
use c_scopes::fault::TypeFault;
use c_scopes::sight::Sight;
use c_syntax::Kind;
use c_syntax::logic::{Annot, Body, Formula};
use std::alloc::Global;
use std::mem::replace;

/// What a clause of a kind says: a variant is a term, and all others are predicates.
fn said(alloc: Global, kind: Kind, a: Sorted) -> Result<Body, TypeFault>
    ensures { Answers plain_body (said kind (plain_sorted a)) result }
{
    match kind {
        Kind::Variant => {
            let t = variant_value(a)?;
            Ok(Body::Value(t))
        }
        _ => {
            let p = clause_holds(alloc, a)?;
            Ok(Body::Truth(p))
        }
    }
}

/// What a form says as a clause of a kind.
fn type_said(
    alloc: Global,
    sight: &mut Sight,
    clause: ClauseSight<'_>,
    kind: Kind,
    f: &Formula,
) -> Result<Body, TypeFault>
    ensures typed { Answers plain_body (typed_clause (annotation_sight (plain_sight sight.old) clause.entry) kind (Raw (plain_form f.now))) result }
    ensures same { sight.new ≡ sight.old }
{
    let clause = FormSight {
        clause,
        binders: &[],
    };
    let a = type_value(alloc, sight, clause, f)?;
    said(alloc, kind, a)
}

/// Puts another body in the place of one.
fn put(body: &mut Body, by: Body)
    ensures { body.new ≡ by }
{
    drop(replace(body, by));
}

/// Types what a clause of a kind says: a form becomes a predicate, or the term of a variant.
pub fn type_clause(
    alloc: Global,
    sight: &mut Sight,
    clause: ClauseSight<'_>,
    kind: Kind,
    body: &mut Body,
) -> Result<(), TypeFault>
    ensures typed { Answers (λ _. plain_body body.new)
        (typed_clause (annotation_sight (plain_sight sight.old) clause.entry) kind (plain_body body.old)) result }
    ensures same { sight.new ≡ sight.old }
{
    match body {
        Body::Truth(_) => Ok(()),
        Body::Value(_) => Ok(()),
        Body::Names(_) => Ok(()),
        Body::Raw(f) => {
            let said = type_said(alloc, sight, clause, kind, f)?;
            put(body, said);
            Ok(())
        }
    }
}

/// Types annotations in turn: each form becomes a predicate, or the term of a variant. What was in sight before is in sight after it.
pub fn type_clauses(
    alloc: Global,
    sight: &mut Sight,
    clause: ClauseSight<'_>,
    annots: &mut Vec<Annot>,
) -> Result<(), TypeFault>
    ensures typed { Answers (λ _. map plain_annot annots.new.items)
        (typed_annotations (annotation_sight (plain_sight sight.old) clause.entry) (map plain_annot annots.old.items)) result }
    ensures same { sight.new ≡ sight.old }
{
    for i in 0..annots.len() {
        let annot = &mut annots[i];
        type_clause(alloc, sight, clause, annot.kind, &mut annot.body)?;
    }
    Ok(())
}
