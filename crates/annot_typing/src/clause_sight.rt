//! What a clause of an annotation may name where it stands (ACSL 2.3.1, 2.4.3), besides the objects and enumerators in sight.

ghost use Rattle.std.specs.Prelude.{◌≡◌};
ghost use Rattle.c_model.specs.AnnotationSights.{formals_in};
ghost use Rattle.c_model.specs.ExpressionTyping as plain;
ghost use Rattle.c_model.specs.ExpressionTyping.{is_among};
ghost use Rattle.annot_typing.specs.Sights.{plain_clause};

use c_scopes::label::Labels;
use c_scopes::sight::Mark;
use c_scopes::tag::Tags;
use c_syntax::{CType, Place};

/// What a clause may name, besides what is in sight where it stands.
#[derive(Clone, Copy)]
pub enum ClauseSight<'a> {
    /// An assert or a clause of a loop: where the function's body begins, and the labels of C that are known.
    InBody(Mark, &'a Labels),
    /// `requires` and `assumes`.
    AtEntry,
    /// `ensures`, with the numbers of the parameters and the type of the result.
    AtEnd(&'a Tags, &'a CType),
    /// What stands under a label, with the numbers of the parameters where that is in an `ensures`.
    UnderLabel(Option<&'a Tags>),
}

/// What a form of a clause may name, besides what is in sight where the clause stands.
#[derive(Clone, Copy)]
pub struct FormSight<'a> {
    pub clause: ClauseSight<'a>,
    /// The binders of quantifiers, the innermost last, each with the place of its declaration and its name.
    pub binders: &'a [(Place, u32)],
}

/// What is in sight of a term at a label: what a mark tells, and what else it may name.
#[derive(Clone, Copy)]
pub struct View<'a> {
    pub mark: Mark,
    pub clause: FormSight<'a>,
}

/// Whether the number of a declaration is that of a parameter, in an `ensures`.
pub fn is_formal(clause: ClauseSight<'_>, decl: u32) -> bool
    ensures { (s : plain.Sight) → result ≡ is_among decl (formals_in (plain_clause s clause.entry)) }
{
    match clause {
        ClauseSight::AtEnd(formals, _) | ClauseSight::UnderLabel(Some(formals)) => {
            formals.has(decl)
        }
        ClauseSight::InBody(..) | ClauseSight::AtEntry | ClauseSight::UnderLabel(None) => false,
    }
}
