//! Labels of annotations (ACSL 2.4.3), and the result of a function (ACSL 2.3.1).

ghost use Rattle.std.specs.Prelude.{◌≡◌, [], option_map};
ghost use Rattle.c_syntax.specs.declared.logic.Label.TheVariants.{Marked, Pre};
ghost use Rattle.c_model.specs.ExpressionTyping as plain;
ghost use Rattle.c_model.specs.AnnotationSights.{UnderLabel, is_past, label_named, label_of_c, sight_at};
ghost use Rattle.c_model.specs.PredicateTyping.{at_label, has_old, result_in};
ghost use Rattle.c_scopes.specs.Answers.{Answers};
ghost use Rattle.c_scopes.specs.KnownLabels.{known_labels, marks_of, sight_of};
ghost use Rattle.c_scopes.specs.Sights.{plain_sight};
ghost use Rattle.annot_typing.specs.Sights.{annotation_sight, form_sight, formals_of, plain_clause, plain_view};
ghost use Rattle.annot_typing.specs.Sorts.{plain_sorted};

use crate::clause_sight::{ClauseSight, FormSight, View};
use crate::demand::as_term;
use crate::sorted::{Sorted, term_of};
use c_conversions::conversion::is_void;
use c_scopes::entity::RESULT;
use c_scopes::fault::{TypeFault, no_type};
use c_scopes::label::Labels;
use c_scopes::sight::{Mark, Sight, mark_here, name_at};
use c_scopes::tag::Tags;
use c_syntax::copy::copy_type;
use c_syntax::logic::{Label, TermKind};
use c_syntax::{Place, Use};
use std::alloc::Global;

/// Whether a term at the label doesn't depend on what is now.
pub fn is_past(label: Label) -> bool
    ensures { result ≡ is_past label }
{
    match label {
        Label::Here => false,
        Label::Pre | Label::Marked(_) => true,
    }
}

/// Whether `\old` stands there.
pub fn has_old(clause: ClauseSight<'_>) -> bool
    ensures { (s : plain.Sight) → result ≡ has_old (plain_clause s clause.entry) }
{
    match clause {
        ClauseSight::AtEnd(..) => true,
        ClauseSight::InBody(..) | ClauseSight::AtEntry | ClauseSight::UnderLabel(_) => false,
    }
}

/// The label of C that has the name.
#[tactic(auto, using(c_scopes::proofs::Labels::marked_is))]
fn label_of_c(labels: &Labels, name: u32) -> Option<Label>
    ensures { (s : plain.Sight) → result ≡ label_of_c name (known_labels s (marks_of labels.now)) }
{
    match labels.named(name) {
        None => None,
        Some(_) => Some(Label::Marked(name)),
    }
}

/// What the name of a label stands for: `Post` is `Here`, and `Old` is `Pre`.
pub fn label_named(sight: &Sight, clause: ClauseSight<'_>, name: u32) -> Option<Label>
    ensures { result ≡ label_named (annotation_sight (plain_sight sight.now) clause.entry) name }
{
    let word = name_at(&sight.names, name);
    if word == b"Here".as_slice() {
        return Some(Label::Here);
    }
    match clause {
        ClauseSight::InBody(_, labels) => {
            if word == b"Pre".as_slice() {
                Some(Label::Pre)
            } else {
                label_of_c(labels, name)
            }
        }
        ClauseSight::AtEnd(..) => {
            if word == b"Post".as_slice() {
                Some(Label::Here)
            } else if word == b"Pre".as_slice() || word == b"Old".as_slice() {
                Some(Label::Pre)
            } else {
                None
            }
        }
        ClauseSight::AtEntry | ClauseSight::UnderLabel(_) => None,
    }
}

/// What is in sight under a label, where no binder is, with the numbers of the parameters in an `ensures`.
fn under_label<'a>(mark: Mark, formals: Option<&'a Tags>) -> View<'a>
    ensures { (s : plain.Sight) → plain_view s result
        ≡ record { here = sight_of s mark; labels = []; clause = UnderLabel (formals_of formals.entry); binders = [] } }
{
    let clause = ClauseSight::UnderLabel(formals);
    let clause = FormSight {
        clause,
        binders: &[],
    };
    View { mark, clause }
}

/// What is in sight where the call begins.
fn view_of_beginning<'a>(sight: &Sight, clause: ClauseSight<'a>) -> Option<View<'a>>
    ensures { option_map (plain_view (plain_sight sight.now)) result ≡ sight_at (annotation_sight (plain_sight sight.now) clause.entry) Pre }
{
    match clause {
        ClauseSight::InBody(mark, _) => Some(under_label(mark, None)),
        ClauseSight::AtEnd(formals, _) => Some(under_label(mark_here(sight), Some(formals))),
        ClauseSight::AtEntry | ClauseSight::UnderLabel(_) => None,
    }
}

/// What is in sight at a label of C.
fn view_of_label<'a>(sight: &Sight, clause: ClauseSight<'a>, name: u32) -> Option<View<'a>>
    ensures { option_map (plain_view (plain_sight sight.now)) result ≡ sight_at (annotation_sight (plain_sight sight.now) clause.entry) (Marked name) }
{
    match clause {
        ClauseSight::InBody(_, labels) => match labels.named(name) {
            None => None,
            Some(mark) => Some(under_label(mark, None)),
        },
        ClauseSight::AtEntry | ClauseSight::AtEnd(..) | ClauseSight::UnderLabel(_) => None,
    }
}

/// What is in sight of a term at a label.
pub fn view_at<'a>(sight: &Sight, clause: FormSight<'a>, label: Label) -> Option<View<'a>>
    ensures { option_map (plain_view (plain_sight sight.now)) result ≡ sight_at (form_sight (plain_sight sight.now) clause.entry) label }
{
    match label {
        Label::Here => Some(View {
            mark: mark_here(sight),
            clause,
        }),
        Label::Pre => view_of_beginning(sight, clause.clause),
        Label::Marked(name) => view_of_label(sight, clause.clause, name),
    }
}

/// A term at a label; a predicate is refused at this place.
#[tactic(auto, using(crate::proofs::Kept::type_kept))]
pub fn at_label(alloc: Global, place: Place, label: Label, a: Sorted) -> Result<Sorted, TypeFault>
    ensures { Answers plain_sorted (at_label place label (plain_sorted a)) result }
{
    let t = as_term(place, a)?;
    let ctype = match &t.ctype {
        None => None,
        Some(u) => Some(copy_type(alloc, u)?),
    };
    let t = term_of(alloc, place, TermKind::At(label, t), ctype)?;
    Ok(Sorted::Term(t))
}

/// `\result`, in an `ensures` of a function that gives a value.
pub fn result_in(alloc: Global, clause: ClauseSight<'_>, place: Place) -> Result<Sorted, TypeFault>
    ensures { (s : plain.Sight) → Answers plain_sorted (result_in (plain_clause s clause.entry) place) result }
{
    match clause {
        ClauseSight::AtEnd(_, t) => {
            if is_void(t) {
                return Err(no_type(place));
            }
            let ctype = copy_type(alloc, t)?;
            let result = Use {
                name: RESULT,
                decl: RESULT,
            };
            let t = term_of(alloc, place, TermKind::Named(result), Some(ctype))?;
            Ok(Sorted::Term(t))
        }
        ClauseSight::InBody(..) | ClauseSight::AtEntry | ClauseSight::UnderLabel(_) => {
            Err(no_type(place))
        }
    }
}
