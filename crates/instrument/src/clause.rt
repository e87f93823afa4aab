//! The annotations of loops (ACSL 2.4.2): invariants are asserted; the value of a variant is kept, and compared with the new one.

ghost use Rattle.std.specs.Prelude.{◌≡◌, ◌≤◌, IfOk, OnOk, map, option_map};
ghost use Rattle.c_syntax.specs.Logic.{plain_annot, plain_term};
ghost use Rattle.c_model.specs.Predicates.{variant};
ghost use Rattle.mon_syntax.specs.Trees.{plain_expr, plain_stmts};
ghost use Rattle.c_effects.specs.Expressions.{before};
ghost use Rattle.annot_simulation.specs.Code.{type_of};
ghost use Rattle.annot_simulation.specs.Numbered.{AreNumbered, IsNumbered};
ghost use Rattle.annot_pieces.specs.Plain.{names_with};
ghost use Rattle.annot_pieces.specs.Tables.{plain_plan};
ghost use Rattle.instrument.specs.LoopClauses.{compared_with, smaller, wanted};
ghost use Rattle.instrument.specs.LoopForms.{behind_compared_by, behind_invariant_by, behind_invariants_by, behind_variant_by};
ghost use Rattle.instrument.specs.LoopForms.{compared_by, invariant_by, invariants_by, kept_by, kept_in, plain_kept_variant, plain_variant, value_by};

use annot_code::assertion::{assert_of, assertion};
use annot_code::value_of::{Valued, term_code};
use annot_pieces::kept::Held;
use annot_pieces::plan::{Plan, Stored};
use annot_pieces::width::type_of;
use c_effects::operator::{constant, operation, register};
use c_effects::part::{then, then_all};
use c_syntax::Annot;
use c_syntax::logic::{Body, Term};
use mon_syntax::{MonExpr, MonOp, MonStmt, MonType, Registers};
use std::alloc::{AllocError, Global};

/// The variant of a loop, whose value is in a register of its own while the body of a turn is done.
#[derive(Clone, Copy)]
pub struct KeptVariant<'a> {
    pub annot: &'a Annot,
    pub term: &'a Term,
    pub register: u32,
}

// ---- invariants

// The number and the line of an annotation are of 32 bits.
fn in_bits(number: u32, line: u32)
    ensures number { number ≤ 4294967295 }
    ensures line { line ≤ 4294967295 }
{}

// An invariant is asserted, and a variant is passed over.
fn invariant(
    alloc: Global,
    plan: &Plan<'_>,
    annot: &Annot,
    names: &mut Registers<'_>,
    to: &mut Vec<MonStmt>,
) -> Result<(), AllocError>
    ensures code { OnOk result (plain_stmts to.new.items ≡ before (plain_stmts to.old.items)
        (invariant_by (plain_plan plan.now.kept.now) names.old (plain_annot annot.now))) }
    ensures names { OnOk result (names.new ≡ behind_invariant_by (plain_plan plan.now.kept.now) (plain_annot annot.now) names.old) }
    ensures numbered { OnOk result (IsNumbered (plain_annot annot.now)) }
{
    match &annot.body {
        Body::Value(_) => {
            in_bits(annot.number, annot.place.line);
            Ok(())
        }
        Body::Raw(_) | Body::Truth(_) | Body::Names(_) => {
            let held: Vec<Held> = Vec::new(alloc);
            let stored = Stored { plan, held: &held };
            assertion(alloc, annot, &stored, names, to)
        }
    }
}

/// The invariants among the annotations of a loop, in a function that keeps these terms, are asserted in their order.
pub fn invariants(
    alloc: Global,
    plan: &Plan<'_>,
    annots: &[Annot],
    names: &mut Registers<'_>,
    to: &mut Vec<MonStmt>,
) -> Result<(), AllocError>
    ensures code { OnOk result (plain_stmts to.new.items ≡ before (plain_stmts to.old.items)
        (invariants_by (plain_plan plan.now.kept.now) names.old (map plain_annot annots.now))) }
    ensures names { OnOk result (names.new ≡ behind_invariants_by (plain_plan plan.now.kept.now) (map plain_annot annots.now) names.old) }
    ensures numbered { OnOk result (AreNumbered (map plain_annot annots.now)) }
{
    'annots: for annot in annots {
        invariant(alloc, plan, annot, names, to)?;
    }
    Ok(())
}

// ---- the variant

// The first of the annotations that is a variant, with its term.
fn variant_of<'a>(annots: &'a [Annot]) -> Option<(&'a Annot, &'a Term)>
    ensures { option_map plain_variant result ≡ variant (map plain_annot annots.now) }
{
    'annots: for annot in annots {
        if let Body::Value(term) = &annot.body {
            return Some((annot, term));
        }
    }
    None
}

// The value of a variant; the run ends where there is none. It gives the register of the value.
fn wanted(
    alloc: Global,
    plan: &Plan<'_>,
    variant: (&Annot, &Term),
    names: &mut Registers<'_>,
    to: &mut Vec<MonStmt>,
) -> Result<u32, AllocError>
    ensures value { IfOk result (λ r. r ≡ (value_by (plain_plan plan.now.kept.now) names.old (plain_variant variant.entry)).value) }
    ensures code { OnOk result (plain_stmts to.new.items ≡ before (plain_stmts to.old.items)
        (wanted (plain_annot variant.entry.0.now) (value_by (plain_plan plan.now.kept.now) names.old (plain_variant variant.entry)))) }
    ensures names { OnOk result (names.new ≡ names_with (value_by (plain_plan plan.now.kept.now) names.old (plain_variant variant.entry)).used names.old) }
{
    let (annot, term) = variant;
    let held: Vec<Held> = Vec::new(alloc);
    let stored = Stored { plan, held: &held };
    let Valued { stmts, flag, value } = term_code(alloc, term, &stored, names)?;
    then_all(to, stmts)?;
    let flag = register(alloc, flag)?;
    let always = constant(alloc, MonType::I32, 1)?;
    then(
        alloc,
        to,
        assert_of(flag, always, annot.number, annot.place.line, annot.kind),
    )?;
    Ok(value)
}

/// The value of the variant among the annotations of a loop is kept, where there is one.
pub fn keep_variant<'a>(
    alloc: Global,
    plan: &Plan<'_>,
    annots: &'a [Annot],
    names: &mut Registers<'_>,
    to: &mut Vec<MonStmt>,
) -> Result<Option<KeptVariant<'a>>, AllocError>
    ensures kept { IfOk result (λ o. option_map plain_kept_variant o ≡ kept_in (plain_plan plan.now.kept.now) names.old (map plain_annot annots.now)) }
    ensures code { OnOk result (plain_stmts to.new.items ≡ before (plain_stmts to.old.items)
        (kept_by (plain_plan plan.now.kept.now) names.old (map plain_annot annots.now))) }
    ensures names { OnOk result (names.new ≡ behind_variant_by (plain_plan plan.now.kept.now) (map plain_annot annots.now) names.old) }
{
    match variant_of(annots) {
        Some((annot, term)) => {
            let register = wanted(alloc, plan, (annot, term), names, to)?;
            Ok(Some(KeptVariant {
                annot,
                term,
                register,
            }))
        }
        None => Ok(None),
    }
}

// What was kept isn't negative, and has become smaller.
fn smaller(alloc: Global, kind: MonType, old: u32, new: u32) -> Result<MonExpr, AllocError>
    ensures { IfOk result (λ e. plain_expr e ≡ smaller kind old new) }
{
    let nothing = constant(alloc, kind, 0)?;
    let kept = register(alloc, old)?;
    let positive = operation(alloc, MonOp::Le, kind, nothing, kept)?;
    let value = register(alloc, new)?;
    let kept = register(alloc, old)?;
    let less = operation(alloc, MonOp::Lt, kind, value, kept)?;
    operation(alloc, MonOp::And, MonType::I32, positive, less)
}

// The new value of a variant, and the comparison with the one that was kept.
#[tactic(auto, using(c_effects::proofs::Sequences::before_assoc))]
fn compare(
    alloc: Global,
    plan: &Plan<'_>,
    kept: KeptVariant<'_>,
    names: &mut Registers<'_>,
    to: &mut Vec<MonStmt>,
) -> Result<(), AllocError>
    ensures code { OnOk result (plain_stmts to.new.items ≡ before (plain_stmts to.old.items)
        (compared_with (plain_kept_variant kept.entry).0.0 (type_of (plain_kept_variant kept.entry).0.1) kept.entry.register
        (value_by (plain_plan plan.now.kept.now) names.old (plain_kept_variant kept.entry).0))) }
    ensures names { OnOk result (names.new ≡ names_with (value_by (plain_plan plan.now.kept.now) names.old (plain_kept_variant kept.entry).0).used names.old) }
{
    let KeptVariant {
        annot,
        term,
        register,
    } = kept;
    let new = wanted(alloc, plan, (annot, term), names, to)?;
    let always = constant(alloc, MonType::I32, 1)?;
    let truth = smaller(alloc, type_of(term), register, new)?;
    then(
        alloc,
        to,
        assert_of(always, truth, annot.number, annot.place.line, annot.kind),
    )
}

/// The variant of a loop is compared at the end of a turn, where there is one.
#[tactic(auto, using(c_effects::proofs::Sequences::before_none))]
pub fn compare_variant(
    alloc: Global,
    plan: &Plan<'_>,
    kept: Option<KeptVariant<'_>>,
    names: &mut Registers<'_>,
    to: &mut Vec<MonStmt>,
) -> Result<(), AllocError>
    ensures code { OnOk result (plain_stmts to.new.items ≡ before (plain_stmts to.old.items)
        (compared_by (plain_plan plan.now.kept.now) names.old (option_map plain_kept_variant kept.entry))) }
    ensures names { OnOk result (names.new ≡ behind_compared_by (plain_plan plan.now.kept.now) (option_map plain_kept_variant kept.entry) names.old) }
{
    match kept {
        Some(kept) => compare(alloc, plan, kept, names, to),
        None => Ok(()),
    }
}
