//! Annotations as assertions: each stops the run where it says nothing or is false.

ghost use Rattle.std.specs.Prelude.{◌≡◌, ◌≤◌, [], OnOk, map};
ghost use Rattle.c_syntax.specs.Logic.{plain_annot};
ghost use Rattle.mon_syntax.specs.Trees.{Assert, plain_expr, plain_stmt_kind, plain_stmts};
ghost use Rattle.c_effects.specs.Expressions.{before};
ghost use Rattle.annot_simulation.specs.Code.{asserted};
ghost use Rattle.annot_simulation.specs.Numbered.{AreNumbered, IsNumbered};
ghost use Rattle.annot_pieces.specs.Plain.{assertion_by, assertions_by, names_behind_assertion, names_behind_assertions, plain_stored};
ghost use Rattle.annot_code.specs.Judged.{judgement_of};

use crate::judge::{Judged, judge_clause};
use annot_pieces::plan::Stored;
use c_effects::operator::register;
use c_effects::part::{then, then_all};
use c_syntax::{Annot, Kind};
use mon_syntax::{MonExpr, MonStmt, MonStmtKind, Registers};
use std::alloc::{AllocError, Global};

/// An assertion, with its number, its line and its kind.
pub fn assert_of(flag: MonExpr, truth: MonExpr, number: u32, line: u32, kind: Kind) -> MonStmtKind
    ensures code { plain_stmt_kind result ≡ Assert (plain_expr flag) (plain_expr truth) number line kind }
    ensures number { number ≤ 4294967295 }
    ensures line { line ≤ 4294967295 }
{
    MonStmtKind::Assert(flag, truth, number, line, kind)
}

// What judges an annotation, and then the assertion.
fn assert_judged(
    alloc: Global,
    judged: Judged,
    annot: &Annot,
    to: &mut Vec<MonStmt>,
) -> Result<(), AllocError>
    ensures code { OnOk result (plain_stmts to.new.items ≡ before (plain_stmts to.old.items) (asserted (plain_annot annot.now) (judgement_of judged []))) }
    ensures numbered { OnOk result (IsNumbered (plain_annot annot.now)) }
{
    let Judged { stmts, flag, truth } = judged;
    then_all(to, stmts)?;
    let flag = register(alloc, flag)?;
    let truth = register(alloc, truth)?;
    let kind = assert_of(flag, truth, annot.number, annot.place.line, annot.kind);
    then(alloc, to, kind)
}

/// Translates an annotation, whose registers come after those that are taken.
pub fn assertion(
    alloc: Global,
    annot: &Annot,
    stored: &Stored<'_>,
    names: &mut Registers<'_>,
    to: &mut Vec<MonStmt>,
) -> Result<(), AllocError>
    ensures code { OnOk result (plain_stmts to.new.items
        ≡ before (plain_stmts to.old.items) (assertion_by names.old (plain_stored stored.now) (plain_annot annot.now))) }
    ensures names { OnOk result (names.new ≡ names_behind_assertion (plain_annot annot.now) (plain_stored stored.now) names.old) }
    ensures numbered { OnOk result (IsNumbered (plain_annot annot.now)) }
{
    let judged = judge_clause(alloc, &annot.body, stored, names)?;
    assert_judged(alloc, judged, annot, to)
}

/// Translates annotations, one after the other.
pub fn assertions(
    alloc: Global,
    annots: &[Annot],
    stored: &Stored<'_>,
    names: &mut Registers<'_>,
    to: &mut Vec<MonStmt>,
) -> Result<(), AllocError>
    ensures code { OnOk result (plain_stmts to.new.items
        ≡ before (plain_stmts to.old.items) (assertions_by names.old (plain_stored stored.now) (map plain_annot annots.now))) }
    ensures names { OnOk result (names.new ≡ names_behind_assertions (map plain_annot annots.now) (plain_stored stored.now) names.old) }
    ensures numbered { OnOk result (AreNumbered (map plain_annot annots.now)) }
{
    'annots: for annot in annots {
        assertion(alloc, annot, stored, names, to)?;
    }
    Ok(())
}
