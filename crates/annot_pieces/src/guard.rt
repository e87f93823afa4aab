//! The code around the chains of a guard (ACSL 2.2.4).

ghost use Rattle.std.specs.Prelude.{◌≡◌, [], IfOk, OnOk, map};
ghost use Rattle.c_syntax.specs.Logic.{plain_term};
ghost use Rattle.c_model.specs.Quantifiers.{undecided};
ghost use Rattle.mon_syntax.specs.Trees.{plain_expr};
ghost use Rattle.c_effects.specs.Expressions.{in_type};
ghost use Rattle.annot_simulation.specs.Binders.{bounds_relation, last_before};
ghost use Rattle.annot_simulation.specs.Code.{relation_code, type_of, type_of_width, wider, width_of};
ghost use Rattle.annot_simulation.specs.Opened.{close_guard, close_guards};
ghost use Rattle.annot_pieces.specs.Plain.{code_of, held_in_guard, opened_guard, plain_guard_opened, plain_guards_opened, used_in_guard};
ghost use Rattle.annot_pieces.specs.Tables.{plain_helds};

use crate::binder::{close_binders, lowered, opened_binders};
use crate::join::branched;
use crate::kept::Held;
use crate::opened::{Chain, LowerBound, OpenBinder};
use crate::piece::Code;
use crate::side::relation_code;
use crate::term::truth_code;
use crate::value::{type_of_width, wider};
use crate::width::{range_of, type_of, width_of};
use c_effects::copy::copy_of;
use c_effects::operator::{constant, in_type, operation};
use c_effects::part::{alone, then_all};
use c_syntax::Relation;
use c_syntax::logic::{Guard, Quantifier, Term};
use mon_syntax::{MonExpr, MonOp, MonStmtKind, MonType, Registers};
use std::alloc::{AllocError, Global};

/// What stands around the code within a chain.
#[derive(Drop)]
pub struct OpenGuard {
    /// Whether its bounds leave a value between them.
    pub related: Code,
    pub chain: Chain,
    /// Its last value.
    pub bound: MonExpr,
    pub binders: Vec<OpenBinder>,
}

// ---- bounds

// The last value before an upper bound, by the sign before that.
fn last_before(
    alloc: Global,
    below: bool,
    kind: MonType,
    to: MonExpr,
) -> Result<MonExpr, AllocError>
    ensures { IfOk result (λ e. plain_expr e ≡ last_before below kind (plain_expr to)) }
{
    if below {
        let one = constant(alloc, kind, 1)?;
        operation(alloc, MonOp::Sub, kind, to, one)
    } else {
        Ok(to)
    }
}

fn bounds_relation(below: bool) -> Relation
    ensures { result ≡ bounds_relation below }
{
    if below { Relation::Lt } else { Relation::Le }
}

// The type of the indices of a chain between these bounds.
fn index_type(a: &Term, b: &Term) -> MonType
    ensures { result ≡ type_of_width (wider (width_of (plain_term a.now)) (width_of (plain_term b.now))) }
{
    type_of_width(wider(width_of(a), width_of(b)))
}

// Whether the bounds of a chain leave a value between them, and both of them again in the type of its indices.
fn bounds_code(
    alloc: Global,
    below: bool,
    terms: (&Term, &Term),
    x: Code,
    y: Code,
) -> Result<(Code, MonExpr, MonExpr), AllocError>
    ensures related { IfOk result (λ r. code_of r.0 []
        ≡ relation_code (bounds_relation below) (plain_term terms.entry.0.now) (plain_term terms.entry.1.now) (code_of x []) (code_of y [])) }
    ensures from { IfOk result (λ r. plain_expr r.1 ≡ in_type (type_of (plain_term terms.entry.0.now))
        (type_of_width (wider (width_of (plain_term terms.entry.0.now)) (width_of (plain_term terms.entry.1.now)))) (plain_expr x.value)) }
    ensures to { IfOk result (λ r. plain_expr r.2 ≡ in_type (type_of (plain_term terms.entry.1.now))
        (type_of_width (wider (width_of (plain_term terms.entry.0.now)) (width_of (plain_term terms.entry.1.now)))) (plain_expr y.value)) }
{
    let (a, b) = terms;
    let kind = index_type(a, b);
    let from = copy_of(alloc, &x.value)?;
    let from = in_type(alloc, type_of(a), kind, from)?;
    let to = copy_of(alloc, &y.value)?;
    let to = in_type(alloc, type_of(b), kind, to)?;
    let related = relation_code(alloc, bounds_relation(below), a, b, x, y)?;
    Ok((related, from, to))
}

// What is said where no value decides.
fn undecided(q: Quantifier) -> bool
    ensures { result ≡ undecided q }
{
    match q {
        Quantifier::ForAll => true,
        Quantifier::Exists => false,
    }
}

// ---- what is opened and closed

/// A chain of a guard whose bounds have this code: it, and the names that are held within it.
pub fn open_guard(
    alloc: Global,
    guard: &Guard,
    codes: (Code, Code),
    held: &[Held],
    names: &mut Registers<'_>,
) -> Result<(OpenGuard, Vec<Held>), AllocError>
    ensures guard { IfOk result (λ r. plain_guard_opened r.0
        ≡ opened_guard guard.now (code_of codes.0 []) (code_of codes.1 names.old.table.kinds)) }
    ensures held { IfOk result (λ r. plain_helds r.1.items ≡ held_in_guard guard.now (plain_helds held.now) names.old.table.kinds) }
    ensures kinds { OnOk result (names.new.table.kinds ≡ used_in_guard guard.now names.old.table.kinds) }
    ensures bound { OnOk result (names.new.table.bound ≡ names.old.table.bound) }
    ensures program { OnOk result (names.new.program ≡ names.old.program) }
{
    let (a, b) = (&guard.lower, &guard.upper);
    let (x, y) = codes;
    let (related, from, to) = bounds_code(alloc, guard.below, (a, b), x, y)?;
    let kind = index_type(a, b);
    let chain = Chain {
        kind,
        most: lowered(guard.below, range_of(b).hi)?,
        last: names.fresh(kind)?,
    };
    let bound = last_before(alloc, guard.below, kind, to)?;
    let chained = (&guard.first, guard.others.as_slice());
    let (binders, held) = opened_binders(
        alloc,
        chain,
        chained,
        LowerBound {
            value: from,
            least: range_of(a).lo,
        },
        held,
        names,
    )?;
    let one = OpenGuard {
        related,
        chain,
        bound,
        binders,
    };
    Ok((one, held))
}

fn close_guard(
    alloc: Global,
    q: Quantifier,
    g: OpenGuard,
    c: Code,
    names: &mut Registers<'_>,
) -> Result<Code, AllocError>
    ensures code { IfOk result (λ r. code_of r names.new.table.kinds ≡ close_guard q (plain_guard_opened g) (code_of c names.old.table.kinds)) }
    ensures bound { OnOk result (names.new.table.bound ≡ names.old.table.bound) }
    ensures program { OnOk result (names.new.program ≡ names.old.program) }
{
    let OpenGuard {
        related,
        chain,
        bound,
        binders,
    } = g;
    let mut binders = binders;
    let c = close_binders(alloc, q, chain, &mut binders, c)?;
    let mut stmts = alone(alloc, MonStmtKind::Set(chain.last, bound))?;
    then_all(&mut stmts, c.stmts)?;
    let c = Code {
        stmts,
        flag: c.flag,
        value: c.value,
    };
    let otherwise = truth_code(alloc, undecided(q))?;
    branched(alloc, MonType::I32, related, c, otherwise, names)
}

/// The code of a quantifier by that within its guards.
pub fn close_guards(
    alloc: Global,
    q: Quantifier,
    opened: &mut Vec<OpenGuard>,
    c: Code,
    names: &mut Registers<'_>,
) -> Result<Code, AllocError>
    ensures code { IfOk result (λ r. code_of r names.new.table.kinds
        ≡ close_guards q (plain_guards_opened opened.old.items) (code_of c names.old.table.kinds)) }
    ensures bound { OnOk result (names.new.table.bound ≡ names.old.table.bound) }
    ensures program { OnOk result (names.new.program ≡ names.old.program) }
{
    match opened.pop() {
        None => Ok(c),
        Some(g) => {
            let c = close_guard(alloc, q, g, c, names)?;
            close_guards(alloc, q, opened, c, names)
        }
    }
}
