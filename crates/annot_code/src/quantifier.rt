//! The code of quantifiers.

ghost use Rattle.std.specs.Prelude.{◌≡◌, ◌++◌, IfOk, OnOk};
ghost use Rattle.c_syntax.specs.Logic.{plain_guards};
ghost use Rattle.annot_pieces.specs.Plain.{code_of, guarded_of, plain_guards_opened, plain_known, plain_readings, pred_by, quantified_of, within_guards};
ghost use Rattle.annot_pieces.specs.Tables.{plain_helds};

use crate::predicate::{pred_code, term_code};
use annot_pieces::guard::{OpenGuard, close_guards, open_guard};
use annot_pieces::kept::Held;
use annot_pieces::piece::Code;
use annot_pieces::plan::Stored;
use annot_pieces::reading::{Known, Reading, known_after_relation};
use c_syntax::logic::{Guard, Guards, Pred, Quantifier};
use mon_syntax::Registers;
use std::alloc::{AllocError, Global};

/// A quantifier: what stands around its predicate, which is asked within all binders.
#[cycle(code)]
pub fn quantified(
    alloc: Global,
    q: Quantifier,
    parts: (&Guards, &Pred),
    known: &Known<'_>,
    names: &mut Registers<'_>,
) -> Result<Code, AllocError>
    ensures code { IfOk result (λ c. code_of c names.new.table.kinds
        ≡ pred_by names.old (quantified_of q parts.entry.0.now parts.entry.1.now) (plain_known known.now)) }
    ensures bound { OnOk result (names.new.table.bound ≡ names.old.table.bound) }
    ensures program { OnOk result (names.new.program ≡ names.old.program) }
{
    let (guards, inner) = parts;
    let mut opened = Vec::new(alloc);
    let (held, readings) = open_guards(alloc, guards, known, names, &mut opened)?;
    let stored = Stored {
        plan: known.stored.plan,
        held: &held,
    };
    let within = Known {
        stored,
        readings: &readings,
    };
    let c = pred_code(alloc, inner, &within, names)?;
    close_guards(alloc, q, &mut opened, c, names)
}

// What stands around the code within guards: the names that are held there, and the variables that were read.
#[cycle(code)]
fn open_guards(
    alloc: Global,
    guards: &Guards,
    known: &Known<'_>,
    names: &mut Registers<'_>,
    opened: &mut Vec<OpenGuard>,
) -> Result<(Vec<Held>, Vec<Reading>), AllocError>
    ensures opened { OnOk result (plain_guards_opened opened.new.items ≡ plain_guards_opened opened.old.items
        ++ (within_guards names.old (plain_guards guards.now) (plain_known known.now)).guards) }
    ensures held { IfOk result (λ r. plain_helds r.0.items ≡ (within_guards names.old (plain_guards guards.now) (plain_known known.now)).held) }
    ensures readings { IfOk result (λ r. plain_readings r.1.items
        ≡ (within_guards names.old (plain_guards guards.now) (plain_known known.now)).known) }
    ensures kinds { OnOk result (names.new.table.kinds ≡ (within_guards names.old (plain_guards guards.now) (plain_known known.now)).used) }
    ensures bound { OnOk result (names.new.table.bound ≡ names.old.table.bound) }
    ensures program { OnOk result (names.new.program ≡ names.old.program) }
{
    match guards {
        Guards::End => {
            let held = known.stored.held.to_vec(alloc)?;
            let readings = known.readings.to_vec(alloc)?;
            Ok((held, readings))
        }
        Guards::More(guard, rest) => open_more(alloc, guard, rest, known, names, opened),
    }
}

// A chain of a guard, and those behind it.
#[cycle(code)]
fn open_more(
    alloc: Global,
    guard: &Guard,
    rest: &Guards,
    known: &Known<'_>,
    names: &mut Registers<'_>,
    opened: &mut Vec<OpenGuard>,
) -> Result<(Vec<Held>, Vec<Reading>), AllocError>
    ensures opened { OnOk result (plain_guards_opened opened.new.items ≡ plain_guards_opened opened.old.items
        ++ (within_guards names.old (guarded_of guard.now rest.now) (plain_known known.now)).guards) }
    ensures held { IfOk result (λ r. plain_helds r.0.items ≡ (within_guards names.old (guarded_of guard.now rest.now) (plain_known known.now)).held) }
    ensures readings { IfOk result (λ r. plain_readings r.1.items
        ≡ (within_guards names.old (guarded_of guard.now rest.now) (plain_known known.now)).known) }
    ensures kinds { OnOk result (names.new.table.kinds ≡ (within_guards names.old (guarded_of guard.now rest.now) (plain_known known.now)).used) }
    ensures bound { OnOk result (names.new.table.bound ≡ names.old.table.bound) }
    ensures program { OnOk result (names.new.program ≡ names.old.program) }
{
    let (a, b) = (&guard.lower, &guard.upper);
    let x = term_code(alloc, a, known, names)?;
    let y = term_code(alloc, b, known, names)?;
    let (one, held) = open_guard(alloc, guard, (x, y), known.stored.held, names)?;
    opened.push(one)?;
    let readings = known_after_relation(alloc, known, a, b)?;
    let stored = Stored {
        plan: known.stored.plan,
        held: &held,
    };
    let inside = Known {
        stored,
        readings: &readings,
    };
    open_guards(alloc, rest, &inside, names, opened)
}
