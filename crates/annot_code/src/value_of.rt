//! The value of a term in a register.

ghost use Rattle.std.specs.Prelude.{◌≡◌, IfOk, OnOk};
ghost use Rattle.c_syntax.specs.Logic.{plain_term};
ghost use Rattle.annot_pieces.specs.Plain.{plain_stored, valuation_by};
ghost use Rattle.annot_code.specs.Judged.{valuation_of};

use crate::predicate::term_code as code_of_term;
use annot_pieces::piece::{take, two_fresh};
use annot_pieces::plan::Stored;
use annot_pieces::reading::{Known, Reading};
use annot_pieces::width::type_of;
use c_syntax::logic::Term;
use mon_syntax::{MonStmt, Registers};
use std::alloc::{AllocError, Global};

/// Statements, and the registers in which they leave the value of an integer term.
#[derive(Drop)]
pub struct Valued {
    pub stmts: Vec<MonStmt>,
    /// 1 where the term has a value and else 0.
    pub flag: u32,
    /// The value where there is one, in the type of the term.
    pub value: u32,
}

/// The code of an integer term, with further registers.
pub fn term_code(
    alloc: Global,
    t: &Term,
    stored: &Stored<'_>,
    names: &mut Registers<'_>,
) -> Result<Valued, AllocError>
    ensures code { IfOk result (λ v. valuation_of v names.new.table.kinds ≡ valuation_by names.old (plain_term t.now) (plain_stored stored.now)) }
    ensures bound { OnOk result (names.new.table.bound ≡ names.old.table.bound) }
    ensures program { OnOk result (names.new.program ≡ names.old.program) }
{
    let readings: Vec<Reading> = Vec::new(alloc);
    let known = Known {
        stored: *stored,
        readings: &readings,
    };
    let c = code_of_term(alloc, t, &known, names)?;
    let flag = two_fresh(type_of(t), names)?;
    let mut stmts = c.stmts;
    take(alloc, c.flag, c.value, flag, &mut stmts)?;
    Ok(Valued {
        stmts,
        flag,
        value: flag + 1,
    })
}
