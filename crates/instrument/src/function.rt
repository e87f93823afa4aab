//! The code of a function (C99 6.9.1).

ghost use Rattle.std.specs.Prelude.{◌≡◌, ℕ, suc, true, IfOk, None, OnOk, if◌then◌else◌, length};
ghost use Rattle.c_syntax.specs.Programs.{plain_func};
ghost use Rattle.mon_syntax.specs.Registers.{next_register, with_table};
ghost use Rattle.mon_syntax.specs.Trees.{NoStatement, plain_stmts};
ghost use Rattle.c_initialisers.specs.Letters.{InitialsHaveLetters};
ghost use Rattle.c_effects.specs.Expressions.{before};
ghost use Rattle.c_effects.specs.Named.{unit_of, with_registers};
ghost use Rattle.annot_pieces.specs.Tables.{plain_plan};
ghost use Rattle.instrument.specs.Limits.{BodyHasNumbers, ContractHasNumbers};
ghost use Rattle.instrument.specs.Options.{behind_whole, globals_initialised, own_code, whole_code};
ghost use Rattle.instrument.specs.Translation.{all_kinds, first_flag, front_temporaries};

use crate::contract::{Frame, body};
use crate::global::initialise_globals;
use crate::keeping::{Own, keep};
use crate::parameter::{enter_parameters, make_arguments};
use annot_code::snapshot::snapshot;
use annot_pieces::plan::Plan;
use c_syntax::Func;
use mon_syntax::{MonStmt, Registers};
use std::alloc::{AllocError, Global};

// What stands before the rest of a function: `main` initialises the globals.
#[tactic(auto, using(c_effects::proofs::Sequences::before_none))]
fn front(
    alloc: Global,
    is_main: bool,
    names: &mut Registers<'_>,
    to: &mut Vec<MonStmt>,
) -> Result<(), AllocError>
    ensures code { OnOk result (plain_stmts to.new.items ≡ before (plain_stmts to.old.items) (if is_main then globals_initialised names.old
        (unit_of names.old).globals else NoStatement)) }
    ensures names { OnOk result (names.new ≡ with_registers (front_temporaries (unit_of names.old) is_main) names.old) }
    ensures letters { OnOk result (is_main ≡ true → InitialsHaveLetters (unit_of names.old).globals) }
{
    if is_main {
        initialise_globals(alloc, names, to)
    } else {
        Ok(())
    }
}

// The births of the parameters' blocks, what is kept where the label `Pre` is passed, and the body.
fn whole_body(
    alloc: Global,
    is_main: bool,
    f: &Func,
    own: &Own<'_>,
    names: &mut Registers<'_>,
    to: &mut Vec<MonStmt>,
) -> Result<(), AllocError>
    ensures code { OnOk result (plain_stmts to.new.items ≡ before (plain_stmts to.old.items)
        (own_code (plain_plan own.now.kept.items) own.now.given (plain_func f.now) is_main names.old)) }
    ensures names { OnOk result (names.new ≡ behind_whole (plain_plan own.now.kept.items) own.now.given (plain_func f.now) names.old) }
    ensures body { OnOk result (BodyHasNumbers (plain_func f.now).body) }
    ensures contract { OnOk result (ContractHasNumbers (suc own.now.given) (plain_func f.now).contract) }
{
    let plan = Plan::new(alloc, &own.kept)?;
    let first = names.next()?;
    let params = enter_parameters(alloc, &f.params, names, to)?;
    snapshot(alloc, None, plan.kept, names, to)?;
    let frame = Frame {
        func: f,
        plan: &plan,
        given: own.given,
        first,
        params: &params,
    };
    body(alloc, is_main, &frame, names, to)
}

/// The code of a function, over registers of its own.
pub fn code_of(
    alloc: Global,
    is_main: bool,
    f: &Func,
    names: &mut Registers<'_>,
) -> Result<Vec<MonStmt>, AllocError>
    ensures code { IfOk result (λ code. plain_stmts code.items ≡ whole_code (unit_of names.old) is_main (plain_func f.now)) }
    ensures kinds { OnOk result (names.new.table.kinds ≡ all_kinds (unit_of names.old) (front_temporaries (unit_of names.old) is_main) (plain_func f.now)
        (plain_func f.now).contract) }
    ensures program { OnOk result (names.new.program ≡ names.old.program) }
    ensures body { IfOk result (λ _. BodyHasNumbers (plain_func f.now).body) }
    ensures contract { IfOk result (λ _. ContractHasNumbers (first_flag (plain_func f.now)) (plain_func f.now).contract) }
    ensures letters { IfOk result (λ _. is_main ≡ true → InitialsHaveLetters (unit_of names.old).globals) }
{
    let mut code = Vec::new(alloc);
    make_arguments(alloc, &f.params, names)?;
    let own = keep(alloc, f, names)?;
    front(alloc, is_main, names, &mut code)?;
    whole_body(alloc, is_main, f, &own, names, &mut code)?;
    Ok(code)
}
