//! Ranges over a whole file.

ghost use Rattle.std.specs.Prelude.{◌≡◌, IfErr, IfOk, MatchResult, map};
ghost use Rattle.c_syntax.specs.Programs.{plain_func, plain_program};
ghost use Rattle.c_syntax.specs.Tokens.{plain_tokens};
ghost use Rattle.c_model.specs.Checked.{Good};
ghost use Rattle.c_model.specs.AnnotationRanges.{ranged_function, ranged_functions, ranged_unit};
ghost use Rattle.c_scopes.specs.Answers.{Answers, IsRefusal};
ghost use Rattle.c_phases.specs.Answers.{IsFaultRefusal, RefusedBy};

use crate::contract::range_maybe;
use crate::statement::range_body;
use c_phases::{Noted, Ranged, refuse};
use c_scopes::fault::{TypeFault, both};
use c_syntax::{FrontFault, Func, Program};
use std::alloc::Global;

fn range_function(f: &mut Func) -> Result<(), TypeFault>
    ensures ranged { Answers (λ _. plain_func f.new) (ranged_function (plain_func f.old)) result }
    ensures sure { IfErr result IsRefusal }
{
    let contract = range_maybe(&f.result, &mut f.contract);
    let body = range_body(&mut f.body);
    both(contract, body)
}

fn range_functions(funcs: &mut Vec<Func>) -> Result<(), TypeFault>
    ensures ranged { Answers (λ _. map plain_func funcs.new.items) (ranged_functions (map plain_func funcs.old.items)) result }
    ensures sure { IfErr result IsRefusal }
{
    let mut done = Ok(());
    for i in 0..funcs.len() {
        let function = range_function(&mut funcs[i]);
        done = both(done, function);
    }
    done
}

/// Sets the ranges of the terms in all annotations of a program, or gives the fault of the first annotation that has one.
fn range_program(program: &mut Program) -> Result<(), TypeFault>
    ensures ranged { Answers (λ _. plain_program program.new) (ranged_unit (plain_program program.old)) result }
    ensures sure { IfErr result IsRefusal }
{
    range_functions(&mut program.funcs)
}

/// The program of a text whose C and annotations are typed, with the ranges of the terms of its annotations; or the refusal, with code 10,
/// at the first term that has none.
pub fn ranges(alloc: Global, noted: Noted) -> Result<Ranged, FrontFault>
    ensures ranged { MatchResult result (λ r. ranged_unit (plain_program noted.program) ≡ Good (plain_program r.program))
        (λ e. RefusedBy (IsFaultRefusal (plain_tokens noted.tokens) (ranged_unit (plain_program noted.program))) e) }
    ensures tokens { IfOk result (λ r. r.tokens ≡ noted.tokens) }
{
    let Noted {
        program,
        tokens,
        ..
    } = noted;
    let mut program = program;
    match range_program(&mut program) {
        Ok(()) => Ok(Ranged { program, tokens }),
        Err(fault) => Err(refuse(alloc, &tokens, fault)),
    }
}
