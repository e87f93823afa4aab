//! The calls on a text.

ghost use Rattle.std.specs.Prelude.{◌≡◌, ◌<◌, ◌≤◌, ℕ, IfOk, List, MatchResult, [], length};
ghost use Rattle.c_syntax.specs.Programs.{plain_program as plain_source};
ghost use Rattle.c_model.specs.AcceptedPrograms.{IsProgram};
ghost use Rattle.c_model.specs.UnrangedPrograms.{FunctionsRanged};
ghost use Rattle.c_model.specs.Limits.{globals_bytes};
ghost use Rattle.mon_syntax.specs.Globals.{globals_taken};
ghost use Rattle.mon_syntax.specs.Translates.{Translates};
ghost use Rattle.mon_syntax.specs.Trees.{plain_program};
ghost use Rattle.ea_ports.specs.Buffered.{port_of};
ghost use Rattle.c_reader.specs.Answers.{Refuses};
ghost use Rattle.c_machine.specs.Inputs.{taking};
ghost use Rattle.eacsl_engine.specs.Annotations.{annotations_of};
ghost use Rattle.eacsl_engine.specs.Ends.{ExecEnds, InstrumentEnds, IsCounted, IsTranslated, MachineEnds, RunEnds};

use crate::annotation::annotation_count;
use crate::ended::{Done, Ended};
use c_lower::lower;
use c_machine::run;
use c_printer::print;
use c_reader::read_text;
use c_syntax::{FrontFault, Program};
use ea_ports::{Sink, SinkFault, Source};
use instrument::instrument;
use mon_reader::read_monitored;
use mon_syntax::MonProgram;
use std::alloc::{AllocError, Global};

// A program in monitored C that translates that of a text, and how many annotations the text has.
#[derive(Drop)]
struct Translation {
    monitored: MonProgram,
    annotations: u32,
}

// Translates a program and counts its annotations.
fn translate(alloc: Global, program: &Program) -> Result<Translation, AllocError>
    requires program { IsProgram (plain_source program.now) }
    requires ranged { FunctionsRanged (plain_source program.now).funcs }
    ensures translates { IfOk result (λ t. Translates (plain_source program.now) (plain_program t.monitored)) }
    ensures count { IfOk result (λ t. t.annotations ≡ annotations_of (plain_source program.now)) }
{
    let annotations = annotation_count(program)?;
    let monitored = instrument(alloc, program)?;
    Ok(Translation {
        monitored,
        annotations,
    })
}

// Translates the annotated program that a text spells into monitored C.
fn translated(alloc: Global, text: &[u8]) -> Result<Translation, FrontFault>
    requires { length text.now < 4294967295 }
    ensures { MatchResult result (λ t. IsCounted text.now t.annotations (plain_program t.monitored)) (λ fault. Refuses fault text.now) }
{
    let program = match read_text(alloc, text) {
        Ok(program) => program,
        Err(fault) => return Err(fault),
    };
    let made = translate(alloc, &program)?;
    Ok(made)
}

// Runs a program in monitored C, of a text with so many annotations, with so many steps.
fn executed<I: Source, O: Sink>(
    alloc: Global,
    monitored: MonProgram,
    annotations: u32,
    steps: u64,
    input: &mut I,
    out: &mut O,
) -> Ended
    requires { globals_taken (plain_program monitored).globals ≤ globals_bytes }
    ensures { MachineEnds (taking (I.left input.old) (I.left input.new) (I.faults input.old) (I.faults input.new))
        (port_of (O.told out.old) [] (O.faults out.old)) (port_of (O.told out.new) [] (O.faults out.new)) steps annotations (plain_program monitored)
        result }
{
    match lower(alloc, &monitored) {
        Ok(code) => {
            let ran = run(alloc, &code, steps, input, out);
            Ended::Finished {
                ran,
                annotations,
                monitored,
                code,
            }
        }
        Err(_) => Ended::OutOfMemory,
    }
}

/// Runs the annotated program that a text spells with so many steps, or says why the text is refused.
///
/// It hands out the program in monitored C that was run, its code, and what the run of that code came to.
pub fn run_text<I: Source, O: Sink>(
    alloc: Global,
    text: &[u8],
    steps: u64,
    input: &mut I,
    out: &mut O,
) -> Ended
    requires { length text.now < 4294967295 }
    ensures { RunEnds (taking (I.left input.old) (I.left input.new) (I.faults input.old) (I.faults input.new))
        (port_of (O.told out.old) [] (O.faults out.old)) (port_of (O.told out.new) [] (O.faults out.new)) text.now steps result }
{
    match translated(alloc, text) {
        Ok(made) => executed(alloc, made.monitored, made.annotations, steps, input, out),
        Err(FrontFault::Refused(refusal)) => Ended::Refused(refusal),
        Err(FrontFault::Memory) => Ended::OutOfMemory,
    }
}

/// Runs the program in monitored C that a text spells with so many steps, or says why the text is refused. No annotation
/// stands in such a text.
pub fn exec_text<I: Source, O: Sink>(
    alloc: Global,
    text: &[u8],
    steps: u64,
    input: &mut I,
    out: &mut O,
) -> Ended
    requires { length text.now < 4294967295 }
    ensures { ExecEnds (taking (I.left input.old) (I.left input.new) (I.faults input.old) (I.faults input.new))
        (port_of (O.told out.old) [] (O.faults out.old)) (port_of (O.told out.new) [] (O.faults out.new)) text.now steps result }
{
    match read_monitored(alloc, text) {
        Ok(monitored) => executed(alloc, monitored, 0, steps, input, out),
        Err(FrontFault::Refused(refusal)) => Ended::Refused(refusal),
        Err(FrontFault::Memory) => Ended::OutOfMemory,
    }
}

// Writes the text of a program in monitored C.
fn written<O: Sink>(monitored: &MonProgram, out: &mut O) -> Done
    ensures { (text : List ℕ) → IsTranslated text (plain_program monitored.now) → InstrumentEnds (port_of (O.told out.old) [] (O.faults out.old))
        (port_of (O.told out.new) [] (O.faults out.new)) text result }
{
    match print(monitored, out) {
        Ok(()) => Done::Written,
        Err(SinkFault::Failed) => Done::WriteFault,
        Err(SinkFault::Memory) => Done::OutOfMemory,
    }
}

/// Writes the monitored text of the annotated program that a text spells, or says why the text is refused.
pub fn instrument_text<O: Sink>(alloc: Global, text: &[u8], out: &mut O) -> Done
    requires { length text.now < 4294967295 }
    ensures { InstrumentEnds (port_of (O.told out.old) [] (O.faults out.old)) (port_of (O.told out.new) [] (O.faults out.new)) text.now result }
{
    match translated(alloc, text) {
        Ok(made) => written(&made.monitored, out),
        Err(FrontFault::Refused(refusal)) => Done::Refused(refusal),
        Err(FrontFault::Memory) => Done::OutOfMemory,
    }
}
