//! Whole texts (C99 5.1.2.2.1, 6.9).

ghost use Rattle.std.specs.Prelude.{◌≡◌, map, ◌&&◌, option_map, IfOk, MatchResult};
ghost use Rattle.c_syntax.specs.Ctypes.{int_type};
ghost use Rattle.c_syntax.specs.Programs.{plain_func, plain_program};
ghost use Rattle.c_syntax.specs.Tokens.{plain_tokens};
ghost use Rattle.c_model.specs.ExpressionTyping.{same_type};
ghost use Rattle.c_model.specs.UnitTyping.{has_no_parameters, main_fault};
ghost use Rattle.c_scopes.specs.Answers.{plain_fault};
ghost use Rattle.c_phases.specs.Answers.{RefusedBy};
ghost use Rattle.c_typing.specs.Answers.{ChecksProgram, IsTypedAs, IsTypingRefusal, RefusesProgram};

use crate::checked::{ProgramFault, Typed};
use crate::file::type_unit;
use crate::room::room_fault;
use c_phases::{Parsed, refused_in, refused_main};
use c_scopes::fault::{Fault, TypeFault};
use c_scopes::sight::name_at;
use c_syntax::{CInt, CType, FrontFault, Func, Name, Place, Program, Tokens, code};
use std::alloc::Global;

/// Whether a function's type is `int (void)`.
fn is_main_type(f: &Func) -> bool
    ensures { result ≡ (same_type (plain_func f.now).result int_type && has_no_parameters (plain_func f.now).params) }
{
    matches!(f.result, CType::Int(CInt::I32)) && f.params.is_empty()
}

/// What is wrong with the definition of `main`, whose type is `int (void)` (C99 5.1.2.2.1).
fn main_fault(names: &[Name], funcs: &[Func]) -> Option<Fault>
    ensures { option_map plain_fault result ≡ main_fault names.now (map plain_func funcs.now) }
{
    for f in funcs {
        if f.body.is_some() && name_at(names, f.name) == b"main".as_slice() {
            if is_main_type(f) {
                return None;
            }
            return Some(Fault {
                code: code::MAIN,
                place: f.place,
            });
        }
    }
    Some(Fault {
        code: code::MAIN,
        place: Place {
            line: 1,
            column: 1,
            offset: 0,
        },
    })
}

/// Types a program: its names and types, then the room of its globals and literals, and then its `main`.
fn check_program(alloc: Global, program: &mut Program) -> Result<(), ProgramFault>
    ensures { ChecksProgram (plain_program program.old) (plain_program program.new) result }
{
    match type_unit(alloc, program) {
        Ok(()) => (),
        Err(TypeFault::Refused(fault)) => return Err(ProgramFault::Refused(fault)),
        Err(TypeFault::Memory) => return Err(ProgramFault::Memory),
    }
    if let Some(fault) = room_fault(program) {
        return Err(ProgramFault::NoRoom(fault));
    }
    match main_fault(&program.names, &program.funcs) {
        None => Ok(()),
        Some(fault) => Err(ProgramFault::NoMain(fault)),
    }
}

/// The refusal for why typing gives no program.
fn refuse_program(alloc: Global, tokens: &Tokens, fault: ProgramFault) -> FrontFault
    ensures { RefusesProgram (plain_tokens tokens.now) fault result }
{
    match fault {
        ProgramFault::Refused(fault) => refused_in(alloc, tokens, fault),
        ProgramFault::NoRoom(fault) => refused_in(alloc, tokens, fault),
        ProgramFault::NoMain(fault) => refused_main(alloc, fault),
        ProgramFault::Memory => FrontFault::Memory,
    }
}

/// The typed program of the tree of a text; or the refusal, with code 5 for a name, 6 or 11 for a type, 12 for want of room for globals and
/// literals, and 13 for want of `int main(void)`.
pub fn type_program(alloc: Global, tree: Parsed) -> Result<Typed, FrontFault>
    ensures typed { MatchResult result (λ t. IsTypedAs (plain_program tree.program) (plain_program t.program))
        (λ e. RefusedBy (IsTypingRefusal (plain_tokens tree.tokens) (plain_program tree.program)) e) }
    ensures tokens { IfOk result (λ t. t.tokens ≡ tree.tokens) }
{
    let Parsed {
        program,
        tokens,
        ..
    } = tree;
    let mut program = program;
    match check_program(alloc, &mut program) {
        Ok(()) => Ok(Typed { program, tokens }),
        Err(fault) => Err(refuse_program(alloc, &tokens, fault)),
    }
}
