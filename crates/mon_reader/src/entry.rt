//! The function that a run begins with: `i32 main(void)` (C99 5.1.2.2.1).

ghost use Rattle.std.specs.Prelude.{◌≡◌, map};
ghost use Rattle.mon_syntax.specs.Spelled.{is_i32, has_none, is_main, main_in};
ghost use Rattle.c_model.specs.Places.{first_place};
ghost use Rattle.mon_parser.specs.ParsedTrees.{plain_func, plain_program, plain_register};
ghost use Rattle.mon_reader.specs.Entries.{found_main};

use c_syntax::{Name, Place};
use mon_parser::{ParsedFunc, ParsedProgram, ParsedRegister};
use mon_syntax::MonType;
use mon_typing::is_main;

/// What a text has of a `main`.
#[derive(Clone, Copy)]
pub enum FoundMain {
    /// No function of this name.
    Missing,
    /// One with another result or parameters, at its name.
    Wrong(Place),
    /// `i32 main(void)`
    Right,
}

/// The beginning of a text.
pub fn first_place() -> Place
    ensures { result ≡ first_place }
{
    Place {
        line: 1,
        column: 1,
        offset: 0,
    }
}

fn is_i32(kind: Option<MonType>) -> bool
    ensures { result ≡ is_i32 kind }
{
    match kind {
        Some(kind) => kind == MonType::I32,
        None => false,
    }
}

fn has_none(parameters: &[ParsedRegister]) -> bool
    ensures { result ≡ has_none (map plain_register parameters.now) }
{
    parameters.is_empty()
}

fn has_form(f: &ParsedFunc) -> bool
    ensures { result ≡ is_main (plain_func f.now) }
{
    is_i32(f.result) && has_none(&f.parameters)
}

/// The first `main` of a text.
pub fn found_main(names: &[Name], program: &ParsedProgram) -> FoundMain
    ensures { result ≡ found_main (main_in names.now (plain_program program.now).functions) }
{
    'each: for f in &program.functions {
        if is_main(names, f.name.number) {
            return if has_form(f) {
                FoundMain::Right
            } else {
                FoundMain::Wrong(f.name.place)
            };
        }
    }
    FoundMain::Missing
}
