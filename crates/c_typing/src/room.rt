//! The room of globals and literals (C99 5.2.4.1 leaves it to the implementation).

ghost use Rattle.std.specs.Prelude.{◌≡◌, ◌≤◌, map, option_map};
ghost use Rattle.c_syntax.specs.RefusalCodes.{globals_code};
ghost use Rattle.c_syntax.specs.Programs.{plain_layout, plain_program};
ghost use Rattle.c_syntax.specs.Statements.{plain_decl};
ghost use Rattle.c_syntax.specs.Layouts.{size_of};
ghost use Rattle.c_model.specs.Limits.{globals_bytes};
ghost use Rattle.c_model.specs.ObjectsLeft.{plain_object};
ghost use Rattle.c_model.specs.StaticObjects.{place_of_object, size_of_object};
ghost use Rattle.c_model.specs.UnitTyping.{room_fault};
ghost use Rattle.c_scopes.specs.Answers.{plain_fault};
ghost use Rattle.c_typing.specs.Rooms.{room_with};

use c_model::limits::GLOBALS_BYTES;
use c_model::objects::{Object, Objects, next};
use c_scopes::fault::Fault;
use c_scopes::limits::small_size;
use c_syntax::{Decl, Layout, Place, Program, code};

/// What is taken with one more block of a size, where the segment has the room.
fn room_with(taken: u64, size: u64) -> Option<u64>
    requires room { taken ≤ globals_bytes }
    requires small { size ≤ 9223372036854775808 }
    ensures { result ≡ room_with taken size }
{
    let with = taken + 16 * (size / 16 + 1);
    if with > u64::from(GLOBALS_BYTES) {
        None
    } else {
        Some(with)
    }
}

/// A global or a literal without room (E12).
fn no_room(place: Place) -> Fault
    ensures { result ≡ record { code = globals_code; place = place } }
{
    Fault {
        code: code::GLOBALS,
        place,
    }
}

/// What is taken with one more global.
fn room_with_global(structs: &[Layout], taken: u64, d: &Decl) -> Option<u64>
    requires { taken ≤ globals_bytes }
    ensures { result ≡ room_with taken (size_of (map plain_layout structs.now) (plain_decl d.now).ctype) }
{
    match small_size(structs, &d.ctype) {
        None => None,
        Some(size) => room_with(taken, u64::from(size)),
    }
}

/// What is taken with one more global or literal.
fn room_with_object(structs: &[Layout], taken: u64, o: Object<'_>) -> Option<u64>
    requires { taken ≤ globals_bytes }
    ensures { result ≡ room_with taken (size_of_object (map plain_layout structs.now) (plain_object o.entry)) }
{
    match o {
        Object::Global(d) => room_with_global(structs, taken, d),
        Object::Literal(l) => room_with(taken, l.bytes.bytes().len() as u64 + 1),
    }
}

fn place_of(o: Object<'_>) -> Place
    ensures { result ≡ place_of_object (plain_object o.entry) }
{
    match o {
        Object::Global(d) => d.place,
        Object::Literal(l) => l.place,
    }
}

/// What is wrong with the room of globals and literals: the first in the order of the text that takes the sum past the segment.
pub fn room_fault(program: &Program) -> Option<Fault>
    ensures { option_map plain_fault result ≡ room_fault (plain_program program.now) }
{
    let mut taken = 0;
    let mut left = Objects {
        globals: &program.globals,
        literals: &program.texts,
    };
    'turn: while let Some((o, rest)) = next(left) {
        match room_with_object(&program.structs, taken, o) {
            None => return Some(no_room(place_of(o))),
            Some(with) => taken = with,
        }
        left = rest;
    }
    None
}
