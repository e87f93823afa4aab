//! The refusals of a tree.

ghost use Rattle.std.specs.Prelude.{◌≡◌, IfOk};
ghost use Rattle.c_syntax.specs.Tokens.{plain_tokens};
ghost use Rattle.mon_syntax.specs.Checking.{word_bytes};
ghost use Rattle.mon_syntax.specs.Spelled.{no_main, too_large};
ghost use Rattle.mon_parser.specs.ParsedTrees.{plain_name};
ghost use Rattle.token_reader.specs.Answers.{RefusesWith};
ghost use Rattle.mon_reader.specs.Answers.{RefusesFault};

use c_syntax::{FrontFault, Name, Place, Tokens, code};
use mon_parser::parsed::NameUse;
use mon_typing::CheckFault;
use std::alloc::{AllocError, Global};
use token_reader::refusal::{refused, refused_at_place};

/// The refusal of a tree for a fault in its names and types.
pub fn refuse(alloc: Global, tokens: &Tokens, fault: CheckFault) -> FrontFault
    ensures { RefusesFault (plain_tokens tokens.now) fault result }
{
    match fault {
        CheckFault::BadName(place) => refused_at_place(alloc, tokens, code::NAME, place),
        CheckFault::BadType(place) => refused_at_place(alloc, tokens, code::TYPE, place),
        CheckFault::Memory => FrontFault::Memory,
    }
}

/// The bytes of a name of a text, by its number.
fn word_bytes(alloc: Global, names: &[Name], number: u32) -> Result<Vec<u8>, AllocError>
    ensures { IfOk result (λ word. word.items ≡ word_bytes names.now number) }
{
    match names.get(number as usize) {
        Some(name) => name.bytes().to_vec(alloc),
        None => Ok(Vec::new(alloc)),
    }
}

/// The refusal of a text for a global without room.
pub fn too_large(alloc: Global, names: &[Name], global: NameUse) -> FrontFault
    ensures { RefusesWith (too_large names.now (plain_name global)) result }
{
    refused(
        code::GLOBALS,
        global.place,
        word_bytes(alloc, names, global.number),
    )
}

/// The refusal of a text for want of `main`.
pub fn no_main(alloc: Global, place: Place) -> FrontFault
    ensures { RefusesWith (no_main place) result }
{
    refused(code::MAIN, place, Vec::from_slice(alloc, b"main"))
}
