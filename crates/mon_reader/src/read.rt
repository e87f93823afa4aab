//! From a monitored text to its program.

ghost use Rattle.std.specs.Prelude.{ℕ, List, ◌≡◌, ◌<◌, length, Ok, MatchResult, IfOk};
ghost use Rattle.c_syntax.specs.Tokens.{plain_tokens};
ghost use Rattle.c_syntax.specs.Programs.{PlainRefusal};
ghost use Rattle.mon_syntax.specs.Trees.{MonitoredProgram, plain_program};
ghost use Rattle.mon_syntax.specs.Valid.{IsValid};
ghost use Rattle.mon_syntax.specs.Spelled.{Spells, IsMonitoredRefusal, main_in, too_large, vocabulary};
ghost use Rattle.mon_parser.specs.ParsedTrees as read;
ghost use Rattle.mon_parser.specs.ParsedTrees.{plain_name};
ghost use Rattle.token_reader.specs.Answers.{RefusesWith};
ghost use Rattle.mon_typing.specs.Answers.{GivesProgram};
ghost use Rattle.mon_reader.specs.Answers.{Refuses, RefusesTree, IsEntered};
ghost use Rattle.mon_reader.specs.Entries.{found_main, refusal_by};

use crate::entry::{FoundMain, first_place, found_main};
use crate::refusal::{no_main, refuse, too_large};
use c_lexer::mon_tokens;
use c_syntax::{FrontFault, Name, Tokens};
use mon_parser::parsed::NameUse;
use mon_parser::vocabulary::vocabulary;
use mon_parser::{ParsedProgram, read_tokens};
use mon_syntax::MonProgram;
use mon_typing::{ProgramFault, checked_program};
use std::alloc::Global;

/// The program that a tree of the tokens spells, or its fault in names and types or in the room of its globals.
fn checked(alloc: Global, tokens: &Tokens, tree: &ParsedProgram) -> Result<MonProgram, ProgramFault>
    ensures { GivesProgram (plain_tokens tokens.now).names (vocabulary (plain_tokens tokens.now)) (read.plain_program tree.now) result }
{
    let names = tokens.names.as_slice();
    let words = vocabulary(alloc, names)?;
    checked_program(alloc, names, words.as_slice(), tree)
}

/// The refusal of a tree whose names and types have no fault, for this global without room, or for want of any `main`.
fn without_room(alloc: Global, names: &[Name], tree: &ParsedProgram, global: NameUse) -> FrontFault
    ensures { (r : PlainRefusal) → refusal_by (Some (too_large names.now (plain_name global)))
        (found_main (main_in names.now (read.plain_program tree.now).functions)) ≡ Some r → RefusesWith r result }
{
    match found_main(names, tree) {
        FoundMain::Missing => no_main(alloc, first_place()),
        FoundMain::Wrong(_) | FoundMain::Right => too_large(alloc, names, global),
    }
}

/// The program that a tree of the tokens spells, if it has no fault, room for its globals and its `main`.
fn entered(alloc: Global, tokens: &Tokens, tree: &ParsedProgram) -> Result<MonProgram, FrontFault>
    ensures { MatchResult result (λ m. IsEntered (plain_tokens tokens.now) (read.plain_program tree.now) (plain_program m))
        (λ e. RefusesTree e (plain_tokens tokens.now) (read.plain_program tree.now)) }
{
    let names = tokens.names.as_slice();
    match checked(alloc, tokens, tree) {
        Ok(program) => match found_main(names, tree) {
            FoundMain::Missing => Err(no_main(alloc, first_place())),
            FoundMain::Wrong(place) => Err(no_main(alloc, place)),
            FoundMain::Right => Ok(program),
        },
        Err(ProgramFault::InPart(fault)) => Err(refuse(alloc, tokens, fault)),
        Err(ProgramFault::TooLarge(global)) => Err(without_room(alloc, names, tree, global)),
    }
}

/// The program that a monitored text spells, which is valid, or the text's refusal: with code 1 or 2 for its tokens, 4 or 11 for its
/// grammar, 5 for a name, 6 for a type, 12 for globals without room, and 13 for want of `i32 main(void)`.
pub fn read_monitored(alloc: Global, text: &[u8]) -> Result<MonProgram, FrontFault>
    requires { length text.now < 4294967295 }
    ensures spelled { MatchResult result (λ m. Spells text.now (plain_program m)) (λ e. Refuses e text.now) }
    ensures valid { IfOk result (λ m. IsValid (plain_program m)) }
{
    let tokens = match mon_tokens(alloc, text) {
        Ok(tokens) => tokens,
        Err(fault) => return Err(fault),
    };
    let tree = match read_tokens(alloc, &tokens) {
        Ok(tree) => tree,
        Err(fault) => return Err(fault),
    };
    entered(alloc, &tokens, &tree)
}

/// A text spells one program at most, which is valid, and then it has no refusal, and it has one refusal at most.
pub fn about_texts()
    ensures valid { (text : List ℕ) (m : MonitoredProgram) → Spells text m → IsValid m }
    ensures one_spelled { (text : List ℕ) (m n : MonitoredProgram) → Spells text m → Spells text n → m ≡ n }
    ensures spelled_apart { (text : List ℕ) (m : MonitoredProgram) (r : PlainRefusal) → Spells text m → IsMonitoredRefusal text r → ⊥ }
    ensures one_monitored_refusal { (text : List ℕ) (r s : PlainRefusal) → IsMonitoredRefusal text r → IsMonitoredRefusal text s → r ≡ s }
{}
