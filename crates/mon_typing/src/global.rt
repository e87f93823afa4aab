//! The globals of a text.

ghost use Rattle.std.specs.Prelude.{◌≡◌, ◌<◌, ◌≤◌, ◌^◌, length, map, option_map, unsigned_abs, None, IfOk, IfErr};
ghost use Rattle.mon_syntax.specs.Trees.{plain_content, plain_global};
ghost use Rattle.mon_syntax.specs.Checking.{find_global, is_new};
ghost use Rattle.mon_syntax.specs.Spelled.{first_too_large};
ghost use Rattle.mon_parser.specs.ParsedTrees as read;
ghost use Rattle.mon_typing.specs.Answers.{Gives, TakesNoMemory};
ghost use Rattle.mon_typing.specs.Globals.{checked_size, checked_numbers, content_of, named_global};

use crate::fault::CheckFault;
use crate::scope::{copy, is_free, name_at};
use c_syntax::Name;
use indexmap::IndexSet;
use mon_parser::parsed::{NameUse, ParsedGlobal};
use mon_parser::word_at;
use mon_syntax::{GlobalContent, MonGlobal, Word};
use std::alloc::{AllocError, Global};

/// The segment of globals and literals, in units of 16 bytes.
const GLOBALS_UNITS: u128 = 65_536;

/// The globals of a text by their names' numbers, in order. There are no more of them than a global's number tells apart.
#[derive(Drop)]
pub struct Globals {
    pub numbers: IndexSet<u32>,
    ghost few: { length numbers.keys ≤ 4294967295 },
}

impl Globals {
    pub fn new(numbers: IndexSet<u32>) -> Result<Self, AllocError>
        ensures numbers { IfOk result (λ globals. globals.numbers.keys ≡ numbers.keys) }
        ensures sure { IfErr result (λ e. 4294967295 < length numbers.keys) }
    {
        if numbers.len() <= 4_294_967_295 {
            Ok(Globals { numbers })
        } else {
            Err(AllocError)
        }
    }

    /// A global by its number in the program.
    pub fn find(&self, name: u32) -> Option<u32>
        ensures { result ≡ find_global 0 self.now.numbers.keys name }
    {
        match self.numbers.get_index_of(&name) {
            Some(index) => Some(index as u32),
            None => None,
        }
    }
}

/// Whether a name is free, and that of no global that is known.
pub fn is_new(words: &[Word], known: &IndexSet<u32>, number: u32) -> bool
    ensures { result ≡ is_new words.now known.now.keys number }
{
    is_free(word_at(words, number)) && !known.contains(&number)
}

/// The number of a literal is that of its bytes and one more.
fn checked_size(g: &ParsedGlobal) -> Result<(), CheckFault>
    ensures size { Gives (λ u. tt) result (checked_size (read.plain_global g.now)) }
    ensures sure { IfErr result TakesNoMemory }
{
    match &g.literal {
        None => Ok(()),
        Some(bytes) => {
            if g.size.unsigned_abs() == bytes.bytes().len() as u128 + 1 {
                Ok(())
            } else {
                Err(CheckFault::BadType(g.place))
            }
        }
    }
}

/// The globals after those that are known, by their names' numbers. Each has a free name of its own.
pub fn checked_globals(
    words: &[Word],
    known: &mut IndexSet<u32>,
    globals: &[ParsedGlobal],
) -> Result<(), CheckFault>
    ensures { Gives (λ u. known.new.keys) result (checked_numbers words.now known.old.keys (map read.plain_global globals.now)) }
{
    'each: for g in globals {
        let name = g.name;
        if !is_new(words, known, name.number) {
            return Err(CheckFault::BadName(name.place));
        }
        checked_size(g)?;
        known.insert(name.number)?;
    }
    Ok(())
}

/// The global whose rounded size takes the sum past the segment. A global takes whole units, with its one-past address in
/// the last.
pub fn first_too_large(globals: &[ParsedGlobal]) -> Option<NameUse>
    ensures { first_too_large 0 (map read.plain_global globals.now) ≡ option_map read.plain_name result }
{
    let mut taken: u128 = 0;
    'each: for g in globals {
        taken += g.size.unsigned_abs() / 16 + 1;
        if taken > GLOBALS_UNITS {
            return Some(g.name);
        }
    }
    None
}

/// The bytes with which a global begins.
fn content(alloc: Global, g: &ParsedGlobal) -> Result<GlobalContent, AllocError>
    requires { unsigned_abs g.now.size < 2 ^ 32 }
    ensures { IfOk result (λ c. plain_content c ≡ content_of (read.plain_global g.now)) }
{
    match &g.literal {
        None => Ok(GlobalContent::Zeros(g.size.unsigned_abs() as u32)),
        Some(bytes) => Ok(GlobalContent::Literal(copy(alloc, bytes)?)),
    }
}

/// A global with its name.
fn named_global(alloc: Global, names: &[Name], g: &ParsedGlobal) -> Result<MonGlobal, AllocError>
    requires { unsigned_abs g.now.size < 2 ^ 32 }
    ensures { IfOk result (λ x. plain_global x ≡ named_global names.now (read.plain_global g.now)) }
{
    let name = name_at(alloc, names, g.name.number)?;
    let content = content(alloc, g)?;
    Ok(MonGlobal { name, content })
}

/// The globals with their names, which have room in their segment.
pub fn named_globals(
    alloc: Global,
    names: &[Name],
    globals: &[ParsedGlobal],
) -> Result<Vec<MonGlobal>, AllocError>
    requires { first_too_large 0 (map read.plain_global globals.now) ≡ None }
    ensures { IfOk result (λ all. map plain_global all.items ≡ map (named_global names.now) (map read.plain_global globals.now)) }
{
    let mut all = Vec::new(alloc);
    'each: for g in globals {
        all.push(named_global(alloc, names, g)?)?;
    }
    Ok(all)
}
