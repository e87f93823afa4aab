//! What functions are to their callers.

ghost use Rattle.std.specs.Prelude.{◌≡◌, ◌++◌, [], ◌∷◌, length, map, option_map, IfOk, OnOk};
ghost use Rattle.mon_syntax.specs.Checking.{kinds_of, header_of, find_function};
ghost use Rattle.mon_parser.specs.ParsedTrees.{plain_register, plain_func};
ghost use Rattle.mon_typing.specs.Headers.{plain_header, AreFirst, with_first};

use indexmap::IndexMap;
use mon_parser::parsed::{ParsedFunc, ParsedRegister};
use mon_syntax::MonType;
use std::alloc::{AllocError, Global};

/// A function by its name's number, with its parameters' types and its result, which is none for `void`.
#[derive(Drop)]
pub struct Header {
    pub name: u32,
    pub parameters: Vec<MonType>,
    pub result: Option<MonType>,
}

/// All functions of a text, in its order.
#[derive(Drop)]
pub struct Functions {
    pub headers: Vec<Header>,
    /// The number of the first function of each name.
    pub firsts: IndexMap<u32, u32>,
    ghost first: { AreFirst headers.items firsts.entries },
}

impl Functions {
    /// The functions of a text.
    pub fn new(alloc: Global, list: &[ParsedFunc]) -> Result<Self, AllocError>
        ensures { IfOk result (λ functions. map plain_header functions.headers.items ≡ map header_of (map plain_func list.now)) }
    {
        let mut headers = Vec::new(alloc);
        let mut firsts = IndexMap::new(alloc);
        'each: for f in list {
            note_function(alloc, &mut headers, &mut firsts, f)?;
        }
        Ok(Functions { headers, firsts })
    }

    /// The first function of the name, by its number in the program.
    pub fn find(&self, name: u32) -> Option<(u32, &Header)>
        ensures { find_function 0 (map plain_header self.now.headers.items) name ≡ option_map (λ x. (x.0, plain_header x.1.now)) result }
    {
        match self.firsts.get(&name) {
            Some(number) => Some((*number, &self.headers[*number as usize])),
            None => None,
        }
    }
}

fn kinds(alloc: Global, parameters: &[ParsedRegister]) -> Result<Vec<MonType>, AllocError>
    ensures { IfOk result (λ kinds. kinds.items ≡ kinds_of (map plain_register parameters.now)) }
{
    let mut kinds = Vec::new(alloc);
    for parameter in parameters {
        kinds.push(parameter.kind)?;
    }
    Ok(kinds)
}

/// What the function is to its callers.
fn header_of(alloc: Global, f: &ParsedFunc) -> Result<Header, AllocError>
    ensures { IfOk result (λ header. plain_header header ≡ header_of (plain_func f.now)) }
{
    Ok(Header {
        name: f.name.number,
        parameters: kinds(alloc, &f.parameters)?,
        result: f.result,
    })
}

/// The number of a function is that of its name where it is the first of that name.
fn note(firsts: &mut IndexMap<u32, u32>, name: u32, number: usize) -> Result<(), AllocError>
    ensures { OnOk result (firsts.new.entries ≡ with_first firsts.old.entries name number) }
{
    if !firsts.contains_key(&name) {
        let Ok(number) = u32::try_from(number) else {
            return Err(AllocError);
        };
        firsts.insert(name, number)?;
    }
    Ok(())
}

/// A function after those that are known, and its number where it is the first of its name.
fn note_function(
    alloc: Global,
    headers: &mut Vec<Header>,
    firsts: &mut IndexMap<u32, u32>,
    f: &ParsedFunc,
) -> Result<(), AllocError>
    ensures headers { OnOk result (map plain_header headers.new.items ≡ map plain_header headers.old.items ++ header_of (plain_func f.now) ∷ []) }
    ensures firsts { OnOk result (firsts.new.entries ≡ with_first firsts.old.entries f.now.name.number (length headers.old.items)) }
{
    note(firsts, f.name.number, headers.len())?;
    headers.push(header_of(alloc, f)?)?;
    Ok(())
}
