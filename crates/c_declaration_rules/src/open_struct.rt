//! Structs whose members are typed one after another (C99 6.7.2.1), where others may stand between them: what is kept of those that each has,
//! so that a further one asks none of them.

ghost use Rattle.std.specs.Prelude.{◌≡◌, ◌<◌, IfOk, List, None, OnErr, OnOk, length, map, nat_eq};
ghost use Rattle.c_syntax.specs.Programs.{StructType, plain_layout, plain_member};
ghost use Rattle.indexmap.specs.IndexMap.{get};
ghost use Rattle.c_declaration_rules.specs.OpenStructs.{HasNames, IsLaid, IsOpen, IsOpenAt};

use crate::layout::check_laid;
use c_scopes::fault::TypeFault;
use c_syntax::{Layout, Member};
use indexmap::{IndexMap, IndexSet};
use std::alloc::{AllocError, Global};

/// Of each struct that is begun and isn't whole, by its index, the names of the members that it has.
#[derive(Drop)]
pub struct OpenStructs {
    pub names: IndexMap<usize, IndexSet<u32>>,
}

impl OpenStructs {
    /// None is begun.
    pub fn new(alloc: Global) -> Self
        ensures { (structs : List StructType) → IsOpen structs result }
    {
        OpenStructs {
            names: IndexMap::new(alloc),
        }
    }
}

/// What is kept anew where a part is typed, and nothing else.
pub fn keep(
    begun: &mut OpenStructs,
    new: OpenStructs,
    typed: Result<(), TypeFault>,
) -> Result<(), TypeFault>
    ensures same { result ≡ typed }
    ensures kept { OnOk result (begun.new ≡ new) }
    ensures refused { OnErr result (begun.new ≡ begun.old) }
{
    match typed {
        Ok(()) => {
            *begun = new;
            Ok(())
        }
        Err(fault) => Err(fault),
    }
}

/// The names of members.
fn names_of(alloc: Global, members: &[Member]) -> Result<IndexSet<u32>, AllocError>
    ensures { IfOk result (λ names. HasNames names (map plain_member members.now)) }
{
    let mut names = IndexSet::new(alloc);
    let mut rest = members;
    'turn: while let [m, after @ ..] = rest {
        names.insert(m.name)?;
        rest = after;
    }
    Ok(names)
}

/// The names of the members that a struct has, which was laid out.
fn names_in(alloc: Global, structs: &[Layout], layout: &Layout) -> Result<IndexSet<u32>, AllocError>
    ensures laid { OnOk result (IsLaid (map plain_layout structs.now) (plain_layout layout.now)) }
    ensures named { IfOk result (λ names. HasNames names (map plain_member layout.now.members.items)) }
{
    check_laid(structs, layout)?;
    names_of(alloc, &layout.members)
}

/// The names of the members that the struct of an index has, which are kept no longer.
pub fn names_at(
    alloc: Global,
    structs: &[Layout],
    begun: &mut OpenStructs,
    k: usize,
) -> Result<IndexSet<u32>, AllocError>
    requires within { k < length structs.now }
    requires begun { IsOpen (map plain_layout structs.now) begun.old }
    ensures names { IfOk result (λ names. IsOpenAt (map plain_layout structs.now) k names) }
    ensures others { IsOpen (map plain_layout structs.now) begun.new }
    ensures taken { get nat_eq begun.new.names k ≡ None }
{
    match begun.names.swap_remove(&k) {
        Some(names) => Ok(names),
        None => names_in(alloc, structs, &structs[k]),
    }
}
