//! What is in sight (C99 6.2.1).

ghost use Rattle.std.specs.Prelude.{◌≡◌, OnOk, length, map, option_map};
ghost use Rattle.c_syntax.specs.Ctypes.{plain_type};
ghost use Rattle.c_syntax.specs.Programs.{plain_layout};
ghost use Rattle.c_syntax.specs.Statements.{plain_decl};
ghost use Rattle.c_model.specs.ExpressionTyping.{declared_here, inner, name_at, number_at};
ghost use Rattle.c_model.specs.ExpressionTyping.{tagged, with_object};
ghost use Rattle.c_scopes.specs.Entity.{plain_entity};
ghost use Rattle.c_scopes.specs.Sights.{has_tag, left, plain_sight, seen_again};

use crate::entities::Entities;
use crate::entity::{Entity, Object};
use crate::literal::Literals;
use crate::signature::Functions;
use crate::tag::Tags;
use crate::type_name::TypeNames;
use c_syntax::copy::copy_type;
use c_syntax::{CType, Decl, Layout, Name};
use std::alloc::{AllocError, Global};

/// The names and string literals of the text, the functions that are declared so far, the visible objects and enumerators, the
/// newest last, those of the innermost scope from `innermost` on, the names of types, and the structs and enums of the file.
#[derive(Drop)]
pub struct Sight {
    pub names: Vec<Name>,
    pub texts: Literals,
    pub functions: Functions,
    pub entities: Entities,
    pub innermost: usize,
    pub types: TypeNames,
    /// What is known of each struct so far: one whose members aren't all known has size 0.
    pub structs: Vec<Layout>,
    /// How many levels the type of each struct has.
    pub levels: Vec<u32>,
    /// The tags of all enums of the file, and of those that are defined so far.
    pub enum_tags: Tags,
    pub enums: Tags,
}

/// What a block leaves unchanged: the count of the names around it, and where their innermost scope begins.
#[derive(Clone, Copy, Drop)]
pub struct Mark {
    pub count: usize,
    pub innermost: usize,
}

/// The name of a number, and no bytes where there is none.
pub fn name_at(names: &[Name], number: u32) -> &[u8]
    ensures { result.now ≡ name_at names.now number }
{
    match names.get(number as usize) {
        Some(name) => name.bytes(),
        None => &[],
    }
}

/// What the innermost scope declares with a name.
pub fn declared_here(sight: &Sight, name: u32) -> Option<&Entity>
    ensures { option_map (λ e. plain_entity e.now) result ≡ declared_here (plain_sight sight.now) name }
{
    sight.entities.named_from(sight.innermost, name)
}

/// Whether a struct has the tag.
fn has_tag(tag: u32, s: &Layout) -> bool
    ensures { result ≡ has_tag tag s.now.tag }
{
    match s.tag {
        None => false,
        Some(t) => tag == t,
    }
}

/// The index of the struct with a tag.
pub fn tagged(structs: &[Layout], tag: u32) -> Option<usize>
    ensures { result ≡ tagged tag 0 (map plain_layout structs.now) }
{
    for k in 0..structs.len() {
        if has_tag(tag, &structs[k]) {
            return Some(k);
        }
    }
    None
}

/// How many levels the struct of a number has.
pub fn number_at(levels: &[u32], number: usize) -> u32
    ensures { result ≡ number_at levels.now number }
{
    match levels.get(number) {
        Some(n) => *n,
        None => 0,
    }
}

/// Brings a declared object in sight with this type.
pub fn see_object(sight: &mut Sight, d: &Decl, ctype: CType) -> Result<(), AllocError>
    ensures { OnOk result (plain_sight sight.new ≡ with_object (plain_sight sight.old) (record (plain_decl d.now) { ctype = plain_type ctype })) }
{
    sight.entities.push(Entity::AnObject(Object {
        name: d.name,
        decl: d.place.offset,
        ctype,
    }))?;
    Ok(())
}

/// Brings a declared object in sight.
pub fn with_object(alloc: Global, sight: &mut Sight, d: &Decl) -> Result<(), AllocError>
    ensures { OnOk result (plain_sight sight.new ≡ with_object (plain_sight sight.old) (plain_decl d.now)) }
{
    let ctype = copy_type(alloc, &d.ctype)?;
    see_object(sight, d, ctype)
}

/// What is around a block that begins here.
pub fn mark_here(sight: &Sight) -> Mark
    ensures { result ≡ record { count = length (plain_sight sight.now).entities; innermost = sight.now.innermost } }
{
    Mark {
        count: sight.entities.len(),
        innermost: sight.innermost,
    }
}

/// Begins a block, whose scope holds no name yet.
pub fn enter(sight: &mut Sight) -> Mark
    ensures inner { plain_sight sight.new ≡ inner (plain_sight sight.old) }
    ensures mark { result ≡ record { count = length (plain_sight sight.old).entities; innermost = sight.old.innermost } }
{
    let mark = mark_here(sight);
    sight.innermost = mark.count;
    mark
}

/// Ends a block.
pub fn leave(sight: &mut Sight, mark: Mark)
    ensures { plain_sight sight.new ≡ left mark.count mark.innermost (plain_sight sight.old) }
{
    sight.entities.truncate(mark.count);
    sight.innermost = mark.innermost;
}

/// Puts what is newer than a mark out of sight. Gives what `show_newer` takes.
pub fn hide_newer(sight: &mut Sight, mark: Mark) -> Mark
    ensures hidden { plain_sight sight.new ≡ left mark.count mark.innermost (plain_sight sight.old) }
    ensures around { sight.old ≡ seen_again result sight.new }
{
    let around = Mark {
        count: sight.entities.seen,
        innermost: sight.innermost,
    };
    sight.entities.seen = mark.count.min(around.count);
    sight.innermost = mark.innermost;
    around
}

/// Puts in sight again what was hidden.
pub fn show_newer(sight: &mut Sight, around: Mark)
    ensures { sight.new ≡ seen_again around sight.old }
{
    sight.entities.seen = around.count;
    sight.innermost = around.innermost;
}
