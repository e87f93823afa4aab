//! What a file declares, item by item (C99 6.2.1 p7, 6.7.2.3, 6.9).

ghost use Rattle.std.specs.Prelude.{◌≡◌, IfErr, OnOk, nat_eq};
ghost use Rattle.c_syntax.specs.Programs.{plain_enum, plain_func};
ghost use Rattle.c_syntax.specs.Statements.{plain_decl};
ghost use Rattle.c_model.specs.UnitTyping.{new_tag, offset_of_item, with_tag, with_type};
ghost use Rattle.c_scopes.specs.Answers.{Answers, IsRefusal};
ghost use Rattle.c_scopes.specs.Sights.{plain_sight};
ghost use Rattle.c_declaration_rules.specs.OpenStructs.{IsOpen};
ghost use Rattle.indexmap.specs.IndexMap.{get};
ghost use Rattle.c_typing.specs.Files.{defined_in_turn, enum_in_turn, global_in_turn, head_in_turn, item_in_turn, kept, plain_course};
ghost use Rattle.c_typing.specs.Files.{plain_file_item, typedef_in_turn};

use c_declaration_rules::declaration::{type_global, type_typedef};
use c_declaration_rules::enumerator::type_enumerators;
use c_declaration_rules::member::type_member;
use c_declaration_rules::open_struct::{OpenStructs, keep};
use c_function_rules::function::type_function;
use c_function_rules::heading::{Callee, Noted};
use c_scopes::fault::{TypeFault, no_name};
use c_scopes::sight::Sight;
use c_scopes::tag::Tags;
use c_scopes::type_name::TypeName;
use c_syntax::copy::copy_type;
use c_syntax::{Decl, EnumDef, Func, Member, Place};
use indexmap::IndexMap;
use std::alloc::{AllocError, Global};
use std::mem::replace;

/// What a file declares.
#[derive(Drop)]
pub enum FileItem {
    /// A struct, at its tag, or at the word where it has no tag.
    Head(Place, Option<u32>),
    /// A member of the struct with this index, and whether it is the last one.
    Inside(usize, Member, bool),
    Enum(EnumDef),
    Typedef(Decl),
    Global(Decl),
    Function(Func),
}

/// What is known of a file behind some of its items.
#[derive(Drop)]
pub struct Course {
    pub sight: Sight,
    /// The tags that are defined.
    pub tags: Tags,
    /// What is kept of each function's name.
    pub names: IndexMap<u32, Noted>,
}

/// Where an item stands in the text.
pub fn offset_of(item: &FileItem) -> u32
    ensures { result ≡ offset_of_item (plain_file_item item.now) }
{
    match item {
        FileItem::Head(place, _) => place.offset,
        FileItem::Inside(_, member, _) => member.place.offset,
        FileItem::Enum(e) => e.place.offset,
        FileItem::Typedef(d) => d.place.offset,
        FileItem::Global(d) => d.place.offset,
        FileItem::Function(f) => f.place.offset,
    }
}

/// A tag is defined once in a file (C99 6.7.2.3 p1).
fn new_tag(tags: &Tags, place: Place, tag: Option<u32>) -> Result<(), TypeFault>
    ensures checked { Answers (λ u. u) (new_tag tags.now.list.items place tag) result }
    ensures sure { IfErr result IsRefusal }
{
    match tag {
        None => Ok(()),
        Some(x) => {
            if tags.has(x) {
                Err(no_name(place))
            } else {
                Ok(())
            }
        }
    }
}

/// Keeps that a tag is defined.
pub fn add_tag(tags: &mut Tags, tag: Option<u32>) -> Result<(), AllocError>
    ensures { OnOk result (tags.new.list.items ≡ with_tag tags.old.list.items tag) }
{
    if let Some(x) = tag {
        tags.push(x)?;
    }
    Ok(())
}

fn type_head(course: &mut Course, place: Place, tag: Option<u32>) -> Result<(), TypeFault>
    ensures typed { Answers (λ _. plain_course course.new) (head_in_turn (plain_course course.old) place tag) result }
    ensures structs { OnOk result ((plain_sight course.new.sight).structs ≡ (plain_sight course.old.sight).structs) }
{
    new_tag(&course.tags, place, tag)?;
    add_tag(&mut course.tags, tag)?;
    Ok(())
}

/// An enum, whose tag is in sight behind its enumerators.
fn type_enum(alloc: Global, course: &mut Course, e: &mut EnumDef) -> Result<(), TypeFault>
    ensures typed { Answers (λ _. (plain_course course.new, plain_enum e.new)) (enum_in_turn (plain_course course.old) (plain_enum e.old)) result }
    ensures structs { OnOk result ((plain_sight course.new.sight).structs ≡ (plain_sight course.old.sight).structs) }
{
    new_tag(&course.tags, e.place, e.tag)?;
    type_enumerators(alloc, &mut course.sight, &mut e.items)?;
    add_tag(&mut course.sight.enums, e.tag)?;
    add_tag(&mut course.tags, e.tag)?;
    Ok(())
}

/// Brings a name of a type in sight, where the declaration has one.
pub fn see_type(alloc: Global, sight: &mut Sight, d: &Decl) -> Result<(), AllocError>
    ensures { OnOk result (plain_sight sight.new ≡ with_type (plain_sight sight.old) (plain_decl d.now)) }
{
    if d.named {
        let ctype = copy_type(alloc, &d.ctype)?;
        sight.types.push(TypeName {
            name: d.name,
            ctype,
        })?;
    }
    Ok(())
}

fn type_alias(alloc: Global, course: &mut Course, d: &mut Decl) -> Result<(), TypeFault>
    ensures { Answers (λ _. (plain_course course.new, plain_decl d.new)) (typedef_in_turn (plain_course course.old) (plain_decl d.old)) result }
{
    type_typedef(alloc, &course.sight, d)?;
    see_type(alloc, &mut course.sight, d)?;
    Ok(())
}

fn type_object(alloc: Global, course: &mut Course, d: &mut Decl) -> Result<(), TypeFault>
    ensures { Answers (λ _. (plain_course course.new, plain_decl d.new)) (global_in_turn (plain_course course.old) (plain_decl d.old)) result }
{
    type_global(alloc, &mut course.sight, d)
}

fn type_defined(
    alloc: Global,
    numbers: &IndexMap<u32, Callee>,
    course: &mut Course,
    f: &mut Func,
) -> Result<(), TypeFault>
    ensures { Answers (λ _. (plain_course course.new, plain_func f.new))
        (defined_in_turn (get nat_eq numbers.now) (plain_course course.old) (plain_func f.old)) result }
{
    type_function(alloc, &mut course.sight, numbers, &mut course.names, f)
}

/// Types an item with what is known behind those before it, by what each name of a function denotes. What is kept of structs that are begun
/// serves the members that come, also behind other structs and enums, which may stand between them.
pub fn type_item(
    alloc: Global,
    numbers: &IndexMap<u32, Callee>,
    course: &mut Course,
    begun: &mut OpenStructs,
    item: &mut FileItem,
) -> Result<(), TypeFault>
    requires { IsOpen (plain_sight course.old.sight).structs begun.old }
    ensures typed { Answers (λ _. (plain_course course.new, kept (plain_file_item item.new)))
        (item_in_turn (get nat_eq numbers.now) (plain_course course.old) (plain_file_item item.old)) result }
    ensures begun { IsOpen (plain_sight course.new.sight).structs begun.new }
{
    let last = replace(begun, OpenStructs::new(alloc));
    match item {
        FileItem::Head(place, tag) => keep(begun, last, type_head(course, *place, *tag)),
        FileItem::Inside(k, m, ends) => {
            *begun = last;
            type_member(alloc, &mut course.sight, begun, *k, m, *ends)
        }
        FileItem::Enum(e) => keep(begun, last, type_enum(alloc, course, e)),
        FileItem::Typedef(d) => type_alias(alloc, course, d),
        FileItem::Global(d) => type_object(alloc, course, d),
        FileItem::Function(f) => type_defined(alloc, numbers, course, f),
    }
}
