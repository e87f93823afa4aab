//! The items of a file in the order of the text.

ghost use Rattle.std.specs.Prelude.{◌≡◌, ℕ, [], ◌∷◌, ◌++◌, IfOk, OnOk, map};
ghost use Rattle.c_syntax.specs.Programs.{plain_enum, plain_func, plain_layout, plain_member, plain_program};
ghost use Rattle.c_syntax.specs.Statements.{plain_decl};
ghost use Rattle.c_model.specs.UnitTyping.{AFunction, AGlobal, ATypedef, AnEnum, in_order, items_of_file, member_items, struct_items, unknown};
ghost use Rattle.c_typing.specs.Files.{bare, emptied, head_at, kinds, plain_file_item, with_items, without_kinds};

use crate::item::{FileItem, offset_of};
use c_syntax::{Decl, EnumDef, Func, Layout, Member, Program};
use std::alloc::{AllocError, Global};
use std::mem::replace;

/// Adds the members of the struct with an index.
fn add_members(items: &mut Vec<FileItem>, k: usize, members: Vec<Member>) -> Result<(), AllocError>
    ensures { OnOk result (map plain_file_item items.new.items
        ≡ map plain_file_item items.old.items ++ member_items k (map plain_member members.items)) }
{
    let mut left = members.len();
    for m in members {
        left -= 1;
        items.push(FileItem::Inside(k, m, left == 0))?;
    }
    Ok(())
}

/// Adds the head and the members of a struct, of which nothing is known then.
fn take_struct(
    alloc: Global,
    items: &mut Vec<FileItem>,
    k: usize,
    s: &mut Layout,
) -> Result<(), AllocError>
    ensures items { OnOk result (map plain_file_item items.new.items
        ≡ map plain_file_item items.old.items ++ head_at s.old.place s.old.tag ∷ member_items k (plain_layout s.old).members) }
    ensures left { OnOk result (plain_layout s.new ≡ unknown (plain_layout s.old)) }
{
    items.push(FileItem::Head(s.place, s.tag))?;
    let members = replace(&mut s.members, Vec::new(alloc));
    s.size = 0;
    s.align = 1;
    add_members(items, k, members)
}

/// Adds the heads and the members of structs.
fn take_structs(
    alloc: Global,
    items: &mut Vec<FileItem>,
    structs: &mut Vec<Layout>,
) -> Result<(), AllocError>
    ensures items { OnOk result (map plain_file_item items.new.items
        ≡ map plain_file_item items.old.items ++ map bare (struct_items 0 (map plain_layout structs.old.items))) }
    ensures left { OnOk result (map plain_layout structs.new.items ≡ map unknown (map plain_layout structs.old.items)) }
{
    for k in 0..structs.len() {
        take_struct(alloc, items, k, &mut structs[k])?;
    }
    Ok(())
}

fn add_enums(items: &mut Vec<FileItem>, list: Vec<EnumDef>) -> Result<(), AllocError>
    ensures { OnOk result (map plain_file_item items.new.items ≡ map plain_file_item items.old.items ++ map AnEnum (map plain_enum list.items)) }
{
    for one in list {
        items.push(FileItem::Enum(one))?;
    }
    Ok(())
}

fn add_typedefs(items: &mut Vec<FileItem>, list: Vec<Decl>) -> Result<(), AllocError>
    ensures { OnOk result (map plain_file_item items.new.items ≡ map plain_file_item items.old.items ++ map ATypedef (map plain_decl list.items)) }
{
    for one in list {
        items.push(FileItem::Typedef(one))?;
    }
    Ok(())
}

fn add_globals(items: &mut Vec<FileItem>, list: Vec<Decl>) -> Result<(), AllocError>
    ensures { OnOk result (map plain_file_item items.new.items ≡ map plain_file_item items.old.items ++ map AGlobal (map plain_decl list.items)) }
{
    for one in list {
        items.push(FileItem::Global(one))?;
    }
    Ok(())
}

fn add_functions(items: &mut Vec<FileItem>, list: Vec<Func>) -> Result<(), AllocError>
    ensures { OnOk result (map plain_file_item items.new.items ≡ map plain_file_item items.old.items ++ map AFunction (map plain_func list.items)) }
{
    for one in list {
        items.push(FileItem::Function(one))?;
    }
    Ok(())
}

/// Takes what a file declares besides structs, kind by kind.
fn take_kinds(
    alloc: Global,
    items: &mut Vec<FileItem>,
    program: &mut Program,
) -> Result<(), AllocError>
    ensures items { OnOk result (map plain_file_item items.new.items ≡ map plain_file_item items.old.items ++ kinds (plain_program program.old)) }
    ensures left { OnOk result (plain_program program.new ≡ without_kinds (plain_program program.old)) }
{
    add_enums(items, replace(&mut program.enums, Vec::new(alloc)))?;
    add_typedefs(items, replace(&mut program.typedefs, Vec::new(alloc)))?;
    add_globals(items, replace(&mut program.globals, Vec::new(alloc)))?;
    add_functions(items, replace(&mut program.funcs, Vec::new(alloc)))
}

/// Takes what a file declares, kind by kind. Of its structs nothing is known then.
fn take_all(
    alloc: Global,
    items: &mut Vec<FileItem>,
    program: &mut Program,
) -> Result<(), AllocError>
    ensures items { OnOk result (map plain_file_item items.new.items ≡ map plain_file_item items.old.items
        ++ (map bare (struct_items 0 (plain_program program.old).structs) ++ kinds (plain_program program.old))) }
    ensures left { OnOk result (plain_program program.new ≡ emptied (plain_program program.old)) }
{
    take_structs(alloc, items, &mut program.structs)?;
    take_kinds(alloc, items, program)
}

/// Puts items in the order of the text, where those at one offset stay as they stand.
fn sort(items: &mut Vec<FileItem>) -> Result<(), AllocError>
    ensures { OnOk result (map plain_file_item items.new.items ≡ in_order (map plain_file_item items.old.items)) }
{
    items.sort_by_key(|i| offset_of(i))?;
    Ok(())
}

/// Takes what a file declares, in the order of the text. Of its structs nothing is known then.
pub fn take_items(alloc: Global, program: &mut Program) -> Result<Vec<FileItem>, AllocError>
    ensures items { IfOk result (λ v. map plain_file_item v.items ≡ map bare (items_of_file (plain_program program.old))) }
    ensures left { OnOk result (plain_program program.new ≡ emptied (plain_program program.old)) }
{
    let mut items = Vec::new(alloc);
    take_all(alloc, &mut items, program)?;
    sort(&mut items)?;
    Ok(items)
}

/// Takes what a file declares besides structs, in the order of the text.
pub fn take_declared(alloc: Global, program: &mut Program) -> Result<Vec<FileItem>, AllocError>
    ensures items { IfOk result (λ v. map plain_file_item v.items ≡ in_order (kinds (plain_program program.old))) }
    ensures left { OnOk result (plain_program program.new ≡ without_kinds (plain_program program.old)) }
{
    let mut items = Vec::new(alloc);
    take_kinds(alloc, &mut items, program)?;
    sort(&mut items)?;
    Ok(items)
}

fn put_enum(list: &mut Vec<EnumDef>, e: EnumDef) -> Result<(), AllocError>
    ensures { OnOk result (list.new.items ≡ list.old.items ++ e ∷ []) }
{
    list.push(e)?;
    Ok(())
}

fn put_decl(list: &mut Vec<Decl>, d: Decl) -> Result<(), AllocError>
    ensures { OnOk result (list.new.items ≡ list.old.items ++ d ∷ []) }
{
    list.push(d)?;
    Ok(())
}

fn put_function(list: &mut Vec<Func>, f: Func) -> Result<(), AllocError>
    ensures { OnOk result (list.new.items ≡ list.old.items ++ f ∷ []) }
{
    list.push(f)?;
    Ok(())
}

/// Gives an item back to its file. Heads and members of structs stand in what is in sight.
fn put_item(program: &mut Program, item: FileItem) -> Result<(), AllocError>
    ensures { OnOk result (plain_program program.new ≡ with_items (plain_program program.old) (plain_file_item item ∷ [])) }
{
    match item {
        FileItem::Head(..) => Ok(()),
        FileItem::Inside(..) => Ok(()),
        FileItem::Enum(e) => put_enum(&mut program.enums, e),
        FileItem::Typedef(d) => put_decl(&mut program.typedefs, d),
        FileItem::Global(d) => put_decl(&mut program.globals, d),
        FileItem::Function(f) => put_function(&mut program.funcs, f),
    }
}

/// Gives items back to their file, each behind those of its kind.
pub fn put_items(program: &mut Program, items: Vec<FileItem>) -> Result<(), AllocError>
    ensures { OnOk result (plain_program program.new ≡ with_items (plain_program program.old) (map plain_file_item items.items)) }
{
    for item in items {
        put_item(program, item)?;
    }
    Ok(())
}
