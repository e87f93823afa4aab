//! Names and types of a file (C99 6.2.1, 6.9).

ghost use Rattle.std.specs.Prelude.{◌≡◌, [], IfOk, OnOk, map, nat_eq};
ghost use Rattle.c_syntax.specs.Programs.{plain_enum, plain_layout, plain_member, plain_program};
ghost use Rattle.c_model.specs.UnitTyping.{levels_from, levels_with, tags_of, typed_unit};
ghost use Rattle.c_scopes.specs.Answers.{Answers};
ghost use Rattle.c_scopes.specs.Sights.{plain_sight};
ghost use Rattle.indexmap.specs.IndexMap.{get};
ghost use Rattle.c_typing.specs.Files.{Finished, all_kept, course_at, first_in, items_in_turn, plain_course, plain_file_item, with_sight, without_sight};

use crate::item::{Course, FileItem, add_tag, type_item};
use crate::order::{put_items, take_items};
use c_declaration_rules::layout::{greater, levels_of, more};
use c_declaration_rules::open_struct::OpenStructs;
use c_function_rules::heading::{Callee, denoted};
use c_scopes::entities::Entities;
use c_scopes::fault::TypeFault;
use c_scopes::literal::{Literals, firsts_of};
use c_scopes::sight::Sight;
use c_scopes::signature::Functions;
use c_scopes::tag::Tags;
use c_scopes::type_name::TypeNames;
use c_syntax::{EnumDef, Layout, Member, Program};
use indexmap::IndexMap;
use std::alloc::{AllocError, Global};
use std::mem::replace;

/// The tags of enums.
#[tactic(auto, using(crate::proofs::Items::with_tag_then))]
pub fn tags_of(alloc: Global, enums: &[EnumDef]) -> Result<Tags, AllocError>
    ensures { IfOk result (λ tags. tags.list.items ≡ tags_of (map plain_enum enums.now)) }
{
    let mut tags = Tags::new(alloc);
    let mut rest = enums;
    'turn: while let [e, after @ ..] = rest {
        add_tag(&mut tags, e.tag)?;
        rest = after;
    }
    Ok(tags)
}

/// The levels of a struct with these members, among structs of so many.
fn levels_with(levels: &[u32], members: &[Member]) -> Result<u32, AllocError>
    ensures { IfOk result (λ n. n ≡ levels_with levels.now 0 (map plain_member members.now)) }
{
    let mut most = 0;
    let mut rest = members;
    'turn: while let [m, after @ ..] = rest {
        most = greater(most, more(levels_of(levels, &m.ctype)?)?);
        rest = after;
    }
    Ok(most)
}

/// The levels of each struct.
fn struct_levels(alloc: Global, structs: &[Layout]) -> Result<Vec<u32>, AllocError>
    ensures { IfOk result (λ v. v.items ≡ levels_from [] (map plain_layout structs.now)) }
{
    let mut levels = Vec::new(alloc);
    let mut rest = structs;
    'turn: while let [s, after @ ..] = rest {
        let count = levels_with(&levels, &s.members)?;
        levels.push(count)?;
        rest = after;
    }
    Ok(levels)
}

/// What is known before the first item. The file's names, strings and structs move into what is in sight.
pub fn first_course(
    alloc: Global,
    program: &mut Program,
    enum_tags: Tags,
) -> Result<Course, AllocError>
    ensures first { IfOk result (λ c. plain_course c ≡ course_at (first_in (plain_program program.old) enum_tags.list.items)) }
    ensures left { OnOk result (plain_program program.new ≡ without_sight (plain_program program.old)) }
{
    let levels = struct_levels(alloc, &program.structs)?;
    let firsts = firsts_of(alloc, &program.texts)?;
    let texts = Literals {
        list: replace(&mut program.texts, Vec::new(alloc)),
        firsts,
    };
    let sight = Sight {
        names: replace(&mut program.names, Vec::new(alloc)),
        texts,
        functions: Functions::new(alloc),
        entities: Entities::new(alloc),
        innermost: 0,
        types: TypeNames::new(alloc),
        structs: replace(&mut program.structs, Vec::new(alloc)),
        levels,
        enum_tags,
        enums: Tags::new(alloc),
    };
    Ok(Course {
        sight,
        tags: Tags::new(alloc),
        names: IndexMap::new(alloc),
    })
}

/// Gives a file its names, strings and structs back.
fn give_back(program: &mut Program, course: Course)
    ensures { plain_program program.new ≡ with_sight (plain_program program.old) (plain_sight course.sight) }
{
    let Course { sight, .. } = course;
    let Sight {
        names,
        texts,
        structs,
        ..
    } = sight;
    program.names = names;
    program.texts = texts.list;
    program.structs = structs;
}

/// Types items in turn, by what each name of a function denotes.
fn type_each(
    alloc: Global,
    numbers: &IndexMap<u32, Callee>,
    course: &mut Course,
    items: &mut Vec<FileItem>,
) -> Result<(), TypeFault>
    ensures { Answers (λ _. (plain_course course.new, all_kept (map plain_file_item items.new.items)))
        (items_in_turn (get nat_eq numbers.now) (plain_course course.old) (map plain_file_item items.old.items)) result }
{
    let mut begun = OpenStructs::new(alloc);
    for i in 0..items.len() {
        type_item(alloc, numbers, course, &mut begun, &mut items[i])?;
    }
    Ok(())
}

/// Gives a file what is typed of it, where no item is refused.
pub fn finish(
    program: &mut Program,
    course: Course,
    items: Vec<FileItem>,
    typed: Result<(), TypeFault>,
) -> Result<(), TypeFault>
    ensures { Finished typed (plain_program program.old) (plain_sight course.sight) (map plain_file_item items.items) (plain_program program.new) result }
{
    match typed {
        Err(fault) => Err(fault),
        Ok(()) => {
            give_back(program, course);
            put_items(program, items)?;
            Ok(())
        }
    }
}

/// Types a file: what it declares, in the order of the text.
pub fn type_unit(alloc: Global, program: &mut Program) -> Result<(), TypeFault>
    ensures { Answers (λ _. plain_program program.new) (typed_unit (plain_program program.old)) result }
{
    let numbers = denoted(alloc, &program.funcs)?;
    let tags = tags_of(alloc, &program.enums)?;
    let mut items = take_items(alloc, program)?;
    let mut course = first_course(alloc, program, tags)?;
    let typed = type_each(alloc, &numbers, &mut course, &mut items);
    finish(program, course, items, typed)
}
