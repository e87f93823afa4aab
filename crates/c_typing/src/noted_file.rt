//! Names and types of the annotations of a text (ACSL 2.2), whose C has no fault.

ghost use Rattle.std.specs.Prelude.{◌≡◌, ◌+ℤ◌, IfOk, MatchResult, OnOk, map, nat_eq, option_map, pos, true};
ghost use Rattle.c_syntax.specs.declared.types.CInt.TheVariants.{I32};
ghost use Rattle.c_syntax.specs.Expressions.{plain_expr};
ghost use Rattle.c_syntax.specs.Programs.{plain_enum, plain_enumerator, plain_func, plain_program};
ghost use Rattle.c_syntax.specs.Tokens.{plain_tokens};
ghost use Rattle.c_model.specs.Checked.{Good};
ghost use Rattle.c_model.specs.Integers.{fits};
ghost use Rattle.c_model.specs.DeclarationTyping.{with_enumerator};
ghost use Rattle.c_model.specs.UnitTyping.{behind_enum, value_typed, with_enumerators};
ghost use Rattle.c_model.specs.AnnotationTyping.{noted_unit};
ghost use Rattle.c_scopes.specs.Answers.{Answers};
ghost use Rattle.c_scopes.specs.Sights.{plain_sight};
ghost use Rattle.indexmap.specs.IndexMap.{get};
ghost use Rattle.c_phases.specs.Answers.{IsFaultRefusal, RefusedBy};
ghost use Rattle.c_function_rules.specs.Functions.{with_function_by};
ghost use Rattle.c_typing.specs.Files.{plain_file_item};
ghost use Rattle.c_typing.specs.NotedFiles.{IsOrdered, IsSmallValue, ItemKnown, ValuesKnown, all_behind, behind_in_turn, known_in_turn};
ghost use Rattle.c_typing.specs.NotedFiles.{note_in_turn, notes_in_turn, standing_unit};
ghost use Rattle.c_typing.specs.NotedContracts.{function_by, numbers_in};

use crate::checked::Typed;
use crate::contract::{move_contracts, parameter_numbers};
use crate::file::{finish, first_course, tags_of};
use crate::item::{FileItem, add_tag, see_type};
use crate::noted::note_function;
use crate::order::take_declared;
use c_expression_rules::constant::constant;
use c_function_rules::heading::{Callee, denoted, see_function};
use c_phases::{Noted, refuse};
use c_scopes::entity::{Entity, Enumerator as Constant};
use c_scopes::fault::TypeFault;
use c_scopes::sight::{Sight, with_object};
use c_syntax::{EnumDef, Enumerator, Expr, FrontFault, Func, Program};
use indexmap::IndexMap;
use std::alloc::{AllocError, Global};

/// The value of an enumerator: that of its constant, or one more than the value before.
fn value_typed(sight: &Sight, next: i128, value: &Option<Expr>) -> i128
    requires { IsSmallValue (plain_sight sight.now) (option_map plain_expr value.now) }
    ensures { result ≡ value_typed (plain_sight sight.now) next (option_map plain_expr value.now) }
{
    match value {
        None => next,
        Some(x) => match constant(sight, x) {
            None => next,
            Some(z) => z,
        },
    }
}

/// Brings an enumerator with its value in sight. Gives the value of one behind it.
fn see_value(sight: &mut Sight, name: u32, value: i128) -> Result<i128, AllocError>
    requires { fits I32 value ≡ true }
    ensures seen { OnOk result (plain_sight sight.new ≡ with_enumerator (plain_sight sight.old) name value) }
    ensures next { IfOk result (λ z. z ≡ value +ℤ pos 1) }
{
    let next = value + 1;
    let value = value as i32;
    sight
        .entities
        .push(Entity::AnEnumerator(Constant { name, value }))?;
    Ok(next)
}

/// Brings a typed enumerator in sight. Gives the value of one behind it.
fn see_next(sight: &mut Sight, next: i128, e: &Enumerator) -> Result<i128, AllocError>
    requires small { IsSmallValue (plain_sight sight.old) (plain_enumerator e.now).value }
    requires fits { fits I32 (value_typed (plain_sight sight.old) next (plain_enumerator e.now).value) ≡ true }
    ensures seen { OnOk result (plain_sight sight.new
        ≡ with_enumerator (plain_sight sight.old) e.now.name (value_typed (plain_sight sight.old) next (plain_enumerator e.now).value)) }
    ensures next { IfOk result (λ z. z ≡ value_typed (plain_sight sight.old) next (plain_enumerator e.now).value +ℤ pos 1) }
{
    let value = value_typed(sight, next, &e.value);
    see_value(sight, e.name, value)
}

/// Brings typed enumerators in sight.
fn see_enumerators(sight: &mut Sight, items: &[Enumerator]) -> Result<(), AllocError>
    requires { ValuesKnown (plain_sight sight.old) (pos 0) (map plain_enumerator items.now) }
    ensures { OnOk result (plain_sight sight.new ≡ with_enumerators (plain_sight sight.old) (pos 0) (map plain_enumerator items.now)) }
{
    let mut next = 0;
    let mut rest = items;
    'turn: while let [e, after @ ..] = rest {
        next = see_next(sight, next, e)?;
        rest = after;
    }
    Ok(())
}

/// Brings a typed enum in sight: its enumerators, and its tag behind them.
fn see_enum(sight: &mut Sight, e: &EnumDef) -> Result<(), AllocError>
    requires { ValuesKnown (plain_sight sight.old) (pos 0) (plain_enum e.now).items }
    ensures { OnOk result (plain_sight sight.new ≡ behind_enum (plain_sight sight.old) (plain_enum e.now)) }
{
    see_enumerators(sight, &e.items)?;
    add_tag(&mut sight.enums, e.tag)?;
    Ok(())
}

/// The contract and the annotations of a function, which is in sight in itself and behind it.
fn note_defined(
    alloc: Global,
    numbers: &IndexMap<u32, Callee>,
    definitions: &IndexMap<u32, Vec<u32>>,
    sight: &mut Sight,
    f: &mut Func,
) -> Result<(), TypeFault>
    ensures noted { Answers (λ _. plain_func f.new)
        (function_by (numbers_in definitions.now) (with_function_by (get nat_eq numbers.now) (plain_sight sight.old) (plain_func f.old))
        (plain_func f.old)) result }
    ensures behind { OnOk result (plain_sight sight.new ≡ with_function_by (get nat_eq numbers.now) (plain_sight sight.old) (plain_func f.old)) }
{
    see_function(alloc, sight, numbers, f)?;
    note_function(alloc, sight, definitions, f)
}

/// Types the annotations of an item, and brings in sight what it declares.
fn note_item(
    alloc: Global,
    numbers: &IndexMap<u32, Callee>,
    definitions: &IndexMap<u32, Vec<u32>>,
    sight: &mut Sight,
    item: &mut FileItem,
) -> Result<(), TypeFault>
    requires { ItemKnown (plain_sight sight.old) (plain_file_item item.old) }
    ensures noted { Answers (λ _. plain_file_item item.new)
        (note_in_turn (get nat_eq numbers.now) (numbers_in definitions.now) (plain_sight sight.old) (plain_file_item item.old)) result }
    ensures behind { OnOk result (plain_sight sight.new ≡ behind_in_turn (get nat_eq numbers.now) (plain_sight sight.old) (plain_file_item item.old)) }
{
    match item {
        FileItem::Head(..) => Ok(()),
        FileItem::Inside(..) => Ok(()),
        FileItem::Enum(e) => {
            see_enum(sight, e)?;
            Ok(())
        }
        FileItem::Typedef(d) => {
            see_type(alloc, sight, d)?;
            Ok(())
        }
        FileItem::Global(d) => {
            with_object(alloc, sight, d)?;
            Ok(())
        }
        FileItem::Function(f) => note_defined(alloc, numbers, definitions, sight, f),
    }
}

/// Types the annotations of items in turn.
fn note_each(
    alloc: Global,
    numbers: &IndexMap<u32, Callee>,
    definitions: &IndexMap<u32, Vec<u32>>,
    sight: &mut Sight,
    items: &mut Vec<FileItem>,
) -> Result<(), TypeFault>
    requires { known_in_turn (get nat_eq numbers.now) (plain_sight sight.old) (map plain_file_item items.old.items) }
    ensures noted { Answers (λ _. map plain_file_item items.new.items)
        (notes_in_turn (get nat_eq numbers.now) (numbers_in definitions.now) (plain_sight sight.old) (map plain_file_item items.old.items)) result }
    ensures behind { OnOk result (plain_sight sight.new ≡ all_behind (get nat_eq numbers.now) (plain_sight sight.old) (map plain_file_item items.old.items)) }
{
    for i in 0..items.len() {
        note_item(alloc, numbers, definitions, sight, &mut items[i])?;
    }
    Ok(())
}

/// Types the annotations of a file, where each contract stands as it is written.
fn note_standing(alloc: Global, program: &mut Program) -> Result<(), TypeFault>
    requires { IsOrdered (plain_program program.old) }
    ensures { Answers (λ _. plain_program program.new) (standing_unit (plain_program program.old)) result }
{
    let numbers = denoted(alloc, &program.funcs)?;
    let definitions = parameter_numbers(alloc, &program.funcs)?;
    let tags = tags_of(alloc, &program.enums)?;
    let mut items = take_declared(alloc, program)?;
    let mut course = first_course(alloc, program, tags)?;
    let noted = note_each(alloc, &numbers, &definitions, &mut course.sight, &mut items);
    finish(program, course, items, noted)
}

/// Types the annotations of a file, and moves each contract to the definition of its name.
fn note_unit(alloc: Global, program: &mut Program) -> Result<(), TypeFault>
    requires { IsOrdered (plain_program program.old) }
    ensures { Answers (λ _. plain_program program.new) (noted_unit (plain_program program.old)) result }
{
    note_standing(alloc, program)?;
    move_contracts(alloc, &mut program.funcs)?;
    Ok(())
}

/// The program of a text whose C is typed, with its annotations typed; or the refusal, with code 5 for a name, and 6 or 11 for a type.
pub fn type_annots(alloc: Global, typed: Typed) -> Result<Noted, FrontFault>
    ensures noted { MatchResult result (λ n. noted_unit (plain_program typed.program) ≡ Good (plain_program n.program))
        (λ e. RefusedBy (IsFaultRefusal (plain_tokens typed.tokens) (noted_unit (plain_program typed.program))) e) }
    ensures tokens { IfOk result (λ n. n.tokens ≡ typed.tokens) }
{
    let Typed {
        program,
        tokens,
        ..
    } = typed;
    let mut program = program;
    match note_unit(alloc, &mut program) {
        Ok(()) => Ok(Noted { program, tokens }),
        Err(fault) => Err(refuse(alloc, &tokens, fault)),
    }
}
