//! Initialisers (C99 6.7.8).

ghost use Rattle.std.specs.Prelude.{◌≡◌, IfOk, drop, get_or, length, map, option_map, true};
ghost use Rattle.c_syntax.specs.Ctypes.{plain_type};
ghost use Rattle.c_syntax.specs.Expressions.{Expression, place_of, plain_expr};
ghost use Rattle.c_syntax.specs.Programs.{plain_member};
ghost use Rattle.c_syntax.specs.Statements.{Initialisers, Listed, One, plain_init, plain_inits};
ghost use Rattle.c_model.specs.Checked.{one_part};
ghost use Rattle.c_model.specs.ExpressionTyping.{typed};
ghost use Rattle.c_model.specs.Meaning.{string_in};
ghost use Rattle.c_model.specs.DeclarationTyping.{bytes_of_text, initial_value, is_text, is_text_array, no_more, place_of_initialiser};
ghost use Rattle.c_model.specs.DeclarationTyping.{slots_of, takes_text, too_many, typed_alone, typed_initialiser, typed_items, typed_maybe_initialiser};
ghost use Rattle.c_scopes.specs.Answers.{Answers};
ghost use Rattle.c_scopes.specs.Sights.{plain_sight};
ghost use Rattle.c_expression_rules.specs.Constants.{has_small_sizes};
ghost use Rattle.c_declaration_rules.specs.Objects.{plain_maybe_init};
ghost use Rattle.c_declaration_rules.specs.Initialisers.{allowed, allowed_where, is_text_alone, slot, type_at, valued};

use crate::constant::is_static;
use c_conversions::conversion::{is_character, is_scalar};
use c_expression_rules::assignment::is_assigned;
use c_expression_rules::expression::type_expr;
use c_expression_rules::operator::{decay, in_type};
use c_scopes::fault::{TypeFault, both, no_type};
use c_scopes::literal::string_in;
use c_scopes::sight::Sight;
use c_syntax::layout::{count_of, members_of};
use c_syntax::{CType, Expr, ExprKind, Init, Member, Place};
use std::alloc::{AllocError, Global};
use std::mem::replace;

/// The place of an initialiser: of its expression, or its `{`.
fn place_of(init: &Init) -> Place
    ensures { result ≡ place_of_initialiser (plain_init init.now) }
{
    match init {
        Init::One(e) => e.place,
        Init::Many(place, _) => *place,
    }
}

/// The type of the member of an index, where there are so many.
fn type_at(members: &[Member], k: usize) -> Option<&CType>
    ensures { option_map (λ t. plain_type t.now) result ≡ type_at (map plain_member members.now) k }
{
    match members.get(k) {
        None => None,
        Some(m) => Some(&m.ctype),
    }
}

/// The type of the object that the item of an index initialises, in a list for a type (C99 6.7.8 p17).
fn slot<'a>(sight: &'a Sight, t: &'a CType, k: usize) -> Option<&'a CType>
    ensures { option_map (λ u. plain_type u.now) result ≡ slot (plain_sight sight.now) (plain_type t.now) k }
{
    match t {
        CType::Array(u, n) => {
            if k < count_of(n) as usize {
                Some(u)
            } else {
                None
            }
        }
        CType::Struct(_) => type_at(members_of(&sight.structs, t), k),
        _ => { if k == 0 { Some(t) } else { None } }
    }
}

/// Whether an expression is a string literal.
fn is_text(e: &Expr) -> bool
    ensures { result ≡ is_text (plain_expr e.now) }
{
    matches!(&*e.kind, ExprKind::Text(_))
}

/// The count of the bytes of a string literal.
fn bytes_of_text(sight: &Sight, n: u32) -> usize
    ensures { result ≡ bytes_of_text (plain_sight sight.now) n }
{
    match sight.texts.list.get(n as usize) {
        None => 0,
        Some(text) => text.bytes.bytes().len(),
    }
}

/// Whether a string initialises an object of the type: an array of characters with room for it, but for its last 0 (C99 6.7.8 p14).
fn takes_text(sight: &Sight, t: &CType, e: &Expr) -> bool
    ensures { result ≡ takes_text (plain_sight sight.now) (plain_type t.now) (string_in (plain_expr e.now)) }
{
    match (t, string_in(e)) {
        (CType::Array(u, n), Some(k)) => {
            is_character(u) && bytes_of_text(sight, k) <= count_of(n) as usize
        }
        _ => false,
    }
}

/// Whether a list is a string.
fn is_text_alone(items: &[Init]) -> bool
    ensures { result ≡ is_text_alone (plain_inits items.now) }
{
    match items {
        [Init::One(e)] => is_text(e),
        _ => false,
    }
}

/// Whether a list is a string in braces for an array of characters.
fn is_text_array(t: &CType, items: &[Init]) -> bool
    ensures { result ≡ is_text_array (plain_type t.now) (plain_inits items.now) }
{
    match t {
        CType::Array(u, _) => is_text_alone(items) && is_character(u),
        _ => false,
    }
}

/// Whether a typed expression, which was read as a string literal or wasn't, may initialise.
fn is_allowed(sight: &Sight, global: bool, text: bool, e: &Expr) -> Result<bool, AllocError>
    ensures { IfOk result (λ b. b ≡ allowed_where (plain_sight sight.now) global text (plain_expr e.now)) }
{
    if global {
        is_static(sight, text, e)
    } else {
        Ok(true)
    }
}

/// Puts a value in the type of the object that it initialises; its fault is put here.
fn put_value(
    alloc: Global,
    sight: &Sight,
    global: bool,
    text: bool,
    here: Place,
    t: &CType,
    e: &mut Expr,
) -> Result<(), TypeFault>
    requires { has_small_sizes (plain_sight sight.now).structs (plain_expr e.old) ≡ true }
    ensures { Answers (λ _. One (plain_expr e.new))
        (valued (plain_sight sight.now) global text here (plain_type t.now) (plain_expr e.old)) result }
{
    if !(is_scalar(t) && is_assigned(sight, e, t)) {
        return Err(no_type(here));
    }
    in_type(alloc, t, e)?;
    if is_allowed(sight, global, text, e)? {
        Ok(())
    } else {
        Err(no_type(here))
    }
}

/// Types an expression for an object of the type.
fn type_one(
    alloc: Global,
    sight: &Sight,
    global: bool,
    here: Place,
    t: &CType,
    e: &mut Expr,
) -> Result<(), TypeFault>
    ensures { Answers (λ _. One (plain_expr e.new)) (one_part (typed (plain_sight sight.now) (plain_expr e.old))
        (initial_value (plain_sight sight.now) (allowed (plain_sight sight.now) global) here (plain_type t.now)
        (plain_expr e.old))) result }
{
    let text = is_text(e);
    type_expr(alloc, sight, e)?;
    if takes_text(sight, t, e) {
        return Ok(());
    }
    decay(alloc, e)?;
    put_value(alloc, sight, global, text, here, t, e)
}

/// An item for which there is no object, once its expression has no fault of its own.
fn too_many(alloc: Global, sight: &Sight, item: &mut Init) -> Result<(), TypeFault>
    ensures { (is : Initialisers) → Answers (λ _. is) (too_many (plain_sight sight.now) (plain_init item.old)) result }
{
    match item {
        Init::One(e) => {
            let place = e.place;
            type_expr(alloc, sight, e)?;
            Err(no_type(place))
        }
        Init::Many(place, _) => Err(no_type(*place)),
    }
}

/// No item stands after the one of a scalar.
fn no_more(alloc: Global, sight: &Sight, items: &mut Vec<Init>) -> Result<(), TypeFault>
    ensures typed { Answers (λ _. plain_inits (drop 1 items.new.items)) (no_more (plain_sight sight.now) (plain_inits (drop 1 items.old.items))) result }
    ensures count { length items.new.items ≡ length items.old.items }
    ensures first { (x : Init) → get_or items.new.items 0 x ≡ get_or items.old.items 0 x }
{
    if items.len() < 2 {
        return Ok(());
    }
    too_many(alloc, sight, &mut items[1])
}

/// Types the first item in braces around a scalar, which has no braces of its own (C99 6.7.8 p11).
fn type_first(
    alloc: Global,
    sight: &Sight,
    global: bool,
    t: &CType,
    more: Result<(), TypeFault>,
    first: &mut Init,
) -> Result<(), TypeFault>
    ensures { (is js : Initialisers) → Answers (λ _. js) (no_more (plain_sight sight.now) is) more → Answers (λ _. Listed (plain_init first.new) js)
        (typed_alone (plain_sight sight.now) (allowed (plain_sight sight.now) global) (plain_type t.now)
        (Listed (plain_init first.old) is)) result }
{
    match first {
        Init::One(e) => {
            let place = e.place;
            both(type_one(alloc, sight, global, place, t, e), more)
        }
        Init::Many(place, _) => Err(no_type(*place)),
    }
}

/// Types the one item in braces around a scalar.
fn type_alone(
    alloc: Global,
    sight: &Sight,
    global: bool,
    t: &CType,
    items: &mut Vec<Init>,
) -> Result<(), TypeFault>
    ensures { Answers (λ _. plain_inits items.new.items)
        (typed_alone (plain_sight sight.now) (allowed (plain_sight sight.now) global) (plain_type t.now)
        (plain_inits items.old.items)) result }
{
    if items.is_empty() {
        return Ok(());
    }
    let more = no_more(alloc, sight, items);
    type_first(alloc, sight, global, t, more, &mut items[0])
}

/// Types an initialiser for an object of the type; the fault of an expression is put here: at the `=`, and in braces at the item.
#[cycle(initialiser)]
fn type_initialiser(
    alloc: Global,
    init: &mut Init,
    sight: &Sight,
    global: bool,
    here: Place,
    t: &CType,
) -> Result<(), TypeFault>
    ensures { Answers (λ _. plain_init init.new)
        (typed_initialiser (plain_sight sight.now) (allowed (plain_sight sight.now) global) here (plain_type t.now)
        (plain_init init.old)) result }
{
    match init {
        Init::One(e) => type_one(alloc, sight, global, here, t, e),
        Init::Many(_brace, items) => {
            if is_scalar(t) {
                type_alone(alloc, sight, global, t, items)
            } else if is_text_array(t, items) {
                match items.pop() {
                    None => Err(TypeFault::Memory),
                    Some(inner) => {
                        drop(replace(init, inner));
                        type_bare(alloc, sight, global, t, init)
                    }
                }
            } else {
                type_items(alloc, items, sight, global, t)
            }
        }
    }
}

/// Types an expression that stood in braces; its fault is put at it.
fn type_bare(
    alloc: Global,
    sight: &Sight,
    global: bool,
    t: &CType,
    init: &mut Init,
) -> Result<(), TypeFault>
    ensures { (e : Expression) → plain_init init.old ≡ One e → Answers (λ _. plain_init init.new) (one_part (typed (plain_sight sight.now) e)
        (initial_value (plain_sight sight.now) (allowed (plain_sight sight.now) global) (place_of e)
        (plain_type t.now) e))
        result }
{
    match init {
        Init::One(e) => {
            let place = e.place;
            type_one(alloc, sight, global, place, t, e)
        }
        Init::Many(place, _) => Err(no_type(*place)),
    }
}

/// Types items, each for its part of an object of the type; the first too many is a fault (C99 6.7.8 p17).
#[cycle(initialiser)]
fn type_items(
    alloc: Global,
    items: &mut Vec<Init>,
    sight: &Sight,
    global: bool,
    t: &CType,
) -> Result<(), TypeFault>
    ensures { Answers (λ _. plain_inits items.new.items)
        (typed_items (plain_sight sight.now) (allowed (plain_sight sight.now) global)
        (slots_of (plain_sight sight.now) (plain_type t.now)) (plain_inits items.old.items)) result }
{
    let mut done = Ok(());
    for i in 0..items.len() {
        match slot(sight, t, i) {
            None => return both(done, too_many(alloc, sight, &mut items[i])),
            Some(u) => {
                let place = place_of(&items[i]);
                let item = type_initialiser(alloc, &mut items[i], sight, global, place, u);
                done = both(done, item);
            }
        }
    }
    done
}

/// Types what an object of the type is initialised with, where it is; a fault of an expression is put at the `=`.
pub fn type_maybe_initialiser(
    alloc: Global,
    sight: &Sight,
    global: bool,
    t: &CType,
    init: &mut Option<(Place, Init)>,
) -> Result<(), TypeFault>
    ensures { Answers (λ _. plain_maybe_init init.new)
        (typed_maybe_initialiser (plain_sight sight.now) (allowed (plain_sight sight.now) global) (plain_type t.now)
        (plain_maybe_init init.old)) result }
{
    match init {
        None => Ok(()),
        Some((place, init)) => type_initialiser(alloc, init, sight, global, *place, t),
    }
}
