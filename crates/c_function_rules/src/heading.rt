//! Headings of functions: what each name denotes, which declarations of one name fit each other, and what each tells its callers
//! (C99 6.2.1, 6.7.5.3, 6.9).

ghost use Rattle.std.specs.Prelude.{◌≡◌, ℕ, Err, IfErr, IfOk, Ok, OnOk, map, nat_eq};
ghost use Rattle.c_syntax.specs.Ctypes.{plain_type};
ghost use Rattle.c_syntax.specs.Statements.{plain_decl};
ghost use Rattle.c_syntax.specs.Programs.{plain_func};
ghost use Rattle.c_model.specs.ExpressionTyping.{function_called};
ghost use Rattle.c_model.specs.UnitTyping.{function_name, same_types, types_of};
ghost use Rattle.c_scopes.specs.Answers.{Answers, IsRefusal};
ghost use Rattle.c_scopes.specs.Sights.{plain_sight};
ghost use Rattle.c_scopes.specs.Signatures.{plain_signature};
ghost use Rattle.indexmap.specs.IndexMap.{get};
ghost use Rattle.c_function_rules.specs.Functions.{declared, denoted, fits_earlier, fitting, has_type, heading, is_alike, type_of_function};
ghost use Rattle.c_function_rules.specs.Functions.{tells_more, was_defined, with_function_by, with_known, with_told};

use crate::parameter::type_parameters;
use c_conversions::conversion::same_type;
use c_declaration_rules::name::own_name;
use c_declaration_rules::object::result_of;
use c_expression_rules::expression::type_written;
use c_scopes::fault::{TypeFault, both, no_name};
use c_scopes::sight::{Sight, declared_here};
use c_scopes::signature::{Functions, Signature};
use c_syntax::copy::copy_type;
use c_syntax::{CType, Decl, Func};
use indexmap::IndexMap;
use std::alloc::{AllocError, Global};

/// What a call of a name denotes: the number of its definition, or of its first prototype where the file has no definition.
#[derive(Clone, Copy, PartialEq, Eq, Debug)]
pub struct Callee {
    pub decl: u32,
    pub defined: bool,
}

/// Whether a function tells more of its name than those before it: it is the first, or the first definition.
fn tells_more(numbers: &IndexMap<u32, Callee>, f: &Func) -> bool
    ensures { result ≡ tells_more (get nat_eq numbers.now f.now.name) (plain_func f.now) }
{
    match numbers.get(&f.name) {
        None => true,
        Some(d) => f.body.is_some() && !d.defined,
    }
}

/// Keeps what a function tells of its name.
fn tell(numbers: &mut IndexMap<u32, Callee>, f: &Func) -> Result<(), AllocError>
    ensures { OnOk result ((x : ℕ) → get nat_eq numbers.new x ≡ with_told (get nat_eq numbers.old) (plain_func f.now) x) }
{
    if tells_more(numbers, f) {
        let denoted = Callee {
            decl: f.place.offset,
            defined: f.body.is_some(),
        };
        numbers.insert(f.name, denoted)?;
    }
    Ok(())
}

/// What each name of a function denotes.
pub fn denoted(alloc: Global, funcs: &[Func]) -> Result<IndexMap<u32, Callee>, AllocError>
    ensures { IfOk result (λ m. (x : ℕ) → get nat_eq m x ≡ denoted (map plain_func funcs.now) x) }
{
    let mut numbers = IndexMap::new(alloc);
    for f in funcs {
        tell(&mut numbers, f)?;
    }
    Ok(numbers)
}

/// Whether parameters have these types.
fn same_types(types: &[CType], params: &[Decl]) -> bool
    ensures { result ≡ same_types (map plain_type types.now) (types_of (map plain_decl params.now)) }
{
    let mut left = types;
    let mut right = params;
    'turn: while let [t, types_behind @ ..] = left {
        let [d, params_behind @ ..] = right else {
            return false;
        };
        if !same_type(t, &d.ctype) {
            return false;
        }
        left = types_behind;
        right = params_behind;
    }
    right.is_empty()
}

/// Whether a function has the type that its callers are told (C99 6.7.5.3 p15).
fn has_type(g: &Signature, f: &Func) -> bool
    ensures { result ≡ has_type (plain_signature g.now) (plain_func f.now) }
{
    same_type(&g.result, &f.result) && same_types(&g.params, &f.params)
}

/// What is kept of a name that is declared.
#[derive(Clone, Copy, PartialEq, Eq, Debug)]
pub struct Noted {
    /// Whether it is defined.
    pub defined: bool,
    /// Whether all its declarations have one type, so that the first tells the type of each.
    pub alike: bool,
}

/// Whether a function fits those that are declared before it: it has their type, and is defined once (C99 6.7 p4, 6.9 p5).
fn fits(functions: &Functions, names: &IndexMap<u32, Noted>, f: &Func) -> bool
    ensures { result ≡ fits_earlier (function_called f.now.name (map plain_signature functions.now.signatures.items))
        (get nat_eq names.now f.now.name) (plain_func f.now) }
{
    match names.get(&f.name) {
        None => true,
        Some(noted) => match functions.called(f.name) {
            None => true,
            Some(g) => noted.alike && has_type(g, f) && !(f.body.is_some() && noted.defined),
        },
    }
}

/// A function's name: none of the library's, of an object, of an enumerator or of a type.
fn check_name(sight: &Sight, f: &Func) -> Result<(), TypeFault>
    ensures checked { Answers (λ u. u) (function_name (plain_sight sight.now) (plain_func f.now)) result }
    ensures sure { IfErr result IsRefusal }
{
    let entity = declared_here(sight, f.name).is_some();
    let named = sight.types.named(f.name).is_some();
    own_name(sight, entity || named, f.place, f.name)
}

/// Whether a function fits those that are declared before it.
fn fitting(sight: &Sight, names: &IndexMap<u32, Noted>, f: &Func) -> Result<(), TypeFault>
    ensures { Answers (λ _. plain_func f.now) (fitting (plain_sight sight.now) (get nat_eq names.now) (plain_func f.now)) result }
{
    if fits(&sight.functions, names, f) {
        Ok(())
    } else {
        Err(no_name(f.place))
    }
}

/// Whether a function fits those that are declared before it, where its types have no fault as they are written.
fn fitting_after(
    sight: &Sight,
    names: &IndexMap<u32, Noted>,
    written: Result<(), TypeFault>,
    f: &Func,
) -> Result<(), TypeFault>
    ensures refused { (g : TypeFault) → written ≡ Err g → result ≡ Err g }
    ensures typed { (u : Unit {0}) → written ≡ Ok u
        → Answers (λ _. plain_func f.now) (fitting (plain_sight sight.now) (get nat_eq names.now) (plain_func f.now)) result }
{
    match written {
        Err(g) => Err(g),
        Ok(()) => fitting(sight, names, f),
    }
}

/// The result and the parameters of a function, which fit the declarations before it. What was in sight before is in sight after them.
fn type_signature(
    alloc: Global,
    sight: &mut Sight,
    names: &IndexMap<u32, Noted>,
    f: &mut Func,
) -> Result<(), TypeFault>
    ensures typed { Answers (λ _. plain_func f.new) (type_of_function (plain_sight sight.old) (get nat_eq names.now) (plain_func f.old)) result }
    ensures same { OnOk result (plain_sight sight.new ≡ plain_sight sight.old) }
{
    let defined = f.body.is_some();
    let place = f.place;
    let written = type_written(alloc, sight, place, &mut f.result);
    let result = result_of(sight, defined, place, &written, &f.result);
    let params = type_parameters(alloc, sight, defined, &mut f.params);
    let fits = fitting_after(sight, names, both(written, params), f);
    both(result, fits)
}

/// A function's name and type, which fit the declarations before it.
pub fn type_heading(
    alloc: Global,
    sight: &mut Sight,
    names: &IndexMap<u32, Noted>,
    f: &mut Func,
) -> Result<(), TypeFault>
    ensures typed { Answers (λ _. plain_func f.new) (heading (plain_sight sight.old) (get nat_eq names.now) (plain_func f.old)) result }
    ensures same { OnOk result (plain_sight sight.new ≡ plain_sight sight.old) }
{
    let name = check_name(sight, f);
    let ctype = type_signature(alloc, sight, names, f);
    both(name, ctype)
}

/// Whether a name is defined so far.
fn was_defined(names: &IndexMap<u32, Noted>, name: u32) -> bool
    ensures { result ≡ was_defined (get nat_eq names.now name) }
{
    match names.get(&name) {
        None => false,
        Some(noted) => noted.defined,
    }
}

/// Whether the declarations of a function's name have one type, with the function.
fn is_alike(functions: &Functions, names: &IndexMap<u32, Noted>, f: &Func) -> bool
    ensures { result ≡ is_alike (function_called f.now.name (map plain_signature functions.now.signatures.items))
        (get nat_eq names.now f.now.name) (plain_func f.now) }
{
    match functions.called(f.name) {
        None => true,
        Some(g) => match names.get(&f.name) {
            None => true,
            Some(noted) => noted.alike && has_type(g, f),
        },
    }
}

/// Keeps that a function's name is declared after these functions.
pub fn note_name(
    functions: &Functions,
    names: &mut IndexMap<u32, Noted>,
    f: &Func,
) -> Result<(), AllocError>
    ensures { OnOk result ((x : ℕ) → get nat_eq names.new x
        ≡ with_known (function_called f.now.name (map plain_signature functions.now.signatures.items)) (get nat_eq names.old) (plain_func f.now) x) }
{
    let noted = Noted {
        defined: was_defined(names, f.name) || f.body.is_some(),
        alike: is_alike(functions, names, f),
    };
    names.insert(f.name, noted)?;
    Ok(())
}

/// The types of parameters.
fn types_of(alloc: Global, params: &[Decl]) -> Result<Vec<CType>, AllocError>
    ensures { IfOk result (λ v. map plain_type v.items ≡ types_of (map plain_decl params.now)) }
{
    let mut types = Vec::new(alloc);
    for d in params {
        let t = copy_type(alloc, &d.ctype)?;
        types.push(t)?;
    }
    Ok(types)
}

/// What a function tells its callers.
fn signature(
    alloc: Global,
    numbers: &IndexMap<u32, Callee>,
    f: &Func,
) -> Result<Signature, AllocError>
    ensures { IfOk result (λ s. plain_signature s ≡ declared (get nat_eq numbers.now f.now.name) (plain_func f.now)) }
{
    let denoted = match numbers.get(&f.name) {
        Some(d) => *d,
        // each name of the file has one
        None => Callee {
            decl: 0,
            defined: false,
        },
    };
    let params = types_of(alloc, &f.params)?;
    let result = copy_type(alloc, &f.result)?;
    Ok(Signature {
        name: f.name,
        decl: denoted.decl,
        defined: denoted.defined,
        params,
        result,
    })
}

/// Brings a function in sight: of itself, and of those after it (C99 6.2.1 p7).
pub fn see_function(
    alloc: Global,
    sight: &mut Sight,
    numbers: &IndexMap<u32, Callee>,
    f: &Func,
) -> Result<(), AllocError>
    ensures { OnOk result (plain_sight sight.new ≡ with_function_by (get nat_eq numbers.now) (plain_sight sight.old) (plain_func f.now)) }
{
    let signature = signature(alloc, numbers, f)?;
    sight.functions.push(signature)?;
    Ok(())
}
