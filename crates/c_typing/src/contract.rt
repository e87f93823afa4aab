//! Contracts of functions (ACSL 2.3), whose C has no fault: each is typed with what is in sight at the declaration before which it is written, and moves to the
//! definition, where the file has one.

ghost use Rattle.std.specs.Prelude.{◌≡◌, ℕ, IfOk, None, OnOk, Some, cond, map, nat_eq, option_map};
ghost use Rattle.c_syntax.specs.Ctypes.{plain_type};
ghost use Rattle.c_syntax.specs.Statements.{plain_decl};
ghost use Rattle.c_syntax.specs.Programs.{plain_contract, plain_func};
ghost use Rattle.c_model.specs.ExpressionTyping.{or_else};
ghost use Rattle.c_model.specs.Library.{is_there};
ghost use Rattle.c_model.specs.AnnotationTyping.{known_at, numbers_of_parameters, with_contracts};
ghost use Rattle.c_model.specs.ContractTyping.{typed_contract};
ghost use Rattle.c_scopes.specs.Answers.{Answers};
ghost use Rattle.c_scopes.specs.Sights.{plain_sight};
ghost use Rattle.indexmap.specs.IndexMap.{get};
ghost use Rattle.c_typing.specs.NotedContracts.{IsDefinedOnce, all_numbered, contract_by, contract_sight_by, contracts_in, defined_numbers, given_contract};
ghost use Rattle.c_typing.specs.NotedContracts.{kept_contract, left_contract, named_contracts, next_number, numbers_by, numbers_in, numbers_or_none};
ghost use Rattle.c_typing.specs.NotedContracts.{other_numbers, with_numbered, with_numbers, without_named};

use crate::known::{hide_later, show_all};
use annot_typing::type_contract;
use c_scopes::entity::{Entity, Object};
use c_scopes::fault::TypeFault;
use c_scopes::sight::{Sight, enter, leave};
use c_scopes::tag::Tags;
use c_syntax::copy::copy_type;
use c_syntax::{CType, Contract, Decl, Func};
use indexmap::IndexMap;
use std::alloc::{AllocError, Global};

/// The numbers of parameters.
fn numbers_of(alloc: Global, params: &[Decl]) -> Result<Vec<u32>, AllocError>
    ensures { IfOk result (λ v. v.items ≡ numbers_of_parameters (map plain_decl params.now)) }
{
    let mut numbers = Vec::new(alloc);
    let mut rest = params;
    'turn: while let [d, after @ ..] = rest {
        numbers.push(d.place.offset)?;
        rest = after;
    }
    Ok(numbers)
}

/// Whether a name has a definition.
fn is_defined(definitions: &IndexMap<u32, Vec<u32>>, name: u32) -> bool
    ensures { result ≡ is_there (numbers_in definitions.now name) }
{
    definitions.get(&name).is_some()
}

/// Keeps the numbers of a function's parameters, where it is the first definition of its name.
fn keep_numbers(
    alloc: Global,
    definitions: &mut IndexMap<u32, Vec<u32>>,
    f: &Func,
) -> Result<(), AllocError>
    ensures { OnOk result ((x : ℕ) → numbers_in definitions.new x ≡ with_numbers (numbers_in definitions.old) (plain_func f.now) x) }
{
    if f.body.is_none() || is_defined(definitions, f.name) {
        return Ok(());
    }
    let numbers = numbers_of(alloc, &f.params)?;
    definitions.insert(f.name, numbers)?;
    Ok(())
}

/// The numbers that the parameters of definitions have, by the definitions' names.
pub fn parameter_numbers(
    alloc: Global,
    funcs: &[Func],
) -> Result<IndexMap<u32, Vec<u32>>, AllocError>
    ensures { IfOk result (λ m. (x : ℕ) → numbers_in m x ≡ defined_numbers x (map plain_func funcs.now)) }
{
    let mut definitions = IndexMap::new(alloc);
    let mut rest = funcs;
    'turn: while let [f, after @ ..] = rest {
        keep_numbers(alloc, &mut definitions, f)?;
        rest = after;
    }
    Ok(definitions)
}

/// Brings a parameter in sight with a number, where it has a name.
fn see_parameter(alloc: Global, sight: &mut Sight, d: &Decl, number: u32) -> Result<(), AllocError>
    ensures { OnOk result (plain_sight sight.new ≡ with_numbered (plain_sight sight.old) (plain_decl d.now) number) }
{
    if d.named {
        let ctype = copy_type(alloc, &d.ctype)?;
        sight.entities.push(Entity::AnObject(Object {
            name: d.name,
            decl: number,
            ctype,
        }))?;
    }
    Ok(())
}

/// The first of these numbers, or the parameter's own where there is none.
fn next_number(numbers: &[u32], d: &Decl) -> u32
    ensures { result ≡ next_number numbers.now (plain_decl d.now) }
{
    match numbers {
        [] => d.place.offset,
        [n, ..] => *n,
    }
}

/// The numbers behind the first.
fn other_numbers<'a>(numbers: &'a [u32]) -> &'a [u32]
    ensures { result.now ≡ other_numbers numbers.now }
{
    match numbers {
        [] => numbers,
        [_, rest @ ..] => rest,
    }
}

/// Brings parameters in sight with these numbers, as far as they reach, and behind that with their own. Gives the numbers that they have.
fn see_numbered(
    alloc: Global,
    sight: &mut Sight,
    params: &[Decl],
    numbers: &[u32],
) -> Result<Tags, AllocError>
    ensures seen { OnOk result (plain_sight sight.new ≡ all_numbered (plain_sight sight.old) (map plain_decl params.now) numbers.now) }
    ensures numbers { IfOk result (λ t. t.list.items ≡ numbers_by (map plain_decl params.now) numbers.now) }
{
    let mut seen = Tags::new(alloc);
    let mut rest = params;
    let mut left = numbers;
    'turn: while let [d, after @ ..] = rest {
        let number = next_number(left, d);
        see_parameter(alloc, sight, d, number)?;
        seen.push(number)?;
        rest = after;
        left = other_numbers(left);
    }
    Ok(seen)
}

/// A contract, where this is in sight at its declaration.
fn note_within(
    alloc: Global,
    sight: &mut Sight,
    numbers: &[u32],
    params: &[Decl],
    ctype: &CType,
    c: &mut Contract,
) -> Result<(), TypeFault>
    ensures noted { Answers (λ _. plain_contract c.new)
        (typed_contract (contract_sight_by numbers.now (plain_sight sight.old) (map plain_decl params.now) (plain_type ctype.now))
        (plain_contract c.old)) result }
    ensures same { OnOk result (plain_sight sight.new ≡ plain_sight sight.old) }
{
    let mark = enter(sight);
    let formals = see_numbered(alloc, sight, params, numbers)?;
    type_contract(alloc, sight, &formals, ctype, c)?;
    leave(sight, mark);
    Ok(())
}

/// A contract, by these numbers. Structs that are defined behind it have no size in it.
fn note_standing(
    alloc: Global,
    sight: &mut Sight,
    numbers: &[u32],
    params: &[Decl],
    ctype: &CType,
    c: &mut Contract,
) -> Result<(), TypeFault>
    ensures noted { Answers (λ _. plain_contract c.new)
        (typed_contract (contract_sight_by numbers.now (known_at c.old.place (plain_sight sight.old)) (map plain_decl params.now) (plain_type ctype.now))
        (plain_contract c.old)) result }
    ensures same { OnOk result (plain_sight sight.new ≡ plain_sight sight.old) }
{
    let sizes = hide_later(alloc, &mut sight.structs, c.place)?;
    let noted = note_within(alloc, sight, numbers, params, ctype, c);
    show_all(&mut sight.structs, &sizes);
    noted
}

/// The numbers that the parameters of a name's definition have, or none.
fn numbers_at(definitions: &IndexMap<u32, Vec<u32>>, name: u32) -> &[u32]
    ensures { result.now ≡ numbers_or_none (numbers_in definitions.now name) }
{
    match definitions.get(&name) {
        Some(v) => v.as_slice(),
        None => &[],
    }
}

/// The contract before a function, by the numbers that the parameters of definitions have.
pub fn note_contract(
    alloc: Global,
    sight: &mut Sight,
    definitions: &IndexMap<u32, Vec<u32>>,
    f: &mut Func,
) -> Result<(), TypeFault>
    ensures noted { Answers (λ _. option_map plain_contract f.new.contract)
        (contract_by (numbers_or_none (numbers_in definitions.now f.old.name)) (plain_sight sight.old) (plain_func f.old)
        (option_map plain_contract f.old.contract)) result }
    ensures rest { plain_func f.new ≡ record (plain_func f.old) { contract = option_map plain_contract f.new.contract } }
    ensures same { OnOk result (plain_sight sight.new ≡ plain_sight sight.old) }
{
    match &mut f.contract {
        None => Ok(()),
        Some(c) => {
            let numbers = numbers_at(definitions, f.name);
            note_standing(alloc, sight, numbers, &f.params, &f.result, c)
        }
    }
}

/// Keeps a contract of a name, where it is the first.
fn keep_contract(
    contracts: &mut IndexMap<u32, Contract>,
    name: u32,
    c: Contract,
) -> Result<(), AllocError>
    ensures { OnOk result ((x : ℕ) → contracts_in contracts.new x
        ≡ or_else (contracts_in contracts.old x) (cond (nat_eq name x) (Some (plain_contract c)) None)) }
{
    if contracts.get(&name).is_none() {
        contracts.insert(name, c)?;
    }
    Ok(())
}

/// Takes the contract of a function whose name is defined, and keeps it, where it is the first of its name.
fn take_contract(
    definitions: &IndexMap<u32, Vec<u32>>,
    contracts: &mut IndexMap<u32, Contract>,
    f: &mut Func,
) -> Result<(), AllocError>
    ensures left { OnOk result (plain_func f.new ≡ left_contract (numbers_in definitions.now) (plain_func f.old)) }
    ensures kept { OnOk result ((x : ℕ) → contracts_in contracts.new x
        ≡ kept_contract (numbers_in definitions.now) (contracts_in contracts.old) (plain_func f.old) x) }
{
    if is_defined(definitions, f.name) {
        if let Some(c) = f.contract.take() {
            keep_contract(contracts, f.name, c)?;
        }
    }
    Ok(())
}

/// Takes the contracts of names that are defined.
fn take_contracts(
    alloc: Global,
    definitions: &IndexMap<u32, Vec<u32>>,
    funcs: &mut Vec<Func>,
) -> Result<IndexMap<u32, Contract>, AllocError>
    ensures left { OnOk result (map plain_func funcs.new.items ≡ map (left_contract (numbers_in definitions.now)) (map plain_func funcs.old.items)) }
    ensures kept { IfOk result (λ m. (x : ℕ) → contracts_in m x ≡ named_contracts (numbers_in definitions.now) (map plain_func funcs.old.items) x) }
{
    let mut contracts = IndexMap::new(alloc);
    for k in 0..funcs.len() {
        take_contract(definitions, &mut contracts, &mut funcs[k])?;
    }
    Ok(contracts)
}

/// Gives a definition the contract of its name.
fn give_contract(contracts: &mut IndexMap<u32, Contract>, f: &mut Func)
    ensures given { plain_func f.new ≡ given_contract (contracts_in contracts.old) (plain_func f.old) }
    ensures left { (x : ℕ) → contracts_in contracts.new x ≡ without_named (contracts_in contracts.old) (plain_func f.old) x }
{
    if f.body.is_some() {
        if let Some(c) = contracts.swap_remove(&f.name) {
            f.contract = Some(c);
        }
    }
}

/// Gives definitions the contracts of their names. No name is defined twice.
fn give_contracts(contracts: &mut IndexMap<u32, Contract>, funcs: &mut Vec<Func>)
    requires { IsDefinedOnce (map plain_func funcs.old.items) }
    ensures { map plain_func funcs.new.items ≡ map (given_contract (contracts_in contracts.old)) (map plain_func funcs.old.items) }
{
    for k in 0..funcs.len() {
        give_contract(contracts, &mut funcs[k]);
    }
}

/// Moves each contract to the definition of its name, where the file has one. No name is defined twice.
pub fn move_contracts(alloc: Global, funcs: &mut Vec<Func>) -> Result<(), AllocError>
    requires { IsDefinedOnce (map plain_func funcs.old.items) }
    ensures { OnOk result (map plain_func funcs.new.items ≡ with_contracts (map plain_func funcs.old.items)) }
{
    let definitions = parameter_numbers(alloc, funcs)?;
    let mut contracts = take_contracts(alloc, &definitions, funcs)?;
    give_contracts(&mut contracts, funcs);
    Ok(())
}
