//! Code of zones, of questions about their bytes, and of zones that share no byte.

ghost use Rattle.std.specs.Prelude.{◌≡◌, ◌<◌, [], ◌∷◌, IfOk, OnOk, option_map};
ghost use Rattle.mon_syntax.specs.Trees.{plain_expr, plain_stmt, plain_stmts};
ghost use Rattle.c_effects.specs.Expressions.{before, in_type};
ghost use Rattle.mon_syntax.specs.declared.tree.MonType.TheVariants.{I128};
ghost use Rattle.annot_simulation.specs.Pointers.{another_zone, apart_from_each, each_pair, elements_code, elements_of, no_zones, object_code, question_of};
ghost use Rattle.annot_simulation.specs.Pointers.{separated_code, zone_asked, zones_parted};
ghost use Rattle.annot_pieces.specs.Plain.{all_bytes, answered_by, bytes_of, code_of, count_of, pairs_asked, pointer_of, zone_of, zones_of};

use crate::piece::{Code, guarded, in_sequence, only, then_one, two_fresh};
use crate::pointer::{PointerCode, elements_of};
use crate::value::conjunction;
use c_effects::copy::copy_of;
use c_effects::operator::{constant, in_type, operation, register};
use c_effects::part::{alone, then, then_all};
use c_syntax::logic::MemoryQuestion;
use mem_preds::{Bytes, Question, ask, part};
use mon_syntax::{MonExpr, MonOp, MonStmt, MonStmtKind, MonType, Registers};
use std::alloc::{AllocError, Global};

/// The code of a zone: a pointer, and how many bytes from it on, of type `i128`.
#[derive(Drop)]
pub struct ZoneCode {
    pub pointer: PointerCode,
    pub length: MonExpr,
}

/// The code of some zones, one after the other.
#[derive(Drop)]
pub struct ZonesCode {
    /// The statements that run first.
    pub stmts: Vec<MonStmt>,
    /// 1 where all of them exist and else 0; none where they always exist.
    pub flag: Option<MonExpr>,
    pub zones: Vec<Bytes>,
}

// ---- one zone

/// So many bytes at a pointer.
pub fn object_code(alloc: Global, n: u32, c: PointerCode) -> Result<ZoneCode, AllocError>
    ensures { IfOk result (λ z. zone_of z [] ≡ object_code n (pointer_of c [])) }
{
    let length = constant(alloc, MonType::I128, i128::from(n))?;
    Ok(ZoneCode { pointer: c, length })
}

// How many elements there are from one number to another.
fn count_of(alloc: Global, low: MonExpr, high: MonExpr) -> Result<MonExpr, AllocError>
    ensures { IfOk result (λ e. plain_expr e ≡ count_of (plain_expr low) (plain_expr high)) }
{
    let distance = operation(alloc, MonOp::Sub, MonType::I128, high, low)?;
    let one = constant(alloc, MonType::I128, 1)?;
    operation(alloc, MonOp::Add, MonType::I128, distance, one)
}

// How many bytes elements of a size from one to another have.
fn length_of(alloc: Global, n: u32, low: &MonExpr, high: MonExpr) -> Result<MonExpr, AllocError>
    ensures { IfOk result (λ e. plain_expr e ≡ elements_of n (count_of (plain_expr low.now) (plain_expr high))) }
{
    let again = copy_of(alloc, low)?;
    let count = count_of(alloc, again, high)?;
    elements_of(alloc, n, count)
}

// How many bytes stand before the first one, and how many all of them have.
fn extent(
    alloc: Global,
    n: u32,
    types: (MonType, MonType),
    low: MonExpr,
    high: MonExpr,
) -> Result<(MonExpr, MonExpr), AllocError>
    ensures begin { IfOk result (λ e. plain_expr e.0 ≡ elements_of n (in_type types.0 I128 (plain_expr low))) }
    ensures length { IfOk result (λ e. plain_expr e.1
        ≡ elements_of n (count_of (in_type types.0 I128 (plain_expr low)) (in_type types.1 I128 (plain_expr high)))) }
{
    let low = in_type(alloc, types.0, MonType::I128, low)?;
    let high = in_type(alloc, types.1, MonType::I128, high)?;
    let length = length_of(alloc, n, &low, high)?;
    let begin = elements_of(alloc, n, low)?;
    Ok((begin, length))
}

/// Elements of a size from one to another, whose numbers are of these types.
pub fn elements_code(
    alloc: Global,
    n: u32,
    c: PointerCode,
    types: (MonType, MonType),
    x: Code,
    y: Code,
) -> Result<ZoneCode, AllocError>
    ensures { IfOk result (λ z. zone_of z [] ≡ elements_code n (pointer_of c []) types.0 types.1 (code_of x []) (code_of y [])) }
{
    let (begin, length) = extent(alloc, n, types, x.value, y.value)?;
    let (stmts, flag) = in_sequence(alloc, (c.stmts, c.flag), (x.stmts, x.flag))?;
    let (stmts, flag) = in_sequence(alloc, (stmts, flag), (y.stmts, y.flag))?;
    let offset = operation(alloc, MonOp::Add, MonType::I128, c.offset, begin)?;
    let pointer = PointerCode {
        stmts,
        flag,
        base: c.base,
        offset,
    };
    Ok(ZoneCode { pointer, length })
}

fn question_of(question: MemoryQuestion) -> Question
    ensures { result ≡ question_of question }
{
    match question {
        MemoryQuestion::Valid => Question::Valid,
        MemoryQuestion::ValidRead => Question::ValidRead,
        MemoryQuestion::Initialized => Question::Initialized,
    }
}

// A copy of a flag.
fn copied_flag(alloc: Global, flag: &Option<MonExpr>) -> Result<Option<MonExpr>, AllocError>
    ensures { IfOk result (λ f. option_map plain_expr f ≡ option_map plain_expr flag.now) }
{
    match flag {
        None => Ok(None),
        Some(e) => {
            let e = copy_of(alloc, e)?;
            Ok(Some(e))
        }
    }
}

// Statements after others where a flag is 1, and the register in which they leave an answer.
fn answered_by(
    alloc: Global,
    number: u32,
    stmts: Vec<MonStmt>,
    flag: Option<MonExpr>,
    on: Vec<MonStmt>,
) -> Result<Code, AllocError>
    ensures { IfOk result (λ c. code_of c [] ≡ answered_by number (plain_stmts stmts.items) (option_map plain_expr flag) (plain_stmts on.items)) }
{
    let again = copied_flag(alloc, &flag)?;
    let mut stmts = stmts;
    guarded(alloc, flag, on, Vec::new(alloc), &mut stmts)?;
    let value = register(alloc, number)?;
    Ok(Code {
        stmts,
        flag: again,
        value,
    })
}

/// A question about the bytes of a zone at an alignment.
pub fn zone_asked(
    alloc: Global,
    question: MemoryQuestion,
    align: u32,
    z: ZoneCode,
    names: &mut Registers<'_>,
) -> Result<Code, AllocError>
    ensures code { IfOk result (λ c. code_of c names.new.table.kinds ≡ zone_asked question align (zone_of z names.old.table.kinds)) }
    ensures bound { OnOk result (names.new.table.bound ≡ names.old.table.bound) }
    ensures program { OnOk result (names.new.program ≡ names.old.program) }
{
    let answer = names.fresh(MonType::I32)?;
    let question = question_of(question);
    let c = z.pointer;
    let asked = ask(alloc, question, c.base, c.offset, z.length, align, answer)?;
    let on = only(alloc, asked)?;
    answered_by(alloc, answer, c.stmts, c.flag, on)
}

// ---- some zones

/// No zone.
pub fn no_zones(alloc: Global) -> ZonesCode
    ensures { zones_of result [] ≡ no_zones [] }
{
    ZonesCode {
        stmts: Vec::new(alloc),
        flag: None,
        zones: Vec::new(alloc),
    }
}

/// A zone, and others after it.
#[tactic(auto, using(crate::proofs::Rust::zones_append))]
pub fn another_zone(alloc: Global, z: ZoneCode, rest: ZonesCode) -> Result<ZonesCode, AllocError>
    ensures { IfOk result (λ c. zones_of c [] ≡ another_zone (zone_of z []) (zones_of rest [])) }
{
    let ZonesCode {
        stmts: more,
        flag: second,
        zones: mut others,
    } = rest;
    let c = z.pointer;
    let mut stmts = c.stmts;
    then_all(&mut stmts, more)?;
    let flag = conjunction(alloc, c.flag, second)?;
    let mut zones = Vec::new(alloc);
    zones.push(Bytes {
        base: c.base,
        offset: c.offset,
        length: z.length,
    })?;
    zones.append(&mut others)?;
    Ok(ZonesCode { stmts, flag, zones })
}

// A copy of the bytes of a zone.
fn copied_bytes(alloc: Global, z: &Bytes) -> Result<Bytes, AllocError>
    ensures { IfOk result (λ b. bytes_of b ≡ bytes_of z.now) }
{
    let base = copy_of(alloc, &z.base)?;
    let offset = copy_of(alloc, &z.offset)?;
    let length = copy_of(alloc, &z.length)?;
    Ok(Bytes {
        base,
        offset,
        length,
    })
}

// Whether two zones share no byte.
fn zones_parted(
    alloc: Global,
    first: &Bytes,
    second: &Bytes,
    into: u32,
) -> Result<MonStmt, AllocError>
    ensures { IfOk result (λ s. plain_stmt s ≡ zones_parted (bytes_of first.now) (bytes_of second.now) into) }
{
    let first = copied_bytes(alloc, first)?;
    let second = copied_bytes(alloc, second)?;
    part(alloc, first, second, into)
}

// A register stays 1 where a zone shares no byte with any of others; the next one is for the answers.
fn apart_from_each(
    alloc: Global,
    number: u32,
    z: &Bytes,
    others: &[Bytes],
    to: &mut Vec<MonStmt>,
) -> Result<(), AllocError>
    requires { number < 4294967295 }
    ensures { OnOk result (plain_stmts to.new.items ≡ before (plain_stmts to.old.items) (apart_from_each number (bytes_of z.now) (all_bytes others.now))) }
{
    match others {
        [] => Ok(()),
        [first, rest @ ..] => {
            let asked = zones_parted(alloc, z, first, number + 1)?;
            then_one(alloc, to, asked)?;
            let x = register(alloc, number)?;
            let y = register(alloc, number + 1)?;
            let both = operation(alloc, MonOp::And, MonType::I32, x, y)?;
            then(alloc, to, MonStmtKind::Set(number, both))?;
            apart_from_each(alloc, number, z, rest, to)
        }
    }
}

// So for each pair of zones.
fn each_pair(
    alloc: Global,
    number: u32,
    zones: &[Bytes],
    to: &mut Vec<MonStmt>,
) -> Result<(), AllocError>
    requires { number < 4294967295 }
    ensures { OnOk result (plain_stmts to.new.items ≡ before (plain_stmts to.old.items) (each_pair number (all_bytes zones.now))) }
{
    match zones {
        [] => Ok(()),
        [first, rest @ ..] => {
            apart_from_each(alloc, number, first, rest, to)?;
            each_pair(alloc, number, rest, to)
        }
    }
}

// Whether no two of some zones share a byte, in a register; the next one is for the answers.
fn pairs_asked(alloc: Global, number: u32, zones: &[Bytes]) -> Result<Vec<MonStmt>, AllocError>
    requires { number < 4294967295 }
    ensures { IfOk result (λ v. plain_stmts v.items ≡ pairs_asked number (all_bytes zones.now)) }
{
    let one = constant(alloc, MonType::I32, 1)?;
    let mut on = alone(alloc, MonStmtKind::Set(number, one))?;
    each_pair(alloc, number, zones, &mut on)?;
    Ok(on)
}

/// Whether no two of some zones share a byte.
pub fn separated_code(
    alloc: Global,
    zs: ZonesCode,
    names: &mut Registers<'_>,
) -> Result<Code, AllocError>
    ensures code { IfOk result (λ c. code_of c names.new.table.kinds ≡ separated_code (zones_of zs names.old.table.kinds)) }
    ensures bound { OnOk result (names.new.table.bound ≡ names.old.table.bound) }
    ensures program { OnOk result (names.new.program ≡ names.old.program) }
{
    let number = two_fresh(MonType::I32, names)?;
    let on = pairs_asked(alloc, number, &zs.zones)?;
    answered_by(alloc, number, zs.stmts, zs.flag, on)
}
