//! What is done to each scalar in an object, in order: it becomes 0 (C99 6.7.8 p21), or it is copied (C99 6.5.16.1 p2).

ghost use Rattle.std.specs.Prelude.{◌≡◌, ◌+◌, ◌∷◌, [], IfOk, OnOk, map};
ghost use Rattle.c_syntax.specs.Ctypes.{Struct, plain_type};
ghost use Rattle.c_syntax.specs.Programs.{plain_layout, plain_member};
ghost use Rattle.c_syntax.specs.Layouts.{IntegerType, in_each, in_members, scalar_size, scalars_from, scalars_of, size_of};
ghost use Rattle.mon_syntax.specs.Trees.{Register, plain_expr, plain_stmts};
ghost use Rattle.c_effects.specs.Expressions.{before, farther};
ghost use Rattle.c_effects.specs.Effects.{copies_at, copy_size};
ghost use Rattle.c_effects.specs.Scalars.{done_to, plain_scalar, row_after, row_of, rows_stored, task_after};
ghost use Rattle.c_effects.specs.Zeros.{row_stored, row_with};

use crate::operator::{farther, register};
use crate::part::then;
use crate::slot::{Part, Slot, farther_by};
use crate::zeros::{Row, lengthened};
use c_syntax::layout::int_size;
use c_syntax::{CInt, CType, Layout, Length, Member};
use mon_syntax::{CopySize, MemoryCall, MonExpr, MonStmt, MonStmtKind};
use std::alloc::{AllocError, Global};
use track_scopes::size::size_of;

/// The structs of a program, and how deep they may stand in each other.
#[derive(Clone, Copy)]
pub struct Structs<'a> {
    pub layouts: &'a [Layout],
    pub deep: usize,
}

/// The type of a scalar.
#[derive(Clone, Copy)]
pub enum ScalarType {
    Integer(CInt),
    Pointer,
}

/// What is done to the scalars of an object.
#[derive(Clone, Copy)]
pub enum Task {
    /// They become 0, after zero bytes that aren't stored yet.
    Zero(Slot, Row),
    /// They are copied to the first object from the second.
    Copy(Part, Part),
}

// The bytes of a scalar.
fn scalar_size(k: ScalarType) -> u32
    ensures { result ≡ scalar_size (plain_scalar k) }
{
    match k {
        ScalarType::Integer(k) => int_size(k),
        ScalarType::Pointer => 8,
    }
}

// How many bytes the copy of an integer takes.
fn integer_size(k: CInt) -> CopySize
    ensures { result ≡ copy_size (IntegerType k) }
{
    match k {
        CInt::I8 | CInt::U8 => CopySize::One,
        CInt::I16 | CInt::U16 => CopySize::Two,
        CInt::I32 | CInt::U32 => CopySize::Four,
        CInt::I64 | CInt::U64 => CopySize::Eight,
    }
}

// How many bytes the copy of a scalar takes.
fn copy_size(k: ScalarType) -> CopySize
    ensures { result ≡ copy_size (plain_scalar k) }
{
    match k {
        ScalarType::Integer(k) => integer_size(k),
        ScalarType::Pointer => CopySize::Eight,
    }
}

// A pointer so many bytes into an object.
fn pointer_into(alloc: Global, object: Part, distance: u64) -> Result<MonExpr, AllocError>
    ensures { IfOk result (λ m. plain_expr m ≡ farther (Register object.object) (object.offset + distance)) }
{
    let offset = farther_by(object.offset, distance)?;
    let start = register(alloc, object.object)?;
    farther(alloc, start, offset)
}

// Copies a scalar, that stands so many bytes into both objects.
fn copy_one(
    alloc: Global,
    objects: (Part, Part),
    distance: u64,
    k: ScalarType,
    to: &mut Vec<MonStmt>,
) -> Result<(), AllocError>
    ensures { OnOk result (plain_stmts to.new.items ≡ before (plain_stmts to.old.items)
        (copies_at objects.0.object objects.0.offset objects.1.object objects.1.offset ((distance, plain_scalar k) ∷ []))) }
{
    let (target, source) = objects;
    let mut pointers = Vec::new(alloc);
    pointers.push(pointer_into(alloc, target, distance)?)?;
    pointers.push(pointer_into(alloc, source, distance)?)?;
    let call = MemoryCall::Copy(copy_size(k));
    then(alloc, to, MonStmtKind::Act(None, call, pointers))
}

// Zeros in a scalar.
fn zero_one(
    alloc: Global,
    slot: Slot,
    row: Row,
    distance: u64,
    k: ScalarType,
    to: &mut Vec<MonStmt>,
) -> Result<Row, AllocError>
    ensures code { OnOk result (plain_stmts to.new.items ≡ before (plain_stmts to.old.items) (row_stored slot row (slot.offset + distance))) }
    ensures row { IfOk result (λ after. after ≡ row_with row (slot.offset + distance) (scalar_size (plain_scalar k))) }
{
    let offset = farther_by(slot.offset, distance)?;
    lengthened(alloc, slot, row, offset, u64::from(scalar_size(k)), to)
}

// Does it to one scalar.
#[tactic(auto, using(crate::proofs::Sequences::before_none))]
fn do_one(
    alloc: Global,
    task: Task,
    distance: u64,
    k: ScalarType,
    to: &mut Vec<MonStmt>,
) -> Result<Task, AllocError>
    ensures code { OnOk result (plain_stmts to.new.items ≡ before (plain_stmts to.old.items) (done_to task ((distance, plain_scalar k) ∷ []))) }
    ensures task { IfOk result (λ after. after ≡ task_after task ((distance, plain_scalar k) ∷ [])) }
{
    match task {
        Task::Zero(slot, row) => {
            let after = zero_one(alloc, slot, row, distance, k, to)?;
            Ok(Task::Zero(slot, after))
        }
        Task::Copy(target, source) => {
            copy_one(alloc, (target, source), distance, k, to)?;
            Ok(task)
        }
    }
}

/// Does it to each scalar of a type that stands so many bytes farther, and gives the task after them.
#[cycle(each)]
#[tactic(auto, using(crate::proofs::ScalarTrees::before_no_scalar, crate::proofs::ScalarTrees::after_none))]
pub fn each_scalar(
    alloc: Global,
    t: &CType,
    structs: Structs<'_>,
    task: Task,
    distance: u64,
    to: &mut Vec<MonStmt>,
) -> Result<Task, AllocError>
    ensures code { OnOk result (plain_stmts to.new.items ≡ before (plain_stmts to.old.items)
        (done_to task (scalars_from (map plain_layout structs.entry.layouts.now) structs.entry.deep (plain_type t.now) distance))) }
    ensures task { IfOk result (λ after. after ≡
        task_after task (scalars_from (map plain_layout structs.entry.layouts.now) structs.entry.deep (plain_type t.now) distance)) }
{
    match t {
        CType::Int(k) => do_one(alloc, task, distance, ScalarType::Integer(*k), to),
        CType::Ptr(_) => do_one(alloc, task, distance, ScalarType::Pointer, to),
        CType::Array(element, Length::Count(n)) => {
            each_in_elements(alloc, element, *n, structs, task, distance, to)
        }
        CType::Struct(n) => each_in_struct(alloc, *n, structs, task, distance, to),
        CType::Array(_, Length::Left | Length::Written(_))
        | CType::Void
        | CType::Named(_)
        | CType::StructTag(..)
        | CType::EnumTag(_, _) => Ok(task),
    }
}

// The same in so many elements of the type.
#[cycle(each)]
fn each_in_elements(
    alloc: Global,
    t: &CType,
    count: u32,
    structs: Structs<'_>,
    task: Task,
    distance: u64,
    to: &mut Vec<MonStmt>,
) -> Result<Task, AllocError>
    ensures code { OnOk result (plain_stmts to.new.items ≡ before (plain_stmts to.old.items)
        (done_to task (in_each distance (size_of (map plain_layout structs.entry.layouts.now) (plain_type t.now)) count
        (scalars_from (map plain_layout structs.entry.layouts.now) structs.entry.deep (plain_type t.now))))) }
    ensures task { IfOk result (λ after. after ≡
        task_after task (in_each distance (size_of (map plain_layout structs.entry.layouts.now) (plain_type t.now)) count
        (scalars_from (map plain_layout structs.entry.layouts.now) structs.entry.deep (plain_type t.now)))) }
{
    let size = size_of(structs.layouts, t)?;
    let mut at = distance;
    let mut left = count;
    let mut next = task;
    'elements: while 0 < left {
        next = each_scalar(alloc, t, structs, next, at, to)?;
        at = farther_by(at, size)?;
        left -= 1;
    }
    Ok(next)
}

// The same in the members of a struct.
#[cycle(each)]
fn each_in_struct(
    alloc: Global,
    number: u32,
    structs: Structs<'_>,
    task: Task,
    distance: u64,
    to: &mut Vec<MonStmt>,
) -> Result<Task, AllocError>
    ensures code { OnOk result (plain_stmts to.new.items ≡ before (plain_stmts to.old.items)
        (done_to task (scalars_from (map plain_layout structs.entry.layouts.now) structs.entry.deep (Struct number) distance))) }
    ensures task { IfOk result (λ after. after ≡
        task_after task (scalars_from (map plain_layout structs.entry.layouts.now) structs.entry.deep (Struct number) distance)) }
{
    let Structs { layouts, deep } = structs;
    if deep == 0 {
        return Ok(task);
    }
    let inner = Structs {
        layouts,
        deep: deep - 1,
    };
    match layouts.get(number as usize) {
        Some(layout) => each_in_members(alloc, &layout.members, inner, task, distance, to),
        None => Ok(task),
    }
}

// The same in these members.
#[cycle(each)]
fn each_in_members(
    alloc: Global,
    members: &[Member],
    structs: Structs<'_>,
    task: Task,
    distance: u64,
    to: &mut Vec<MonStmt>,
) -> Result<Task, AllocError>
    ensures code { OnOk result (plain_stmts to.new.items ≡ before (plain_stmts to.old.items)
        (done_to task (in_members (map plain_member members.now) distance
        (scalars_from (map plain_layout structs.entry.layouts.now) structs.entry.deep)))) }
    ensures task { IfOk result (λ after. after ≡
        task_after task (in_members (map plain_member members.now) distance
        (scalars_from (map plain_layout structs.entry.layouts.now) structs.entry.deep))) }
{
    let mut next = task;
    'members: for m in members {
        let at = farther_by(distance, u64::from(m.offset))?;
        next = each_scalar(alloc, &m.ctype, structs, next, at, to)?;
    }
    Ok(next)
}

// The row of zero bytes that a task leaves.
fn row_of(task: Task, given: Row) -> Row
    ensures { result ≡ row_of given task }
{
    match task {
        Task::Zero(_, row) => row,
        Task::Copy(..) => given,
    }
}

/// Zeros in the scalars of a part of the type, but for those in a row that aren't stored yet.
pub fn zero_scalars(
    alloc: Global,
    t: &CType,
    layouts: &[Layout],
    slot: Slot,
    row: Row,
    to: &mut Vec<MonStmt>,
) -> Result<Row, AllocError>
    ensures code { OnOk result (plain_stmts to.new.items ≡ before (plain_stmts to.old.items)
        (rows_stored slot row (scalars_of (map plain_layout layouts.now) (plain_type t.now)))) }
    ensures row { IfOk result (λ after. after ≡ row_after slot row (scalars_of (map plain_layout layouts.now) (plain_type t.now))) }
{
    let structs = Structs {
        layouts,
        deep: layouts.len(),
    };
    let task = each_scalar(alloc, t, structs, Task::Zero(slot, row), 0, to)?;
    Ok(row_of(task, row))
}

/// Copies the scalars of an object of the type to the first object from the second, in order.
pub fn copy_all(
    alloc: Global,
    t: &CType,
    layouts: &[Layout],
    objects: (Part, Part),
    to: &mut Vec<MonStmt>,
) -> Result<(), AllocError>
    ensures { OnOk result (plain_stmts to.new.items ≡ before (plain_stmts to.old.items)
        (copies_at objects.0.object objects.0.offset objects.1.object objects.1.offset (scalars_of (map plain_layout layouts.now) (plain_type t.now)))) }
{
    let (target, source) = objects;
    let structs = Structs {
        layouts,
        deep: layouts.len(),
    };
    let _ = each_scalar(alloc, t, structs, Task::Copy(target, source), 0, to)?;
    Ok(())
}
