//! The flat memory of a run: how it begins, and what instructions do with values as pointers.

ghost use Rattle.std.specs.Prelude.{◌≡◌, ℕ, ◌+◌, ◌≤◌, ◌<◌, [], ◌∷◌, pos, IfOk, OnOk, length, map, false};
ghost use Rattle.c_model.specs.Integers.{truth};
ghost use Rattle.c_model.specs.Limits.{globals_bytes};
ghost use Rattle.c_model.specs.Memory.{greatest_number, rounded};
ghost use Rattle.mon_syntax.specs.declared.spot.RegionName.TheVariants as region;
ghost use Rattle.mon_syntax.specs.Arithmetic as spec;
ghost use Rattle.mon_syntax.specs.Flat.{Flat, flat_number, pointer_to};
ghost use Rattle.mon_syntax.specs.FlatMemory.{act_on_flat, begun_with, farther, flat_nothing, flat_start, load_flat, over_flat, pointed_flat, pointer_in};
ghost use Rattle.mon_syntax.specs.Globals.{globals_taken, size_of_global};
ghost use Rattle.mon_syntax.specs.Memory.{Gives};
ghost use Rattle.mon_syntax.specs.Trees.{plain_global};
ghost use Rattle.c_machine.specs.Questions.{is_question};
ghost use Rattle.c_machine.specs.Replies.{Replies, Yields, Stores, stop_by};

use crate::arithmetic::wrap;
use crate::stop::Stop;
use block_runtime::address::address_of;
use block_runtime::{RunFault, Runtime};
use c_model::limits::{GLOBALS_BYTES, HEAP_BYTES, MOST_FRAMES, STACK_BYTES};
use c_syntax::BlockKind;
use flat_mem::Sizes;
use mon_syntax::{
    AccessSize, CopySize, GlobalContent, MemoryCall, MonGlobal, MonOp, MonType, access_bytes,
    byte_count, copy_bytes,
};
use std::alloc::{AllocError, Global};

// The sizes of the standard profile.
const SIZES: Sizes = Sizes {
    globals: GLOBALS_BYTES,
    stack: STACK_BYTES,
    heap: HEAP_BYTES,
    frames: MOST_FRAMES,
};

/// How a run ends where the memory refuses.
pub fn stop_by(fault: RunFault) -> Stop
    ensures { result ≡ stop_by fault }
{
    match fault {
        RunFault::Full(segment) => Stop::Full(segment),
        RunFault::Fault => Stop::Fault,
    }
}

// ---- how it begins

// The birth of a global or a literal: the pointer to its start.
fn begin_global(memory: &mut Runtime, global: &MonGlobal) -> u64
    requires number { memory.old.births < greatest_number }
    requires room { memory.old.placed + rounded (size_of_global (plain_global global.now)) ≤ length memory.old.globals.bytes }
    ensures start { result ≡ pointer_to (memory.old.births + 1) region.Globals memory.old.placed }
    ensures memory { memory.new ≡ begun_with memory.old (plain_global global.now) }
{
    let born = match &global.content {
        GlobalContent::Zeros(n) => memory.begin(BlockKind::Global, u64::from(*n), &[]),
        GlobalContent::Literal(bytes) => {
            let bytes = bytes.bytes();
            memory.begin(BlockKind::Literal, bytes.len() as u64 + 1, bytes)
        }
    };
    match born {
        Ok(start) => start,
        Err(_) => 0,
    }
}

// The births of all globals, in an empty memory, with the pointers to their starts, and the frame of `main`.
fn begin_globals(
    memory: &mut Runtime,
    starts: &mut Vec<i128>,
    globals: &[MonGlobal],
) -> Result<(), AllocError>
    requires nothing { memory.old ≡ flat_nothing }
    requires none { starts.old.items ≡ [] }
    requires room { globals_taken (map plain_global globals.now) ≤ globals_bytes }
    ensures memory { OnOk result (over_flat.enter (flat_start (map plain_global globals.now)) ≡ Gives (pos 0) memory.new) }
    ensures starts { OnOk result (starts.new.items ≡ over_flat.starts (map plain_global globals.now)) }
{
    for global in globals {
        let start = begin_global(memory, global);
        starts.push(i128::from(start))?;
    }
    match memory.enter_frame() {
        Ok(()) => Ok(()),
        Err(_) => Err(AllocError),
    }
}

/// The memory in which a run begins that has these globals, with the frame of `main`, and the pointers to the globals' starts.
pub fn begun(alloc: Global, globals: &[MonGlobal]) -> Result<(Runtime, Vec<i128>), AllocError>
    requires { globals_taken (map plain_global globals.now) ≤ globals_bytes }
    ensures memory { IfOk result (λ begun. over_flat.enter (flat_start (map plain_global globals.now)) ≡ Gives (pos 0) begun.0) }
    ensures starts { IfOk result (λ begun. begun.1.items ≡ over_flat.starts (map plain_global globals.now)) }
{
    let mut starts = Vec::new(alloc);
    let mut memory = Runtime::new(alloc, SIZES)?;
    match begin_globals(&mut memory, &mut starts, globals) {
        Ok(()) => Ok((memory, starts)),
        Err(fault) => {
            drop(memory);
            Err(fault)
        }
    }
}

// ---- values in memory

/// The lowest bits of a value, as many as the type has.
#[inline(always)]
pub fn lowest_bits(t: MonType, z: i128) -> u128
    ensures { result ≡ spec.lowest_bits t z }
{
    let bits = z.cast_unsigned();
    match t {
        MonType::I8 | MonType::U8 => bits % (1 << 8),
        MonType::I16 | MonType::U16 => bits % (1 << 16),
        MonType::I32 | MonType::U32 => bits % (1 << 32),
        MonType::I64 | MonType::U64 | MonType::Ptr => bits % (1 << 64),
        MonType::I128 => bits,
    }
}

/// A value as a pointer.
#[inline(always)]
pub fn pointer_in(z: i128) -> u64
    ensures { result ≡ pointer_in z }
{
    (z.cast_unsigned() % (1 << 64)) as u64
}

#[inline(always)]
fn is_pointer(t: MonType) -> bool
    ensures { result ≡ spec.is_pointer t }
{
    t == MonType::Ptr
}

#[inline(always)]
fn load_as(memory: &Runtime, t: MonType, p: i128) -> Option<i128>
    ensures { result ≡ load_flat t p memory.now }
{
    match memory.load(pointer_in(p), byte_count(t)) {
        Ok(bits) => Some(wrap(t, bits.cast_signed())),
        Err(_) => None,
    }
}

// The same of one type each. The compiler makes them short first, and then puts them where they are called: so they aren't put there always.
#[inline]
fn load_i32(memory: &Runtime, p: i128) -> Option<i128>
    ensures { result ≡ load_flat MonType.I32 p memory.now }
{
    load_as(memory, MonType::I32, p)
}

#[inline]
fn load_i64(memory: &Runtime, p: i128) -> Option<i128>
    ensures { result ≡ load_flat MonType.I64 p memory.now }
{
    load_as(memory, MonType::I64, p)
}

#[inline]
fn load_ptr(memory: &Runtime, p: i128) -> Option<i128>
    ensures { result ≡ load_flat MonType.Ptr p memory.now }
{
    load_as(memory, MonType::Ptr, p)
}

// The same of the types that are loaded less often, out of line: within the loop over instructions it would be too long.
#[inline(never)]
fn load_rarely(memory: &Runtime, t: MonType, p: i128) -> Option<i128>
    ensures { result ≡ load_flat t p memory.now }
{
    load_as(memory, t, p)
}

/// The value of the type that is read at a pointer.
#[inline(always)]
pub fn load(memory: &Runtime, t: MonType, p: i128) -> Option<i128>
    ensures { result ≡ load_flat t p memory.now }
{
    // A type that is known chooses nothing more: its width and its sign are numbers.
    match t {
        MonType::I32 => load_i32(memory, p),
        MonType::I64 => load_i64(memory, p),
        MonType::Ptr => load_ptr(memory, p),
        _ => load_rarely(memory, t, p),
    }
}

/// The same where most pointers are to the stack: what is there is read in line, which is short.
#[inline(always)]
pub fn load_often(memory: &Runtime, t: MonType, p: i128) -> Option<i128>
    ensures { result ≡ load_flat t p memory.now }
{
    match memory.load_from_stack(pointer_in(p), byte_count(t)) {
        Some(bits) => Some(wrap(t, bits.cast_signed())),
        None => load(memory, t, p),
    }
}

#[inline(always)]
fn store_as(memory: &mut Runtime, t: MonType, p: i128, z: i128) -> bool
    ensures { Stores result t p z memory.old memory.new }
{
    let width = byte_count(t);
    match memory.store(pointer_in(p), width, lowest_bits(t, z), is_pointer(t)) {
        Ok(()) => true,
        Err(_) => false,
    }
}

// The same of one type each, out of line.
#[inline(never)]
fn store_i32_anywhere(memory: &mut Runtime, p: i128, z: i128) -> bool
    ensures { Stores result MonType.I32 p z memory.old memory.new }
{
    store_as(memory, MonType::I32, p, z)
}

#[inline(never)]
fn store_i64_anywhere(memory: &mut Runtime, p: i128, z: i128) -> bool
    ensures { Stores result MonType.I64 p z memory.old memory.new }
{
    store_as(memory, MonType::I64, p, z)
}

// The same. What is on the stack is stored in line. The compiler makes these short first, and then puts them where they are called.
#[inline(always)]
fn store_i32(memory: &mut Runtime, p: i128, z: i128) -> bool
    ensures { Stores result MonType.I32 p z memory.old memory.new }
{
    memory.store_on_stack(pointer_in(p), 4, lowest_bits(MonType::I32, z))
        || store_i32_anywhere(memory, p, z)
}

#[inline]
fn store_i64(memory: &mut Runtime, p: i128, z: i128) -> bool
    ensures { Stores result MonType.I64 p z memory.old memory.new }
{
    memory.store_on_stack(pointer_in(p), 8, lowest_bits(MonType::I64, z))
        || store_i64_anywhere(memory, p, z)
}

#[inline]
fn store_ptr(memory: &mut Runtime, p: i128, z: i128) -> bool
    ensures { Stores result MonType.Ptr p z memory.old memory.new }
{
    store_as(memory, MonType::Ptr, p, z)
}

// The same of the types that are stored less often, out of line: within the loop over instructions it would be too long.
#[inline(never)]
fn store_rarely(memory: &mut Runtime, t: MonType, p: i128, z: i128) -> bool
    ensures { Stores result t p z memory.old memory.new }
{
    match t {
        MonType::I8 => store_as(memory, MonType::I8, p, z),
        MonType::U8 => store_as(memory, MonType::U8, p, z),
        MonType::I16 => store_as(memory, MonType::I16, p, z),
        MonType::U16 => store_as(memory, MonType::U16, p, z),
        MonType::U32 => store_as(memory, MonType::U32, p, z),
        MonType::U64 => store_as(memory, MonType::U64, p, z),
        _ => store_as(memory, t, p, z),
    }
}

/// Stores a value as one of the type at a pointer, with its mark. `false` where it can't be, and then the memory stays.
#[inline(always)]
pub fn store(memory: &mut Runtime, t: MonType, p: i128, z: i128) -> bool
    ensures { Stores result t p z memory.old memory.new }
{
    match t {
        MonType::I32 => store_i32(memory, p, z),
        MonType::I64 => store_i64(memory, p, z),
        MonType::Ptr => store_ptr(memory, p, z),
        _ => store_rarely(memory, t, p, z),
    }
}

// ---- operators on pointers

// A pointer so many bytes farther: its address wraps.
fn farther(p: u64, d: i128) -> i128
    ensures { result ≡ pos (farther p d) }
{
    let address = i128::from(address_of(p));
    let upper = i128::from(p) - address;
    upper + wrap(MonType::U32, address.wrapping_add(d))
}

/// An operator of which the first operand is a pointer.
pub fn pointed(op: MonOp, x: i128, y: i128) -> Option<i128>
    ensures { (f : Flat) → result ≡ pointed_flat op x y f }
{
    let p = pointer_in(x);
    let q = pointer_in(y);
    match op {
        MonOp::Add => Some(farther(p, y)),
        MonOp::Sub => Some(i128::from(address_of(p)) - i128::from(address_of(q))),
        MonOp::Eq => Some(i128::from(p == q)),
        MonOp::Ne => Some(i128::from(p != q)),
        MonOp::Lt => Some(i128::from(address_of(p) < address_of(q))),
        MonOp::Le => Some(i128::from(address_of(p) <= address_of(q))),
        MonOp::Gt => Some(i128::from(address_of(p) > address_of(q))),
        MonOp::Ge => Some(i128::from(address_of(p) >= address_of(q))),
        MonOp::Mul | MonOp::Div | MonOp::Rem | MonOp::Shl | MonOp::Shr => None,
        MonOp::And | MonOp::Or | MonOp::Xor => None,
    }
}

// ---- calls of the runtime

/// `__e_acsl_number(p, o, size)`, out of line: within the loop over instructions it would take the registers of the processor from them.
#[inline(never)]
pub fn number(memory: &Runtime, size: AccessSize, p: i128, o: i128) -> i128
    ensures { result ≡ truth (flat_number memory.now (pointer_in p) o (spec.access_bytes size)) }
{
    match memory.number(pointer_in(p), o, access_bytes(size) as u64) {
        Ok(answer) => i128::from(answer),
        Err(_) => 0,
    }
}

// `__e_acsl_store_block(size)`
fn store_block(memory: &mut Runtime, size: i128) -> Result<i128, Stop>
    ensures { Replies (act_on_flat MemoryCall.StoreBlock (size ∷ []) memory.old) memory.new result }
{
    match memory.store_block(lowest_bits(MonType::U64, size) as u64) {
        Ok(start) => Ok(i128::from(start)),
        Err(fault) => Err(stop_by(fault)),
    }
}

// `__e_acsl_delete_block(pointer)`
fn delete_block(memory: &mut Runtime, pointer: i128) -> Result<i128, Stop>
    ensures { Replies (act_on_flat MemoryCall.DeleteBlock (pointer ∷ []) memory.old) memory.new result }
{
    match memory.delete_block(pointer_in(pointer)) {
        Ok(()) => Ok(0),
        Err(fault) => Err(stop_by(fault)),
    }
}

// `__e_acsl_malloc(size)`
fn malloc(memory: &mut Runtime, size: i128) -> Result<i128, Stop>
    ensures { Replies (act_on_flat MemoryCall.Malloc (size ∷ []) memory.old) memory.new result }
{
    match memory.malloc(lowest_bits(MonType::U64, size) as u64) {
        Ok(start) => Ok(i128::from(start)),
        Err(fault) => Err(stop_by(fault)),
    }
}

// `__e_acsl_calloc(count, size)`
fn calloc(memory: &mut Runtime, count: i128, size: i128) -> Result<i128, Stop>
    ensures { Replies (act_on_flat MemoryCall.Calloc (count ∷ size ∷ []) memory.old) memory.new result }
{
    let count = lowest_bits(MonType::U64, count) as u64;
    let size = lowest_bits(MonType::U64, size) as u64;
    match memory.calloc(count, size) {
        Ok(start) => Ok(i128::from(start)),
        Err(fault) => Err(stop_by(fault)),
    }
}

// `__e_acsl_free(pointer)`
fn free(memory: &mut Runtime, pointer: i128) -> Result<i128, Stop>
    ensures { Replies (act_on_flat MemoryCall.Free (pointer ∷ []) memory.old) memory.new result }
{
    match memory.free(pointer_in(pointer)) {
        Ok(()) => Ok(0),
        Err(fault) => Err(stop_by(fault)),
    }
}

// `__e_acsl_copy(target, source, size)`
fn copy(memory: &mut Runtime, size: CopySize, target: i128, source: i128) -> Result<i128, Stop>
    ensures { Replies (act_on_flat (MemoryCall.Copy size) (target ∷ source ∷ []) memory.old) memory.new result }
{
    match memory.copy(
        pointer_in(target),
        pointer_in(source),
        copy_bytes(size) as u64,
    ) {
        Ok(()) => Ok(0),
        Err(fault) => Err(stop_by(fault)),
    }
}

/// A call of the runtime with one argument.
pub fn act_on_one(memory: &mut Runtime, f: MemoryCall, argument: i128) -> Result<i128, Stop>
    ensures { Replies (act_on_flat f (argument ∷ []) memory.old) memory.new result }
{
    match f {
        MemoryCall::StoreBlock => store_block(memory, argument),
        MemoryCall::DeleteBlock => delete_block(memory, argument),
        MemoryCall::Malloc => malloc(memory, argument),
        MemoryCall::Free => free(memory, argument),
        MemoryCall::Copy(_) | MemoryCall::Calloc => Err(Stop::Fault),
        MemoryCall::Number(_) | MemoryCall::Valid(_) | MemoryCall::ValidRead(_) => Err(Stop::Fault),
        MemoryCall::Initialized(_) | MemoryCall::Pointer | MemoryCall::Inside => Err(Stop::Fault),
        MemoryCall::BaseAddr | MemoryCall::BlockLength | MemoryCall::Offset => Err(Stop::Fault),
        MemoryCall::Separated => Err(Stop::Fault),
    }
}

/// A call of the runtime with two arguments that changes the memory.
pub fn act_on_two(
    memory: &mut Runtime,
    f: MemoryCall,
    first: i128,
    second: i128,
) -> Result<i128, Stop>
    requires { is_question f ≡ false }
    ensures { Replies (act_on_flat f (first ∷ second ∷ []) memory.old) memory.new result }
{
    match f {
        MemoryCall::Copy(size) => copy(memory, size, first, second),
        MemoryCall::Calloc => calloc(memory, first, second),
        MemoryCall::StoreBlock | MemoryCall::DeleteBlock => Err(Stop::Fault),
        MemoryCall::Malloc | MemoryCall::Free => Err(Stop::Fault),
        MemoryCall::Number(_) | MemoryCall::Valid(_) | MemoryCall::ValidRead(_) => Err(Stop::Fault),
        MemoryCall::Initialized(_) | MemoryCall::Pointer | MemoryCall::Inside => Err(Stop::Fault),
        MemoryCall::BaseAddr | MemoryCall::BlockLength | MemoryCall::Offset => Err(Stop::Fault),
        MemoryCall::Separated => Err(Stop::Fault),
    }
}

// ---- the same within the loop over instructions, where a block is seldom refused

#[inline(always)]
fn born_of(memory: &mut Runtime, size: i128) -> Option<i128>
    ensures { Yields (act_on_flat MemoryCall.StoreBlock (size ∷ []) memory.old) memory.old memory.new result }
{
    match memory.store_block(lowest_bits(MonType::U64, size) as u64) {
        Ok(start) => Some(i128::from(start)),
        Err(_) => None,
    }
}

// The same out of line: within the loop over instructions it would be too long.
#[inline(never)]
fn born_rarely(memory: &mut Runtime, size: i128) -> Option<i128>
    ensures { Yields (act_on_flat MemoryCall.StoreBlock (size ∷ []) memory.old) memory.old memory.new result }
{
    match size {
        8 => born_of(memory, 8),
        _ => born_of(memory, size),
    }
}

/// `__e_acsl_store_block(size)`. None where it is refused, and then the memory stays.
#[inline(always)]
pub fn born(memory: &mut Runtime, size: i128) -> Option<i128>
    ensures { Yields (act_on_flat MemoryCall.StoreBlock (size ∷ []) memory.old) memory.old memory.new result }
{
    // A size that is known computes nothing more: most blocks are a variable of four bytes.
    match size {
        4 => born_of(memory, 4),
        _ => born_rarely(memory, size),
    }
}

/// `__e_acsl_delete_block(pointer)`. None where it is refused, and then the memory stays.
#[inline(always)]
pub fn dead(memory: &mut Runtime, pointer: i128) -> Option<i128>
    ensures { Yields (act_on_flat MemoryCall.DeleteBlock (pointer ∷ []) memory.old) memory.old memory.new result }
{
    match memory.delete_block(pointer_in(pointer)) {
        Ok(()) => Some(0),
        Err(_) => None,
    }
}
