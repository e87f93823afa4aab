//! Questions of the runtime. They change nothing: each is answered out of line from the memory alone, apart from where the machine stands.

ghost use Rattle.std.specs.Prelude.{◌≡◌, ◌<◌, ◌^◌, ◌∷◌, [], true};
ghost use Rattle.mon_syntax.specs.FlatMemory.{act_on_flat};
ghost use Rattle.c_machine.specs.Acts.{Acts, ended_by};
ghost use Rattle.c_machine.specs.Held.{IsFit, Links};
ghost use Rattle.c_machine.specs.Questions.{is_question, told, told_pointer, Tells};
ghost use Rattle.c_machine.specs.Reading.{Ports};

use crate::machine::{Cursor, Machine};
use crate::memory::pointer_in;
use crate::stop::Stop;
use block_runtime::{RunFault, Runtime};
use c_lower::Instr;
use mon_syntax::{MemoryCall, access_bytes};

/// Whether a call leaves the memory as it is.
#[inline(always)]
pub fn is_question(f: MemoryCall) -> bool
    ensures { result ≡ is_question f }
{
    match f {
        MemoryCall::StoreBlock | MemoryCall::DeleteBlock | MemoryCall::Copy(_) => false,
        MemoryCall::Number(_) | MemoryCall::Valid(_) | MemoryCall::ValidRead(_) => true,
        MemoryCall::Initialized(_) | MemoryCall::Pointer | MemoryCall::Inside => true,
        MemoryCall::BaseAddr | MemoryCall::BlockLength | MemoryCall::Offset => true,
        MemoryCall::Separated => true,
        MemoryCall::Malloc | MemoryCall::Calloc | MemoryCall::Free => false,
    }
}

fn told_truth(answer: Result<i32, RunFault>) -> Option<i128>
    ensures { result ≡ told answer }
{
    match answer {
        Ok(truth) => Some(i128::from(truth)),
        Err(_) => None,
    }
}

fn told_length(answer: Result<i64, RunFault>) -> Option<i128>
    ensures { result ≡ told answer }
{
    match answer {
        Ok(length) => Some(i128::from(length)),
        Err(_) => None,
    }
}

fn told_pointer(answer: Result<u64, RunFault>) -> Option<i128>
    ensures { result ≡ told_pointer answer }
{
    match answer {
        Ok(start) => Some(i128::from(start)),
        Err(_) => None,
    }
}

// What is asked of a place, at an offset from a pointer.
fn asked_of_place(memory: &Runtime, f: MemoryCall, pointer: i128, o: i128) -> Option<i128>
    requires { is_question f ≡ true }
    ensures { Tells (act_on_flat f (pointer ∷ o ∷ []) memory.now) memory.now result }
{
    let p = pointer_in(pointer);
    match f {
        MemoryCall::Number(size) => told_truth(memory.number(p, o, access_bytes(size) as u64)),
        MemoryCall::Pointer => told_truth(memory.pointer(p, o)),
        MemoryCall::Inside => told_truth(memory.inside(p, o)),
        MemoryCall::BaseAddr => told_pointer(memory.base_addr(p, o)),
        MemoryCall::BlockLength => told_length(memory.block_length(p, o)),
        MemoryCall::Offset => told_length(memory.offset(p, o)),
        MemoryCall::Valid(_) | MemoryCall::ValidRead(_) | MemoryCall::Initialized(_) => None,
        MemoryCall::Separated | MemoryCall::StoreBlock | MemoryCall::DeleteBlock => None,
        MemoryCall::Copy(_) | MemoryCall::Malloc | MemoryCall::Calloc | MemoryCall::Free => None,
    }
}

// What is asked of a range of bytes, at an offset from a pointer.
fn asked_of_range(memory: &Runtime, f: MemoryCall, pointer: i128, o: i128, n: i128) -> Option<i128>
    ensures { Tells (act_on_flat f (pointer ∷ o ∷ n ∷ []) memory.now) memory.now result }
{
    let p = pointer_in(pointer);
    match f {
        MemoryCall::Valid(size) => told_truth(memory.valid(p, o, n, access_bytes(size) as u64)),
        MemoryCall::ValidRead(size) => {
            told_truth(memory.valid_read(p, o, n, access_bytes(size) as u64))
        }
        MemoryCall::Initialized(size) => {
            told_truth(memory.initialized(p, o, n, access_bytes(size) as u64))
        }
        MemoryCall::Number(_) | MemoryCall::Pointer | MemoryCall::Inside => None,
        MemoryCall::BaseAddr | MemoryCall::BlockLength | MemoryCall::Offset => None,
        MemoryCall::Separated | MemoryCall::StoreBlock | MemoryCall::DeleteBlock => None,
        MemoryCall::Copy(_) | MemoryCall::Malloc | MemoryCall::Calloc | MemoryCall::Free => None,
    }
}

// What is asked of two ranges.
fn asked_of_two(
    memory: &Runtime,
    f: MemoryCall,
    pointer: i128,
    o: i128,
    n: i128,
    other: i128,
    u: i128,
    m: i128,
) -> Option<i128>
    ensures { Tells (act_on_flat f (pointer ∷ o ∷ n ∷ other ∷ u ∷ m ∷ []) memory.now) memory.now result }
{
    let p = pointer_in(pointer);
    let q = pointer_in(other);
    match f {
        MemoryCall::Separated => told_truth(memory.separated(p, o, n, q, u, m)),
        MemoryCall::Valid(_) | MemoryCall::ValidRead(_) | MemoryCall::Initialized(_) => None,
        MemoryCall::Number(_) | MemoryCall::Pointer | MemoryCall::Inside => None,
        MemoryCall::BaseAddr | MemoryCall::BlockLength | MemoryCall::Offset => None,
        MemoryCall::StoreBlock | MemoryCall::DeleteBlock => None,
        MemoryCall::Copy(_) | MemoryCall::Malloc | MemoryCall::Calloc | MemoryCall::Free => None,
    }
}

// The answer to a question with these arguments, or none where it takes others.
#[inline(never)]
fn asked(memory: &Runtime, f: MemoryCall, arguments: &[i128]) -> Option<i128>
    requires { is_question f ≡ true }
    ensures { Tells (act_on_flat f arguments.now memory.now) memory.now result }
{
    match arguments {
        [p, o] => asked_of_place(memory, f, *p, *o),
        [p, o, n] => asked_of_range(memory, f, *p, *o, *n),
        [p, o, n, q, u, m] => asked_of_two(memory, f, *p, *o, *n, *q, *u, *m),
        _ => None,
    }
}

impl Cursor {
    /// `Act` of a question.
    #[inline(always)]
    pub fn question(
        &mut self,
        f: MemoryCall,
        count: usize,
        machine: &mut Machine,
        stop: &mut Stop,
    ) -> bool
        requires fit { IsFit self.old machine.old }
        requires place { self.old.place < 2 ^ 63 }
        requires question { is_question f ≡ true }
        ensures { (links : Links) (ports : Ports) → Acts links (Instr.Act f count) self.old machine.old self.new machine.new ports ports
            (ended_by result stop.new) }
    {
        if count == 0 || self.height < count {
            *stop = Stop::Fault;
            return false;
        }
        let first = self.height - count;
        match asked(&machine.memory, f, &machine.operands[first..self.height]) {
            Some(answer) => {
                self.height = first;
                self.give(machine, answer);
                true
            }
            None => {
                *stop = Stop::Fault;
                false
            }
        }
    }
}
