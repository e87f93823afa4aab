//! Names of registers, functions, globals and labels.

ghost use Rattle.std.specs.Prelude.{◌≡◌, ◌++◌, IfOk, codes, take};
ghost use Rattle.std.specs.Fmt.{decimal};
ghost use Rattle.instrument.specs.Translation.{case_label, function_name, global_name, pointer_name, register_name, temporary_name, text_name};
ghost use Rattle.c_simulation.specs.Labels.{end_label, leave_label, next_label};

use c_syntax::Name;
use std::alloc::{AllocError, Global};

const MOST_IN_NAME: usize = 255;

// A word, and a number after it.
fn numbered(alloc: Global, word: &[u8], number: usize) -> Result<Vec<u8>, AllocError>
    ensures { IfOk result (λ bytes. bytes.items ≡ word.now ++ decimal number) }
{
    let digits = format!(in alloc; "{number}")?;
    let mut bytes = Vec::from_slice(alloc, word)?;
    bytes.extend_from_slice(digits.as_bytes())?;
    Ok(bytes)
}

// The name of a word and a number.
fn short(alloc: Global, word: &[u8], number: usize) -> Result<Name, AllocError>
    ensures { IfOk result (λ bytes. bytes ≡ word.now ++ decimal number) }
{
    Ok(Name::new(numbered(alloc, word, number)?))
}

// The same with a name after it, as far as there is room.
fn long(alloc: Global, word: &[u8], number: usize, name: &[u8]) -> Result<Name, AllocError>
    ensures { IfOk result (λ bytes. bytes ≡ take 255 (word.now ++ (decimal number ++ (codes "_" ++ name.now)))) }
{
    let mut bytes = numbered(alloc, word, number)?;
    bytes.push(b'_')?;
    bytes.extend_from_slice(name)?;
    bytes.truncate(MOST_IN_NAME);
    Ok(Name::new(bytes))
}

/// `v7_count`: the number of the register, and the name of the variable as far as there is room.
pub fn register_name(alloc: Global, number: usize, name: &[u8]) -> Result<Name, AllocError>
    ensures { IfOk result (λ bytes. bytes ≡ register_name number name.now) }
{
    long(alloc, b"v", number, name)
}

/// `p8`: a register that points to a variable's block.
pub fn pointer_name(alloc: Global, number: usize) -> Result<Name, AllocError>
    ensures { IfOk result (λ bytes. bytes ≡ pointer_name number) }
{
    short(alloc, b"p", number)
}

/// `t12`: a temporary register.
pub fn temporary_name(alloc: Global, number: usize) -> Result<Name, AllocError>
    ensures { IfOk result (λ bytes. bytes ≡ temporary_name number) }
{
    short(alloc, b"t", number)
}

/// `f3_sum`: the index of the function, and its name as far as there is room.
pub fn function_name(alloc: Global, index: usize, name: &[u8]) -> Result<Name, AllocError>
    ensures { IfOk result (λ bytes. bytes ≡ function_name index name.now) }
{
    long(alloc, b"f", index, name)
}

/// `g3_count`: the index of the global, and its name as far as there is room.
pub fn global_name(alloc: Global, index: usize, name: &[u8]) -> Result<Name, AllocError>
    ensures { IfOk result (λ bytes. bytes ≡ global_name index name.now) }
{
    long(alloc, b"g", index, name)
}

/// `s4`: a string literal, by its index.
pub fn text_name(alloc: Global, index: usize) -> Result<Name, AllocError>
    ensures { IfOk result (λ bytes. bytes ≡ text_name index) }
{
    short(alloc, b"s", index)
}

/// `end_3`: the label of the end of a loop around whose body stand three loops, itself included.
pub fn end_label(alloc: Global, loops: u32) -> Result<Name, AllocError>
    ensures { IfOk result (λ bytes. bytes ≡ end_label loops) }
{
    short(alloc, b"end_", loops as usize)
}

/// `next_3`: the label of the end of its body, where the next turn begins.
pub fn next_label(alloc: Global, loops: u32) -> Result<Name, AllocError>
    ensures { IfOk result (λ bytes. bytes ≡ next_label loops) }
{
    short(alloc, b"next_", loops as usize)
}

/// `case_3`: the label of the end of the search in a `switch`, where its cases begin.
pub fn case_label(alloc: Global, levels: u32) -> Result<Name, AllocError>
    ensures { IfOk result (λ bytes. bytes ≡ case_label levels) }
{
    short(alloc, b"case_", levels as usize)
}

/// `leave`: the label of the end of a body, where what a contract asks there begins.
pub fn leave_label(alloc: Global) -> Result<Name, AllocError>
    ensures { IfOk result (λ bytes. bytes ≡ leave_label) }
{
    Ok(Name::new(Vec::from_slice(alloc, b"leave")?))
}
