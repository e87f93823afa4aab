//! Calls: of the runtime, and of the functions of the program.

ghost use Rattle.std.specs.Prelude.{◌≡◌, [], ◌∷◌, map, None, IfOk};
ghost use Rattle.mon_syntax.specs.Trees as tree;
ghost use Rattle.mon_syntax.specs.Trees.{plain_expr, plain_stmt};
ghost use Rattle.mon_syntax.specs.declared.tree.MonType.TheVariants.{I32, I64, U64, Ptr};
ghost use Rattle.mon_syntax.specs.Valid.{memory_parameters};
ghost use Rattle.mon_syntax.specs.Checking.{no_more, string, next, one_value, assert_call, simple_call, number_call, range_call, copy_call};
ghost use Rattle.mon_syntax.specs.Checking.{runtime_call, named_call, call_of_word};
ghost use Rattle.mon_syntax.specs.Checking.{checked_call};
ghost use Rattle.mon_parser.specs.ParsedTrees as read;
ghost use Rattle.mon_typing.specs.Answers.{Gives};
ghost use Rattle.mon_typing.specs.Arguments.{assert_kind, assert_numbers, number_size, range_question, range_size, range_length, copy_size};
ghost use Rattle.mon_typing.specs.Arguments.{call_of_number};
ghost use Rattle.mon_typing.specs.Scopes.{plain_scope};

use crate::argument::{
    next_number, next_value, no_more, only_copy_size, only_kind, only_size, only_string,
    only_value, values_of, wrong_number,
};
use crate::fault::CheckFault;
use crate::scope::{Scope, function_called, is_main};
use c_syntax::{Name, Place};
use mon_parser::parsed::{NameUse, ParsedArg, ParsedCall};
use mon_parser::word_at;
use mon_syntax::{AccessSize, MemoryCall, MonExpr, MonStmt, MonStmtKind, MonType, Runtime, Word};
use std::alloc::{AllocError, Global};

/// Whether an annotation is defined, and whether it is true.
#[derive(Drop)]
struct Truth {
    defined: MonExpr,
    holds: MonExpr,
}

/// The kind of an assert, after its other arguments.
fn assert_kind(
    alloc: Global,
    scope: &Scope,
    place: Place,
    truth: Truth,
    number: u32,
    line: u32,
    arguments: &[ParsedArg],
) -> Result<MonStmt, CheckFault>
    ensures { Gives plain_stmt result (assert_kind (plain_scope scope.now) place (plain_expr truth.defined) (plain_expr truth.holds) number line
        (map read.plain_arg arguments.now)) }
{
    let kind = only_kind(alloc, scope, place, arguments)?;
    let assert = MonStmtKind::Assert(truth.defined, truth.holds, number, line, kind);
    Ok(MonStmt::new(alloc, assert)?)
}

/// The number, the line and the kind of an assert.
fn assert_numbers(
    alloc: Global,
    scope: &Scope,
    place: Place,
    truth: Truth,
    arguments: &[ParsedArg],
) -> Result<MonStmt, CheckFault>
    ensures { Gives plain_stmt result (assert_numbers (plain_scope scope.now) place (plain_expr truth.defined) (plain_expr truth.holds)
        (map read.plain_arg arguments.now)) }
{
    let (number, more) = next_number(alloc, scope, place, arguments)?;
    let (line, more) = next_number(alloc, scope, place, more)?;
    assert_kind(alloc, scope, place, truth, number, line, more)
}

fn assert_call(
    alloc: Global,
    scope: &Scope,
    place: Place,
    arguments: &[ParsedArg],
) -> Result<MonStmt, CheckFault>
    ensures { Gives plain_stmt result (assert_call (plain_scope scope.now) place (map read.plain_arg arguments.now)) }
{
    let (defined, more) = next_value(alloc, scope, place, MonType::I32, arguments)?;
    let (holds, more) = next_value(alloc, scope, place, MonType::I32, more)?;
    assert_numbers(alloc, scope, place, Truth { defined, holds }, more)
}

/// The types of the arguments of a call on the memory.
fn memory_parameters(f: MemoryCall) -> &'static [MonType]
    ensures { result.now ≡ memory_parameters f }
{
    match f {
        MemoryCall::StoreBlock => &[MonType::U64],
        MemoryCall::DeleteBlock => &[MonType::Ptr],
        MemoryCall::Copy(_) => &[MonType::Ptr, MonType::Ptr],
        MemoryCall::Number(_) => &[MonType::Ptr, MonType::I128],
        MemoryCall::Valid(_) => &[MonType::Ptr, MonType::I128, MonType::I128],
        MemoryCall::ValidRead(_) => &[MonType::Ptr, MonType::I128, MonType::I128],
        MemoryCall::Initialized(_) => &[MonType::Ptr, MonType::I128, MonType::I128],
        MemoryCall::Pointer => &[MonType::Ptr, MonType::I128],
        MemoryCall::Inside => &[MonType::Ptr, MonType::I128],
        MemoryCall::BaseAddr => &[MonType::Ptr, MonType::I128],
        MemoryCall::BlockLength => &[MonType::Ptr, MonType::I128],
        MemoryCall::Offset => &[MonType::Ptr, MonType::I128],
        MemoryCall::Separated => &[
            MonType::Ptr,
            MonType::I128,
            MonType::I128,
            MonType::Ptr,
            MonType::I128,
            MonType::I128,
        ],
        MemoryCall::Malloc => &[MonType::U64],
        MemoryCall::Calloc => &[MonType::U64, MonType::U64],
        MemoryCall::Free => &[MonType::Ptr],
    }
}

/// A call on the memory whose arguments are values alone.
fn simple_call(
    alloc: Global,
    scope: &Scope,
    place: Place,
    arguments: &[ParsedArg],
    f: MemoryCall,
) -> Result<MonStmt, CheckFault>
    ensures { Gives plain_stmt result (simple_call (plain_scope scope.now) place (map read.plain_arg arguments.now) f) }
{
    let values = values_of(alloc, scope, place, memory_parameters(f), arguments)?;
    Ok(MonStmt::new(alloc, MonStmtKind::Act(None, f, values))?)
}

/// The two values before the size of a call on the memory.
#[derive(Drop)]
struct Pair {
    first: MonExpr,
    second: MonExpr,
}

/// The call on the memory with two values.
fn act_on_pair(alloc: Global, f: MemoryCall, values: Pair) -> Result<MonStmt, AllocError>
    ensures { IfOk result (λ a. plain_stmt a ≡ tree.Act None f (plain_expr values.first ∷ plain_expr values.second ∷ [])) }
{
    let mut list = Vec::new(alloc);
    list.push(values.first)?;
    list.push(values.second)?;
    MonStmt::new(alloc, MonStmtKind::Act(None, f, list))
}

/// The number of bytes of a question whether they hold a number, after its other arguments.
fn number_size(
    alloc: Global,
    scope: &Scope,
    place: Place,
    values: Pair,
    arguments: &[ParsedArg],
) -> Result<MonStmt, CheckFault>
    ensures { Gives plain_stmt result (number_size (plain_scope scope.now) place (plain_expr values.first) (plain_expr values.second)
        (map read.plain_arg arguments.now)) }
{
    let size = only_size(alloc, scope, place, arguments)?;
    Ok(act_on_pair(alloc, MemoryCall::Number(size), values)?)
}

/// The number of bytes of a copy, after its other arguments.
fn copy_size(
    alloc: Global,
    scope: &Scope,
    place: Place,
    values: Pair,
    arguments: &[ParsedArg],
) -> Result<MonStmt, CheckFault>
    ensures { Gives plain_stmt result (copy_size (plain_scope scope.now) place (plain_expr values.first) (plain_expr values.second)
        (map read.plain_arg arguments.now)) }
{
    let size = only_copy_size(alloc, scope, place, arguments)?;
    Ok(act_on_pair(alloc, MemoryCall::Copy(size), values)?)
}

/// `__e_acsl_number(p, o, A);`
fn number_call(
    alloc: Global,
    scope: &Scope,
    place: Place,
    arguments: &[ParsedArg],
) -> Result<MonStmt, CheckFault>
    ensures { Gives plain_stmt result (number_call (plain_scope scope.now) place (map read.plain_arg arguments.now)) }
{
    let (pointer, more) = next_value(alloc, scope, place, MonType::Ptr, arguments)?;
    let (offset, more) = next_value(alloc, scope, place, MonType::I128, more)?;
    let values = Pair {
        first: pointer,
        second: offset,
    };
    number_size(alloc, scope, place, values, more)
}

/// A question about a range of bytes.
#[derive(Clone, Copy)]
enum RangeQuestion {
    Valid,
    ValidRead,
    Initialized,
}

/// The call that asks it, at an alignment.
fn range_question(question: RangeQuestion, size: AccessSize) -> MemoryCall
    ensures { result ≡ range_question question size }
{
    match question {
        RangeQuestion::Valid => MemoryCall::Valid(size),
        RangeQuestion::ValidRead => MemoryCall::ValidRead(size),
        RangeQuestion::Initialized => MemoryCall::Initialized(size),
    }
}

/// The call on the memory with three values.
fn act_on_three(
    alloc: Global,
    f: MemoryCall,
    values: Pair,
    length: MonExpr,
) -> Result<MonStmt, AllocError>
    ensures { IfOk result (λ a. plain_stmt a ≡ tree.Act None f (plain_expr values.first ∷ plain_expr values.second ∷ plain_expr length ∷ [])) }
{
    let mut list = Vec::new(alloc);
    list.push(values.first)?;
    list.push(values.second)?;
    list.push(length)?;
    MonStmt::new(alloc, MonStmtKind::Act(None, f, list))
}

/// The alignment of a question about a range, after its other arguments.
fn range_size(
    alloc: Global,
    scope: &Scope,
    place: Place,
    values: Pair,
    length: MonExpr,
    arguments: &[ParsedArg],
    question: RangeQuestion,
) -> Result<MonStmt, CheckFault>
    ensures { Gives plain_stmt result (range_size (plain_scope scope.now) place (plain_expr values.first) (plain_expr values.second) (plain_expr length)
        (map read.plain_arg arguments.now) (range_question question)) }
{
    let size = only_size(alloc, scope, place, arguments)?;
    Ok(act_on_three(alloc, range_question(question, size), values, length)?)
}

/// The length and the alignment of a question about a range.
fn range_length(
    alloc: Global,
    scope: &Scope,
    place: Place,
    values: Pair,
    arguments: &[ParsedArg],
    question: RangeQuestion,
) -> Result<MonStmt, CheckFault>
    ensures { Gives plain_stmt result (range_length (plain_scope scope.now) place (plain_expr values.first) (plain_expr values.second)
        (map read.plain_arg arguments.now) (range_question question)) }
{
    let (length, more) = next_value(alloc, scope, place, MonType::I128, arguments)?;
    range_size(alloc, scope, place, values, length, more, question)
}

/// `__e_acsl_valid(p, o, n, A);` and its kin
fn range_call(
    alloc: Global,
    scope: &Scope,
    place: Place,
    arguments: &[ParsedArg],
    question: RangeQuestion,
) -> Result<MonStmt, CheckFault>
    ensures { Gives plain_stmt result (range_call (plain_scope scope.now) place (map read.plain_arg arguments.now) (range_question question)) }
{
    let (pointer, more) = next_value(alloc, scope, place, MonType::Ptr, arguments)?;
    let (offset, more) = next_value(alloc, scope, place, MonType::I128, more)?;
    let values = Pair {
        first: pointer,
        second: offset,
    };
    range_length(alloc, scope, place, values, more, question)
}

/// `__e_acsl_copy(p, q, A);`
fn copy_call(
    alloc: Global,
    scope: &Scope,
    place: Place,
    arguments: &[ParsedArg],
) -> Result<MonStmt, CheckFault>
    ensures { Gives plain_stmt result (copy_call (plain_scope scope.now) place (map read.plain_arg arguments.now)) }
{
    let (target, more) = next_value(alloc, scope, place, MonType::Ptr, arguments)?;
    let (source, more) = next_value(alloc, scope, place, MonType::Ptr, more)?;
    let values = Pair {
        first: target,
        second: source,
    };
    copy_size(alloc, scope, place, values, more)
}

/// `__e_acsl_step();`
fn step(
    alloc: Global,
    scope: &Scope,
    place: Place,
    arguments: &[ParsedArg],
) -> Result<MonStmt, CheckFault>
    ensures { Gives plain_stmt result (no_more (plain_scope scope.now) place (map read.plain_arg arguments.now) tree.Step) }
{
    no_more(alloc, scope, place, arguments)?;
    Ok(MonStmt::new(alloc, MonStmtKind::Step)?)
}

/// `getchar();`
fn get_char(
    alloc: Global,
    scope: &Scope,
    place: Place,
    arguments: &[ParsedArg],
) -> Result<MonStmt, CheckFault>
    ensures { Gives plain_stmt result (no_more (plain_scope scope.now) place (map read.plain_arg arguments.now) (tree.GetChar None)) }
{
    no_more(alloc, scope, place, arguments)?;
    Ok(MonStmt::new(alloc, MonStmtKind::GetChar(None))?)
}

/// `putchar(e);`
fn put_char(
    alloc: Global,
    scope: &Scope,
    place: Place,
    arguments: &[ParsedArg],
) -> Result<MonStmt, CheckFault>
    ensures { Gives plain_stmt result (one_value (plain_scope scope.now) place I32 (map read.plain_arg arguments.now) (tree.PutChar None)) }
{
    let byte = only_value(alloc, scope, place, MonType::I32, arguments)?;
    Ok(MonStmt::new(alloc, MonStmtKind::PutChar(None, byte))?)
}

/// `exit(e);`
fn exit(
    alloc: Global,
    scope: &Scope,
    place: Place,
    arguments: &[ParsedArg],
) -> Result<MonStmt, CheckFault>
    ensures { Gives plain_stmt result (one_value (plain_scope scope.now) place I32 (map read.plain_arg arguments.now) tree.Exit) }
{
    let status = only_value(alloc, scope, place, MonType::I32, arguments)?;
    Ok(MonStmt::new(alloc, MonStmtKind::Exit(status))?)
}

/// `__e_acsl_print_i64(e);`
fn print_signed(
    alloc: Global,
    scope: &Scope,
    place: Place,
    arguments: &[ParsedArg],
) -> Result<MonStmt, CheckFault>
    ensures { Gives plain_stmt result (one_value (plain_scope scope.now) place I64 (map read.plain_arg arguments.now) tree.PrintSigned) }
{
    let value = only_value(alloc, scope, place, MonType::I64, arguments)?;
    Ok(MonStmt::new(alloc, MonStmtKind::PrintSigned(value))?)
}

/// `__e_acsl_print_u64(e);`
fn print_unsigned(
    alloc: Global,
    scope: &Scope,
    place: Place,
    arguments: &[ParsedArg],
) -> Result<MonStmt, CheckFault>
    ensures { Gives plain_stmt result (one_value (plain_scope scope.now) place U64 (map read.plain_arg arguments.now) tree.PrintUnsigned) }
{
    let value = only_value(alloc, scope, place, MonType::U64, arguments)?;
    Ok(MonStmt::new(alloc, MonStmtKind::PrintUnsigned(value))?)
}

/// `__e_acsl_print_str(e);`
fn print_string(
    alloc: Global,
    scope: &Scope,
    place: Place,
    arguments: &[ParsedArg],
) -> Result<MonStmt, CheckFault>
    ensures { Gives plain_stmt result (one_value (plain_scope scope.now) place Ptr (map read.plain_arg arguments.now) tree.PrintString) }
{
    let value = only_value(alloc, scope, place, MonType::Ptr, arguments)?;
    Ok(MonStmt::new(alloc, MonStmtKind::PrintString(value))?)
}

/// `__e_acsl_print_text("..");`
fn print_text(
    alloc: Global,
    scope: &Scope,
    place: Place,
    arguments: &[ParsedArg],
) -> Result<MonStmt, CheckFault>
    ensures { Gives plain_stmt result (next (plain_scope scope.now) place (string (plain_scope scope.now)) (map read.plain_arg arguments.now)
        (λ w more. no_more (plain_scope scope.now) place more (tree.PrintText w.0))) }
{
    let text = only_string(alloc, scope, place, arguments)?;
    let text = Name::new(Vec::from_slice(alloc, text.bytes())?);
    Ok(MonStmt::new(alloc, MonStmtKind::PrintText(text))?)
}

/// A call of the runtime, whose value isn't taken.
fn runtime_call(
    alloc: Global,
    scope: &Scope,
    callee: NameUse,
    place: Place,
    arguments: &[ParsedArg],
    runtime: Runtime,
) -> Result<MonStmt, CheckFault>
    ensures { Gives plain_stmt result (runtime_call (plain_scope scope.now) (read.plain_name callee) place (map read.plain_arg arguments.now) runtime) }
{
    match runtime {
        Runtime::Step => step(alloc, scope, place, arguments),
        Runtime::Assert => assert_call(alloc, scope, place, arguments),
        Runtime::PutChar => put_char(alloc, scope, place, arguments),
        Runtime::GetChar => get_char(alloc, scope, place, arguments),
        Runtime::Exit => exit(alloc, scope, place, arguments),
        Runtime::PrintText => print_text(alloc, scope, place, arguments),
        Runtime::PrintSigned => print_signed(alloc, scope, place, arguments),
        Runtime::PrintUnsigned => print_unsigned(alloc, scope, place, arguments),
        Runtime::PrintString => print_string(alloc, scope, place, arguments),
        Runtime::StoreBlock => {
            simple_call(alloc, scope, place, arguments, MemoryCall::StoreBlock)
        }
        Runtime::DeleteBlock => {
            simple_call(alloc, scope, place, arguments, MemoryCall::DeleteBlock)
        }
        Runtime::Copy => copy_call(alloc, scope, place, arguments),
        Runtime::Number => number_call(alloc, scope, place, arguments),
        Runtime::Valid => range_call(alloc, scope, place, arguments, RangeQuestion::Valid),
        Runtime::ValidRead => {
            range_call(alloc, scope, place, arguments, RangeQuestion::ValidRead)
        }
        Runtime::Initialized => {
            range_call(alloc, scope, place, arguments, RangeQuestion::Initialized)
        }
        Runtime::Pointer => simple_call(alloc, scope, place, arguments, MemoryCall::Pointer),
        Runtime::Inside => simple_call(alloc, scope, place, arguments, MemoryCall::Inside),
        Runtime::BaseAddr => simple_call(alloc, scope, place, arguments, MemoryCall::BaseAddr),
        Runtime::BlockLength => {
            simple_call(alloc, scope, place, arguments, MemoryCall::BlockLength)
        }
        Runtime::Offset => simple_call(alloc, scope, place, arguments, MemoryCall::Offset),
        Runtime::Separated => simple_call(alloc, scope, place, arguments, MemoryCall::Separated),
        Runtime::Malloc => simple_call(alloc, scope, place, arguments, MemoryCall::Malloc),
        Runtime::Calloc => simple_call(alloc, scope, place, arguments, MemoryCall::Calloc),
        Runtime::Free => simple_call(alloc, scope, place, arguments, MemoryCall::Free),
        Runtime::Kept => Err(CheckFault::BadName(callee.place)),
    }
}

/// A call of the function with this number, by the arguments that it takes.
fn call_of_number(
    alloc: Global,
    scope: &Scope,
    place: Place,
    number: u32,
    kinds: &[MonType],
    arguments: &[ParsedArg],
) -> Result<MonStmt, CheckFault>
    ensures { Gives plain_stmt result (call_of_number (plain_scope scope.now) place number kinds.now (map read.plain_arg arguments.now)) }
{
    let values = values_of(alloc, scope, place, kinds, arguments)?;
    let call = MonStmtKind::Call(None, number, values);
    Ok(MonStmt::new(alloc, call)?)
}

/// A call of a function of the program, whose value isn't taken. `main` isn't called.
fn named_call(
    alloc: Global,
    scope: &Scope,
    callee: NameUse,
    place: Place,
    arguments: &[ParsedArg],
) -> Result<MonStmt, CheckFault>
    ensures { Gives plain_stmt result (named_call (plain_scope scope.now) (read.plain_name callee) place (map read.plain_arg arguments.now)) }
{
    let (number, header) = function_called(scope, callee)?;
    if is_main(scope.names, callee.number) {
        return Err(wrong_number(alloc, scope, place, arguments));
    }
    call_of_number(alloc, scope, place, number, &header.parameters, arguments)
}

/// A call whose value isn't taken.
pub fn checked_call(alloc: Global, scope: &Scope, call: &ParsedCall) -> Result<MonStmt, CheckFault>
    ensures { Gives plain_stmt result (checked_call (plain_scope scope.now) (read.plain_call call.now)) }
{
    match word_at(scope.words, call.callee.number) {
        Word::Runtime(runtime) => {
            runtime_call(
                alloc,
                scope,
                call.callee,
                call.place,
                &call.arguments,
                runtime,
            )
        }
        _ => named_call(alloc, scope, call.callee, call.place, &call.arguments),
    }
}
