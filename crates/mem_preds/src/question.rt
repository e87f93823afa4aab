//! The statement that asks.

ghost use Rattle.std.specs.Prelude.{◌≡◌, IfOk};
ghost use Rattle.std.specs.Prelude.{[], ◌∷◌, Some};
ghost use Rattle.mon_syntax.specs.Trees.{Act, plain_expr, plain_stmt};
ghost use Rattle.mem_preds.specs.Questions.{asked, call_of, size_of};

use mon_syntax::{AccessSize, MemoryCall, MonExpr, MonStmt, MonStmtKind};
use std::alloc::{AllocError, Global};

/// What is asked about bytes at an offset from a pointer.
#[derive(Clone, Copy, PartialEq, Eq, Debug)]
pub enum Question {
    /// Whether so many bytes can be written there, aligned.
    Valid,
    /// Whether they can be read.
    ValidRead,
    /// Whether they can be read and all are written.
    Initialized,
    /// Whether as many bytes as the alignment says hold a number.
    Number,
    /// Whether eight bytes hold a pointer.
    Pointer,
    /// Whether the place is inside a live block, or one past its end.
    Inside,
}

/// The statement that puts into a register whether the answer is yes. The base is a pointer, the offset and the length are
/// of type `i128`, and the alignment is 1, 2, 4, 8 or 16. `Number`, `Pointer` and `Inside` pass over the length, and the
/// last two over the alignment.
pub fn ask(
    alloc: Global,
    question: Question,
    base: MonExpr,
    offset: MonExpr,
    length: MonExpr,
    align: u32,
    into: u32,
) -> Result<MonStmt, AllocError>
    ensures { IfOk result (λ s. plain_stmt s ≡ asked question (size_of align) (plain_expr base) (plain_expr offset) (plain_expr length) into) }
{
    ask_sized(alloc, question, base, offset, length, size_of(align), into)
}

/// The same, with the size of an access in place of an alignment.
pub fn ask_sized(
    alloc: Global,
    question: Question,
    base: MonExpr,
    offset: MonExpr,
    length: MonExpr,
    size: AccessSize,
    into: u32,
) -> Result<MonStmt, AllocError>
    ensures { IfOk result (λ s. plain_stmt s ≡ asked question size (plain_expr base) (plain_expr offset) (plain_expr length) into) }
{
    let call = call_of(question, size);
    match question {
        Question::Valid | Question::ValidRead | Question::Initialized => {
            of_range(alloc, call, base, offset, length, into)
        }
        Question::Number | Question::Pointer | Question::Inside => {
            of_place(alloc, call, base, offset, into)
        }
    }
}

fn of_range(
    alloc: Global,
    call: MemoryCall,
    base: MonExpr,
    offset: MonExpr,
    length: MonExpr,
    into: u32,
) -> Result<MonStmt, AllocError>
    ensures { IfOk result (λ s. plain_stmt s ≡ Act (Some into) call (plain_expr base ∷ plain_expr offset ∷ plain_expr length ∷ [])) }
{
    let mut operands = Vec::new(alloc);
    operands.push(base)?;
    operands.push(offset)?;
    operands.push(length)?;
    MonStmt::new(alloc, MonStmtKind::Act(Some(into), call, operands))
}

fn of_place(
    alloc: Global,
    call: MemoryCall,
    base: MonExpr,
    offset: MonExpr,
    into: u32,
) -> Result<MonStmt, AllocError>
    ensures { IfOk result (λ s. plain_stmt s ≡ Act (Some into) call (plain_expr base ∷ plain_expr offset ∷ [])) }
{
    let mut operands = Vec::new(alloc);
    operands.push(base)?;
    operands.push(offset)?;
    MonStmt::new(alloc, MonStmtKind::Act(Some(into), call, operands))
}

// The call of the runtime that answers.
fn call_of(question: Question, size: AccessSize) -> MemoryCall
    ensures { result ≡ call_of question size }
{
    match question {
        Question::Valid => MemoryCall::Valid(size),
        Question::ValidRead => MemoryCall::ValidRead(size),
        Question::Initialized => MemoryCall::Initialized(size),
        Question::Number => MemoryCall::Number(size),
        Question::Pointer => MemoryCall::Pointer,
        Question::Inside => MemoryCall::Inside,
    }
}

// The number of bytes that an alignment is.
fn size_of(align: u32) -> AccessSize
    ensures { result ≡ size_of align }
{
    match align {
        1 => AccessSize::One,
        2 => AccessSize::Two,
        4 => AccessSize::Four,
        8 => AccessSize::Eight,
        _ => AccessSize::Sixteen,
    }
}
