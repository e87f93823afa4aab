//! The tree of a program in monitored C.

ghost use Rattle.std.specs.Prelude.{◌≡◌, IfOk};
ghost use Rattle.mon_syntax.specs.Trees.{plain_expr, plain_expr_kind, plain_stmt, plain_stmt_kind};

use c_syntax::{Kind, Name};
use std::alloc::{AllocError, Global};

/// A type of registers: a whole-number type by its width in bits and its sign, or a pointer.
#[derive(Clone, Copy, PartialEq, Eq, Debug)]
pub enum MonType {
    I8,
    U8,
    I16,
    U16,
    I32,
    U32,
    I64,
    U64,
    I128,
    Ptr,
}

/// An operator of two operands.
#[derive(Clone, Copy, PartialEq, Eq, Debug)]
pub enum MonOp {
    Add,
    Sub,
    Mul,
    Div,
    Rem,
    Shl,
    Shr,
    And,
    Or,
    Xor,
    Eq,
    Ne,
    Lt,
    Le,
    Gt,
    Ge,
}

/// How many bytes a question asks about, and to what they are aligned.
#[derive(Clone, Copy, PartialEq, Eq, Debug)]
pub enum AccessSize {
    One,
    Two,
    Four,
    Eight,
    Sixteen,
}

/// How many bytes a copy takes, and to what they are aligned.
#[derive(Clone, Copy, PartialEq, Eq, Debug)]
pub enum CopySize {
    One,
    Two,
    Four,
    Eight,
}

/// A call of the runtime that works on the memory.
#[derive(Clone, Copy, PartialEq, Eq, Debug)]
pub enum MemoryCall {
    /// `__e_acsl_store_block(n)`: the birth of a stack block of so many bytes. It gives the pointer to its start.
    StoreBlock,
    /// `__e_acsl_delete_block(p)`: the death of the youngest live stack block, whose start this is.
    DeleteBlock,
    /// `__e_acsl_copy(p, q, A)`: so many bytes are copied from the second pointer to the first, with their marks.
    Copy(CopySize),
    /// `__e_acsl_number(p, o, A)`: whether so many bytes at an offset from a pointer hold a number.
    Number(AccessSize),
    /// `__e_acsl_valid(p, o, n, A)`: whether n bytes at an offset from a pointer can be written, at an alignment. No bytes always can.
    Valid(AccessSize),
    /// `__e_acsl_valid_read(p, o, n, A)`: whether they can be read.
    ValidRead(AccessSize),
    /// `__e_acsl_initialized(p, o, n, A)`: whether they can be read and all are written.
    Initialized(AccessSize),
    /// `__e_acsl_pointer(p, o)`: whether eight bytes at an offset from a pointer hold a pointer.
    Pointer,
    /// `__e_acsl_inside(p, o)`: whether an offset from a pointer lies in its block, which lives, or one past its end.
    Inside,
    /// `__e_acsl_base_addr(p, o)`: the pointer to the start of the block, or null if the offset isn't inside.
    BaseAddr,
    /// `__e_acsl_block_length(p, o)`: the bytes of the block, or 0.
    BlockLength,
    /// `__e_acsl_offset(p, o)`: the offset in the block, or 0.
    Offset,
    /// `__e_acsl_separated(p, o, n, q, u, m)`: whether n bytes at an offset from a pointer and m bytes at one from another share none.
    Separated,
    /// `__e_acsl_malloc(n)`: the birth of a heap block of so many bytes. It gives the pointer to its start, or null for no bytes.
    Malloc,
    /// `__e_acsl_calloc(n, m)`: the birth of a heap block of n times m bytes, all of them 0.
    Calloc,
    /// `__e_acsl_free(p)`: the death of the heap block whose start this is; null is let be.
    Free,
}

/// An expression. It has no side effect.
#[derive(Drop)]
#[cycle(expression)]
pub struct MonExpr {
    pub kind: Box<MonExprKind>,
}

#[derive(Drop)]
#[cycle(expression)]
pub enum MonExprKind {
    /// A register, by its number in its function: the parameters come first.
    Register(u32),
    /// A global or a literal, by its number in the program: the pointer to its start.
    Global(u32),
    /// A value of a type, `I32(-1)`; `PTR(0)` is the null pointer.
    Constant(MonType, i128),
    /// An operator on two operands of the type; `ptr + i64` is one of `ptr`.
    Binary(MonOp, MonType, MonExpr, MonExpr),
    /// `(-e)`, of an operand of the type.
    Minus(MonType, MonExpr),
    /// `(~e)`, of an operand of the type.
    Flip(MonType, MonExpr),
    /// `((t)e)`, the value of the type that is congruent to the operand's.
    Cast(MonType, MonExpr),
    /// `(*(t *)e)`, the value of the type that is read at a pointer.
    Load(MonType, MonExpr),
}

impl MonExpr {
    pub fn new(alloc: Global, kind: MonExprKind) -> Result<MonExpr, AllocError>
        ensures { IfOk result (λ e. plain_expr e ≡ plain_expr_kind kind) }
    {
        let kind = Box::new(alloc, kind)?;
        Ok(MonExpr { kind })
    }
}

/// A statement.
#[derive(Drop)]
#[cycle(statement)]
pub struct MonStmt {
    pub kind: Box<MonStmtKind>,
}

#[derive(Drop)]
#[cycle(statement)]
pub enum MonStmtKind {
    /// `R = e;`
    Set(u32, MonExpr),
    /// `*(t *)R = e;` with its mark: `__e_acsl_initialize(R, size);`, and for a pointer `__e_acsl_initialize_ptr(R);`.
    Store(u32, MonType, MonExpr),
    /// `__e_acsl_step();` where it isn't the step of a loop.
    Step,
    /// `__e_acsl_assert(d, v, A, L, "kind");`: whether the annotation is defined, whether it is true, its number and its
    /// line.
    Assert(MonExpr, MonExpr, u32, u32, Kind),
    /// `putchar(e);`, or `R = putchar(e);`
    PutChar(Option<u32>, MonExpr),
    /// `getchar();`, or `R = getchar();`
    GetChar(Option<u32>),
    /// `exit(e);`
    Exit(MonExpr),
    /// `__e_acsl_print_text("..");`
    PrintText(Name),
    /// `__e_acsl_print_i64(e);`
    PrintSigned(MonExpr),
    /// `__e_acsl_print_u64(e);`
    PrintUnsigned(MonExpr),
    /// `__e_acsl_print_str(e);`
    PrintString(MonExpr),
    /// `f(..);`, or `R = f(..);`: a call of the runtime on the memory.
    Act(Option<u32>, MemoryCall, Vec<MonExpr>),
    /// `f(..);`, or `R = f(..);`: a call of the function with this number in the program.
    Call(Option<u32>, u32, Vec<MonExpr>),
    If(MonExpr, Vec<MonStmt>, Vec<MonStmt>),
    /// `while (1) { .. __e_acsl_step(); .. }`: what stands before the loop's step, and what after it.
    Loop(Vec<MonStmt>, Vec<MonStmt>),
    /// `{ .. } LABEL: ;`
    Labelled(Vec<MonStmt>, Name),
    /// `goto LABEL;`: to the end of the body of that label, in which it stands.
    Goto(Name),
    Return(Option<MonExpr>),
}

impl MonStmt {
    pub fn new(alloc: Global, kind: MonStmtKind) -> Result<MonStmt, AllocError>
        ensures { IfOk result (λ s. plain_stmt s ≡ plain_stmt_kind kind) }
    {
        let kind = Box::new(alloc, kind)?;
        Ok(MonStmt { kind })
    }
}

/// A register: its type and its name.
#[derive(Drop)]
pub struct Register {
    pub kind: MonType,
    pub name: Name,
}

/// A function. Its registers are numbered from 0, the parameters first.
#[derive(Drop)]
pub struct MonFunc {
    /// None for `void`.
    pub result: Option<MonType>,
    pub name: Name,
    pub parameters: Vec<Register>,
    pub registers: Vec<Register>,
    pub body: Vec<MonStmt>,
}

/// The bytes with which a global begins.
#[derive(Drop)]
pub enum GlobalContent {
    /// `static char NAME[n];`: so many zeros.
    Zeros(u32),
    /// `static const char NAME[n] = "..";`: these bytes and a 0. It can't be written.
    Literal(Name),
}

/// A global or a literal.
#[derive(Drop)]
pub struct MonGlobal {
    pub name: Name,
    pub content: GlobalContent,
}

#[derive(Drop)]
pub struct MonProgram {
    pub globals: Vec<MonGlobal>,
    pub functions: Vec<MonFunc>,
}
