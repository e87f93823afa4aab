//! Code of pointers: a base of type `ptr`, and an offset in bytes from it.

ghost use Rattle.std.specs.Prelude.{◌≡◌, ◌<◌, ◌++◌, ◌∷◌, [], IfOk, OnOk, option_map};
ghost use Rattle.c_syntax.specs.Ctypes.{plain_type};
ghost use Rattle.c_effects.specs.Expressions.{before};
ghost use Rattle.mon_syntax.specs.declared.tree.MonType.TheVariants.{I32, I128, Ptr};
ghost use Rattle.mon_syntax.specs.Registers.{next_register};
ghost use Rattle.mon_syntax.specs.Trees.{plain_expr, plain_stmt, plain_stmts};
ghost use Rattle.annot_simulation.specs.Pointers.{answered_in, asked_there, branch_pointer, elements_of, member_code, move_operator, moved_code};
ghost use Rattle.annot_simulation.specs.Pointers.{no_offset, no_pointer_code, null, null_code, number_read, pointer_known, pointer_read, pointer_there};
ghost use Rattle.annot_simulation.specs.Pointers.{start_pointer, sure_pointer, take_both, take_pointer, told_number, told_pointer, told_there};
ghost use Rattle.mem_preds.specs.Questions.{type_of_fact};
ghost use Rattle.annot_simulation.specs.Pieces.{guarded, take_none};
ghost use Rattle.annot_pieces.specs.Plain.{branch_pointer_in, code_of, fact_asked, in_three_registers, in_two_registers, pointer_asked, pointer_of};
ghost use Rattle.annot_pieces.specs.Plain.{taken_where};

use crate::piece::{Code, guarded, in_sequence, only, take_none, then_one, two_fresh};
use crate::term::access_of;
use c_effects::copy::copy_of;
use c_effects::operator::{constant, in_type, operation, register};
use c_effects::part::{alone, then, then_all};
use c_syntax::CType;
use c_syntax::logic::{BlockFact, PointerOp};
use mem_preds::{Question, ask_sized, read_at, tell};
use mon_syntax::{MonExpr, MonOp, MonStmt, MonStmtKind, MonType, Registers};
use std::alloc::{AllocError, Global};

/// The code of a pointer.
#[derive(Drop)]
pub struct PointerCode {
    /// The statements that run first.
    pub stmts: Vec<MonStmt>,
    /// 1 where the pointer exists and else 0; none where it always exists.
    pub flag: Option<MonExpr>,
    /// A pointer of type `ptr`, which may be asked for only where there is one.
    pub base: MonExpr,
    /// How many bytes farther it is, of type `i128`.
    pub offset: MonExpr,
}

// ---- pointers without a statement

/// No bytes.
pub fn no_offset(alloc: Global) -> Result<MonExpr, AllocError>
    ensures { IfOk result (λ e. plain_expr e ≡ no_offset) }
{
    constant(alloc, MonType::I128, 0)
}

/// The null pointer.
pub fn null(alloc: Global) -> Result<MonExpr, AllocError>
    ensures { IfOk result (λ e. plain_expr e ≡ null) }
{
    constant(alloc, MonType::Ptr, 0)
}

/// The start of what a base points to.
pub fn start_pointer(alloc: Global, base: MonExpr) -> Result<PointerCode, AllocError>
    ensures { IfOk result (λ c. pointer_of c [] ≡ start_pointer (plain_expr base) []) }
{
    let offset = no_offset(alloc)?;
    Ok(PointerCode {
        stmts: Vec::new(alloc),
        flag: None,
        base,
        offset,
    })
}

/// `\null`
pub fn null_pointer(alloc: Global) -> Result<PointerCode, AllocError>
    ensures { IfOk result (λ c. pointer_of c [] ≡ start_pointer null []) }
{
    let base = null(alloc)?;
    start_pointer(alloc, base)
}

/// What is no pointer.
pub fn no_pointer(alloc: Global) -> Result<PointerCode, AllocError>
    ensures { IfOk result (λ c. pointer_of c [] ≡ no_pointer_code []) }
{
    let never = constant(alloc, MonType::I32, 0)?;
    let base = null(alloc)?;
    let offset = no_offset(alloc)?;
    Ok(PointerCode {
        stmts: Vec::new(alloc),
        flag: Some(never),
        base,
        offset,
    })
}

/// A number beside a pointer, which is 0: null.
pub fn null_code(alloc: Global, x: Code) -> Result<PointerCode, AllocError>
    ensures { IfOk result (λ c. pointer_of c [] ≡ null_code (code_of x [])) }
{
    let base = null(alloc)?;
    let offset = no_offset(alloc)?;
    Ok(PointerCode {
        stmts: x.stmts,
        flag: x.flag,
        base,
        offset,
    })
}

// ---- pointers that go on

/// So many bytes farther.
pub fn member_code(alloc: Global, d: u32, c: PointerCode) -> Result<PointerCode, AllocError>
    ensures { IfOk result (λ p. pointer_of p [] ≡ member_code d (pointer_of c [])) }
{
    let bytes = constant(alloc, MonType::I128, i128::from(d))?;
    let offset = operation(alloc, MonOp::Add, MonType::I128, c.offset, bytes)?;
    Ok(PointerCode {
        stmts: c.stmts,
        flag: c.flag,
        base: c.base,
        offset,
    })
}

fn move_operator(op: PointerOp) -> MonOp
    ensures { result ≡ move_operator op }
{
    match op {
        PointerOp::Plus => MonOp::Add,
        PointerOp::Minus => MonOp::Sub,
    }
}

/// So many elements of a size, in bytes.
pub fn elements_of(alloc: Global, n: u32, e: MonExpr) -> Result<MonExpr, AllocError>
    ensures { IfOk result (λ m. plain_expr m ≡ elements_of n (plain_expr e)) }
{
    let size = constant(alloc, MonType::I128, i128::from(n))?;
    operation(alloc, MonOp::Mul, MonType::I128, size, e)
}

/// So many elements of a size farther, or back; their number is of the type `k`.
pub fn moved_code(
    alloc: Global,
    op: PointerOp,
    n: u32,
    c: PointerCode,
    k: MonType,
    x: Code,
) -> Result<PointerCode, AllocError>
    ensures { IfOk result (λ p. pointer_of p [] ≡ moved_code op n (pointer_of c []) k (code_of x [])) }
{
    let number = in_type(alloc, k, MonType::I128, x.value)?;
    let bytes = elements_of(alloc, n, number)?;
    let (stmts, flag) = in_sequence(alloc, (c.stmts, c.flag), (x.stmts, x.flag))?;
    let offset = operation(alloc, move_operator(op), MonType::I128, c.offset, bytes)?;
    Ok(PointerCode {
        stmts,
        flag,
        base: c.base,
        offset,
    })
}

// ---- pointers in registers

// Three further registers, for a flag, a pointer and an offset: the first one's number.
fn three_fresh(names: &mut Registers<'_>) -> Result<u32, AllocError>
    ensures number { IfOk result (λ r. r ≡ next_register names.old.table) }
    ensures few { IfOk result (λ r. r < 4294967294) }
    ensures kinds { OnOk result (names.new.table.kinds ≡ names.old.table.kinds ++ I32 ∷ Ptr ∷ I128 ∷ []) }
    ensures bound { OnOk result (names.new.table.bound ≡ names.old.table.bound) }
    ensures program { OnOk result (names.new.program ≡ names.old.program) }
{
    let flag = two_fresh(MonType::Ptr, names)?;
    let _ = names.fresh(MonType::I128)?;
    Ok(flag)
}

// A base and an offset in the two registers after one.
#[tactic(auto, using(crate::proofs::Rust::next_is, crate::proofs::Rust::next_two_is))]
fn take_both(
    alloc: Global,
    base: MonExpr,
    offset: MonExpr,
    number: u32,
) -> Result<Vec<MonStmt>, AllocError>
    requires { number < 4294967294 }
    ensures { IfOk result (λ v. plain_stmts v.items ≡ take_both (sure_pointer (plain_expr base) (plain_expr offset) []) number) }
{
    let mut both = alone(alloc, MonStmtKind::Set(number + 1, base))?;
    then(alloc, &mut both, MonStmtKind::Set(number + 2, offset))?;
    Ok(both)
}

// A flag in a register, and other statements where it is 1.
#[tactic(auto, using(mon_syntax::proofs::Rows::if_is))]
fn taken_where(
    alloc: Global,
    flag: Option<MonExpr>,
    both: Vec<MonStmt>,
    number: u32,
) -> Result<Vec<MonStmt>, AllocError>
    ensures { IfOk result (λ v. plain_stmts v.items ≡ taken_where (option_map plain_expr flag) (plain_stmts both.items) number) }
{
    match flag {
        None => {
            let one = constant(alloc, MonType::I32, 1)?;
            let mut taken = alone(alloc, MonStmtKind::Set(number, one))?;
            then_all(&mut taken, both)?;
            Ok(taken)
        }
        Some(flag) => {
            let mut taken = alone(alloc, MonStmtKind::Set(number, flag))?;
            let test = register(alloc, number)?;
            let on = MonStmtKind::If(test, both, Vec::new(alloc));
            then(alloc, &mut taken, on)?;
            Ok(taken)
        }
    }
}

// A flag, and a pointer where it is 1, in three registers from one on.
#[tactic(auto, using(crate::proofs::Rust::taken_is))]
fn take_pointer(alloc: Global, c: PointerCode, number: u32) -> Result<Vec<MonStmt>, AllocError>
    requires { number < 4294967294 }
    ensures { IfOk result (λ v. plain_stmts v.items
        ≡ before (plain_stmts c.stmts.items) (take_pointer (option_map plain_expr c.flag) (pointer_of c []) number)) }
{
    let PointerCode {
        stmts,
        flag,
        base,
        offset,
    } = c;
    let both = take_both(alloc, base, offset, number)?;
    let taken = taken_where(alloc, flag, both, number)?;
    let mut stmts = stmts;
    then_all(&mut stmts, taken)?;
    Ok(stmts)
}

// Statements that leave a flag, a base and an offset in three registers.
#[tactic(auto, using(crate::proofs::Rust::next_is, crate::proofs::Rust::next_two_is))]
fn in_three_registers(
    alloc: Global,
    stmts: Vec<MonStmt>,
    number: u32,
) -> Result<PointerCode, AllocError>
    requires { number < 4294967294 }
    ensures { IfOk result (λ c. pointer_of c [] ≡ in_three_registers (plain_stmts stmts.items) number) }
{
    let flag = register(alloc, number)?;
    let base = register(alloc, number + 1)?;
    let offset = register(alloc, number + 2)?;
    Ok(PointerCode {
        stmts,
        flag: Some(flag),
        base,
        offset,
    })
}

// Statements that leave a flag and the start of what a pointer points to in two registers.
#[tactic(auto, using(crate::proofs::Rust::next_is))]
fn in_two_registers(
    alloc: Global,
    stmts: Vec<MonStmt>,
    number: u32,
) -> Result<PointerCode, AllocError>
    requires { number < 4294967295 }
    ensures { IfOk result (λ c. pointer_of c [] ≡ in_two_registers (plain_stmts stmts.items) number) }
{
    let flag = register(alloc, number)?;
    let base = register(alloc, number + 1)?;
    let offset = no_offset(alloc)?;
    Ok(PointerCode {
        stmts,
        flag: Some(flag),
        base,
        offset,
    })
}

// The second part where the first one's value is 1, and the third where it is 0, in three registers from one on.
#[tactic(auto, using(mon_syntax::proofs::Rows::if_is))]
fn branch_in(
    alloc: Global,
    number: u32,
    c: Code,
    a: PointerCode,
    b: PointerCode,
) -> Result<PointerCode, AllocError>
    requires { number < 4294967294 }
    ensures { IfOk result (λ r. pointer_of r [] ≡ branch_pointer_in number (code_of c []) (pointer_of a []) (pointer_of b [])) }
{
    let on = take_pointer(alloc, a, number)?;
    let off = take_pointer(alloc, b, number)?;
    let choice = alone(alloc, MonStmtKind::If(c.value, on, off))?;
    let nothing = take_none(alloc, number)?;
    let mut stmts = c.stmts;
    guarded(alloc, c.flag, choice, nothing, &mut stmts)?;
    in_three_registers(alloc, stmts, number)
}

/// One of two pointers, of which the second one's registers are the last ones.
pub fn branch_pointer(
    alloc: Global,
    c: Code,
    a: PointerCode,
    b: PointerCode,
    names: &mut Registers<'_>,
) -> Result<PointerCode, AllocError>
    ensures code { IfOk result (λ r. pointer_of r names.new.table.kinds
        ≡ branch_pointer (code_of c []) (pointer_of a []) (pointer_of b names.old.table.kinds)) }
    ensures bound { OnOk result (names.new.table.bound ≡ names.old.table.bound) }
    ensures program { OnOk result (names.new.program ≡ names.old.program) }
{
    let number = three_fresh(names)?;
    branch_in(alloc, number, c, a, b)
}

// ---- questions about a pointer

/// A question that passes over the length.
pub fn asked_there(
    alloc: Global,
    question: Question,
    k: MonType,
    base: &MonExpr,
    offset: &MonExpr,
    into: u32,
) -> Result<MonStmt, AllocError>
    ensures { IfOk result (λ s. plain_stmt s ≡ asked_there question k (sure_pointer (plain_expr base.now) (plain_expr offset.now) []) into) }
{
    let base = copy_of(alloc, base)?;
    let offset = copy_of(alloc, offset)?;
    let length = no_offset(alloc)?;
    ask_sized(alloc, question, base, offset, length, access_of(k), into)
}

/// What is told of the block that it is inside.
pub fn told_there(
    alloc: Global,
    fact: BlockFact,
    base: &MonExpr,
    offset: &MonExpr,
    into: u32,
) -> Result<MonStmt, AllocError>
    ensures { IfOk result (λ s. plain_stmt s ≡ told_there fact (sure_pointer (plain_expr base.now) (plain_expr offset.now) []) into) }
{
    let base = copy_of(alloc, base)?;
    let offset = copy_of(alloc, offset)?;
    tell(alloc, fact, base, offset, into)
}

/// Statements after those of a pointer where there is one; elsewhere a register becomes 0.
pub fn answered_in(
    alloc: Global,
    number: u32,
    stmts: Vec<MonStmt>,
    flag: Option<MonExpr>,
    on: Vec<MonStmt>,
) -> Result<Vec<MonStmt>, AllocError>
    ensures { IfOk result (λ v. plain_stmts v.items ≡ before (plain_stmts stmts.items)
        (guarded (option_map plain_expr flag) (plain_stmts on.items) (take_none number))) }
{
    let nothing = take_none(alloc, number)?;
    let mut stmts = stmts;
    guarded(alloc, flag, on, nothing, &mut stmts)?;
    Ok(stmts)
}

/// A number of the type `k` that is read at a place, in the type `w`.
pub fn number_read(
    alloc: Global,
    w: MonType,
    k: MonType,
    c: PointerCode,
    names: &mut Registers<'_>,
) -> Result<Code, AllocError>
    ensures code { IfOk result (λ r. code_of r names.new.table.kinds ≡ number_read w k (pointer_of c names.old.table.kinds)) }
    ensures bound { OnOk result (names.new.table.bound ≡ names.old.table.bound) }
    ensures program { OnOk result (names.new.program ≡ names.old.program) }
{
    let answer = names.fresh(MonType::I32)?;
    let question = asked_there(alloc, Question::Number, k, &c.base, &c.offset, answer)?;
    let on = only(alloc, question)?;
    let stmts = answered_in(alloc, answer, c.stmts, c.flag, on)?;
    let flag = register(alloc, answer)?;
    let value = read_at(alloc, k, c.base, c.offset)?;
    let value = in_type(alloc, k, w, value)?;
    Ok(Code {
        stmts,
        flag: Some(flag),
        value,
    })
}

// A question whether there is a pointer, and its value where there is one.
#[tactic(auto, using(mon_syntax::proofs::Rows::if_is, crate::proofs::Rust::next_is))]
fn pointer_asked(
    alloc: Global,
    number: u32,
    base: MonExpr,
    offset: MonExpr,
) -> Result<Vec<MonStmt>, AllocError>
    requires { number < 4294967295 }
    ensures { IfOk result (λ v. plain_stmts v.items ≡ pointer_asked (sure_pointer (plain_expr base) (plain_expr offset) []) number) }
{
    let question = asked_there(
        alloc,
        Question::Pointer,
        MonType::Ptr,
        &base,
        &offset,
        number,
    )?;
    let mut on = only(alloc, question)?;
    let value = read_at(alloc, MonType::Ptr, base, offset)?;
    let read = alone(alloc, MonStmtKind::Set(number + 1, value))?;
    let test = register(alloc, number)?;
    then(alloc, &mut on, MonStmtKind::If(test, read, Vec::new(alloc)))?;
    Ok(on)
}

/// A pointer that is read at a place.
pub fn pointer_read(
    alloc: Global,
    c: PointerCode,
    names: &mut Registers<'_>,
) -> Result<PointerCode, AllocError>
    ensures code { IfOk result (λ p. pointer_of p names.new.table.kinds ≡ pointer_read (pointer_of c names.old.table.kinds)) }
    ensures bound { OnOk result (names.new.table.bound ≡ names.old.table.bound) }
    ensures program { OnOk result (names.new.program ≡ names.old.program) }
{
    let number = two_fresh(MonType::Ptr, names)?;
    let on = pointer_asked(alloc, number, c.base, c.offset)?;
    let stmts = answered_in(alloc, number, c.stmts, c.flag, on)?;
    in_two_registers(alloc, stmts, number)
}

/// The same, where it is known that there is one.
pub fn pointer_known(
    alloc: Global,
    c: PointerCode,
    names: &mut Registers<'_>,
) -> Result<PointerCode, AllocError>
    ensures code { IfOk result (λ p. pointer_of p names.new.table.kinds ≡ pointer_known (pointer_of c names.old.table.kinds)) }
    ensures bound { OnOk result (names.new.table.bound ≡ names.old.table.bound) }
    ensures program { OnOk result (names.new.program ≡ names.old.program) }
{
    let number = names.fresh(MonType::Ptr)?;
    let value = read_at(alloc, MonType::Ptr, c.base, c.offset)?;
    let mut stmts = c.stmts;
    then(alloc, &mut stmts, MonStmtKind::Set(number, value))?;
    let base = register(alloc, number)?;
    let offset = no_offset(alloc)?;
    Ok(PointerCode {
        stmts,
        flag: c.flag,
        base,
        offset,
    })
}

/// What a place of a type of pointers holds; an array is the pointer to its first element.
pub fn pointer_there(
    alloc: Global,
    known: bool,
    t: &Option<CType>,
    c: PointerCode,
    names: &mut Registers<'_>,
) -> Result<PointerCode, AllocError>
    ensures code { IfOk result (λ p. pointer_of p names.new.table.kinds
        ≡ pointer_there known (option_map plain_type t.now) (pointer_of c names.old.table.kinds)) }
    ensures bound { OnOk result (names.new.table.bound ≡ names.old.table.bound) }
    ensures program { OnOk result (names.new.program ≡ names.old.program) }
{
    match t {
        Some(CType::Ptr(_)) => {
            if known {
                pointer_known(alloc, c, names)
            } else {
                pointer_read(alloc, c, names)
            }
        }
        Some(CType::Array(..)) => Ok(c),
        Some(CType::Void | CType::Int(_) | CType::Struct(_) | CType::Named(_)) | None => {
            no_pointer(alloc)
        }
        Some(CType::StructTag(..) | CType::EnumTag(..)) => no_pointer(alloc),
    }
}

// ---- what is told of the block that a pointer is inside

// Whether there is one, and in the next register what is told of it.
#[tactic(auto, using(crate::proofs::Rust::next_is))]
fn fact_asked(
    alloc: Global,
    fact: BlockFact,
    number: u32,
    base: MonExpr,
    offset: MonExpr,
) -> Result<Vec<MonStmt>, AllocError>
    requires { number < 4294967295 }
    ensures { IfOk result (λ v. plain_stmts v.items ≡ fact_asked fact (sure_pointer (plain_expr base) (plain_expr offset) []) number) }
{
    let question = asked_there(
        alloc,
        Question::Inside,
        MonType::Ptr,
        &base,
        &offset,
        number,
    )?;
    let mut on = only(alloc, question)?;
    let told = tell(alloc, fact, base, offset, number + 1)?;
    then_one(alloc, &mut on, told)?;
    Ok(on)
}

// The statements that ask for a fact.
fn fact_told(
    alloc: Global,
    fact: BlockFact,
    number: u32,
    c: PointerCode,
) -> Result<Vec<MonStmt>, AllocError>
    requires { number < 4294967295 }
    ensures { IfOk result (λ v. plain_stmts v.items ≡ answered_in number (pointer_of c []) (fact_asked fact (pointer_of c []) number)) }
{
    let on = fact_asked(alloc, fact, number, c.base, c.offset)?;
    answered_in(alloc, number, c.stmts, c.flag, on)
}

fn type_of_fact(fact: BlockFact) -> MonType
    ensures { result ≡ type_of_fact fact }
{
    match fact {
        BlockFact::BaseAddr => MonType::Ptr,
        BlockFact::BlockLength | BlockFact::Offset => MonType::I64,
    }
}

/// A fact that is a number, in the type `w`.
#[tactic(auto, using(crate::proofs::Rust::next_is))]
pub fn told_number(
    alloc: Global,
    w: MonType,
    fact: BlockFact,
    c: PointerCode,
    names: &mut Registers<'_>,
) -> Result<Code, AllocError>
    ensures code { IfOk result (λ r. code_of r names.new.table.kinds ≡ told_number w fact (pointer_of c names.old.table.kinds)) }
    ensures bound { OnOk result (names.new.table.bound ≡ names.old.table.bound) }
    ensures program { OnOk result (names.new.program ≡ names.old.program) }
{
    let number = two_fresh(type_of_fact(fact), names)?;
    let stmts = fact_told(alloc, fact, number, c)?;
    let flag = register(alloc, number)?;
    let value = register(alloc, number + 1)?;
    let value = in_type(alloc, type_of_fact(fact), w, value)?;
    Ok(Code {
        stmts,
        flag: Some(flag),
        value,
    })
}

/// The start of the block.
pub fn told_pointer(
    alloc: Global,
    c: PointerCode,
    names: &mut Registers<'_>,
) -> Result<PointerCode, AllocError>
    ensures code { IfOk result (λ p. pointer_of p names.new.table.kinds ≡ told_pointer (pointer_of c names.old.table.kinds)) }
    ensures bound { OnOk result (names.new.table.bound ≡ names.old.table.bound) }
    ensures program { OnOk result (names.new.program ≡ names.old.program) }
{
    let number = two_fresh(MonType::Ptr, names)?;
    let stmts = fact_told(alloc, BlockFact::BaseAddr, number, c)?;
    in_two_registers(alloc, stmts, number)
}
