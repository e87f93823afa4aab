//! Code of two pointers that are compared, or of which one is subtracted from the other.

ghost use Rattle.std.specs.Prelude.{◌≡◌, ◌<◌, ◌++◌, ◌∷◌, [], false, IfOk, OnOk, option_map};
ghost use Rattle.mon_syntax.specs.declared.tree.MonType.TheVariants.{I32, I64, Ptr};
ghost use Rattle.mon_syntax.specs.Registers.{next_register};
ghost use Rattle.mon_syntax.specs.Trees.{plain_expr, plain_stmt, plain_stmts};
ghost use Rattle.annot_simulation.specs.Pointers.{addresses_code, comparable, difference_code, equality_asked, offsets_asked};
ghost use Rattle.annot_simulation.specs.Pointers.{places_differ, sure_pointer};
ghost use Rattle.annot_pieces.specs.Plain.{both_asked_in, code_of, comparable_value, elements_between, equality_by, equality_in, equality_value};
ghost use Rattle.annot_pieces.specs.Plain.{not_null, offsets_in, one_block, order_by, parts_of, pointer_of, with_parts};

use crate::piece::{Code, in_sequence, only, then_one, two_fresh};
use crate::pointer::{PointerCode, answered_in, asked_there, no_offset, null, told_there};
use crate::value::relation_operator;
use c_effects::copy::copy_of;
use c_effects::operator::{constant, in_type, operation, register};
use c_effects::part::{alone, then, then_all};
use c_syntax::Relation;
use c_syntax::logic::BlockFact;
use mem_preds::{Bytes, Question, part};
use mon_syntax::{MonExpr, MonOp, MonStmt, MonStmtKind, MonType, Registers};
use std::alloc::{AllocError, Global};

// ---- registers

// Three further registers of type `i32`: the first one's number.
fn three_fresh(names: &mut Registers<'_>) -> Result<u32, AllocError>
    ensures number { IfOk result (λ r. r ≡ next_register names.old.table) }
    ensures few { IfOk result (λ r. r < 4294967294) }
    ensures kinds { OnOk result (names.new.table.kinds ≡ names.old.table.kinds ++ I32 ∷ I32 ∷ I32 ∷ []) }
    ensures bound { OnOk result (names.new.table.bound ≡ names.old.table.bound) }
    ensures program { OnOk result (names.new.program ≡ names.old.program) }
{
    let first = two_fresh(MonType::I32, names)?;
    let _ = names.fresh(MonType::I32)?;
    Ok(first)
}

// Six further registers, for two truths, two starts of blocks and two offsets: the first one's number.
fn six_fresh(names: &mut Registers<'_>) -> Result<u32, AllocError>
    ensures number { IfOk result (λ r. r ≡ next_register names.old.table) }
    ensures few { IfOk result (λ r. r < 4294967291) }
    ensures kinds { OnOk result (names.new.table.kinds ≡ names.old.table.kinds ++ I32 ∷ I32 ∷ Ptr ∷ Ptr ∷ I64 ∷ I64 ∷ []) }
    ensures bound { OnOk result (names.new.table.bound ≡ names.old.table.bound) }
    ensures program { OnOk result (names.new.program ≡ names.old.program) }
{
    let first = names.fresh(MonType::I32)?;
    let _ = names.fresh(MonType::I32)?;
    let _ = names.fresh(MonType::Ptr)?;
    let _ = names.fresh(MonType::Ptr)?;
    let _ = names.fresh(MonType::I64)?;
    let _ = names.fresh(MonType::I64)?;
    Ok(first)
}

// ---- places

// One byte at a place.
fn one_byte(alloc: Global, base: &MonExpr, offset: &MonExpr) -> Result<Bytes, AllocError>
    ensures { IfOk result (λ b. parts_of b ≡ with_parts (plain_expr base.now) (plain_expr offset.now)) }
{
    let base = copy_of(alloc, base)?;
    let offset = copy_of(alloc, offset)?;
    let length = constant(alloc, MonType::I128, 1)?;
    Ok(Bytes {
        base,
        offset,
        length,
    })
}

// Whether two places differ.
fn places_differ(
    alloc: Global,
    first: (&MonExpr, &MonExpr),
    second: (&MonExpr, &MonExpr),
    into: u32,
) -> Result<MonStmt, AllocError>
    ensures { IfOk result (λ s. plain_stmt s ≡ places_differ (plain_expr first.entry.0.now) (plain_expr first.entry.1.now)
        (plain_expr second.entry.0.now) (plain_expr second.entry.1.now) into) }
{
    let first = one_byte(alloc, first.0, first.1)?;
    let second = one_byte(alloc, second.0, second.1)?;
    part(alloc, first, second, into)
}

// Whether a place isn't the null pointer.
fn not_null(
    alloc: Global,
    base: &MonExpr,
    offset: &MonExpr,
    into: u32,
) -> Result<MonStmt, AllocError>
    ensures { IfOk result (λ s. plain_stmt s ≡ not_null (plain_expr base.now) (plain_expr offset.now) into) }
{
    let nowhere = null(alloc)?;
    let start = no_offset(alloc)?;
    places_differ(alloc, (base, offset), (&nowhere, &start), into)
}

// Whether the first of two answers is 1, or the second one 0.
#[tactic(auto, using(crate::proofs::Rust::next_is))]
fn comparable_value(alloc: Global, number: u32) -> Result<MonExpr, AllocError>
    requires { number < 4294967295 }
    ensures { IfOk result (λ e. plain_expr e ≡ comparable_value number) }
{
    let inside = register(alloc, number)?;
    let differs = register(alloc, number + 1)?;
    let zero = constant(alloc, MonType::I32, 0)?;
    let is_null = operation(alloc, MonOp::Eq, MonType::I32, differs, zero)?;
    operation(alloc, MonOp::Or, MonType::I32, inside, is_null)
}

// Whether a pointer that isn't known to be null may be compared, in a register; the next one is for a question.
#[tactic(auto, using(crate::proofs::Rust::next_is))]
fn asked_comparable(
    alloc: Global,
    base: &MonExpr,
    offset: &MonExpr,
    number: u32,
) -> Result<Vec<MonStmt>, AllocError>
    requires { number < 4294967295 }
    ensures { IfOk result (λ v. plain_stmts v.items ≡ comparable false (sure_pointer (plain_expr base.now) (plain_expr offset.now) []) number) }
{
    let question = asked_there(alloc, Question::Inside, MonType::Ptr, base, offset, number)?;
    let mut stmts = only(alloc, question)?;
    let differ = not_null(alloc, base, offset, number + 1)?;
    then_one(alloc, &mut stmts, differ)?;
    let value = comparable_value(alloc, number)?;
    then(alloc, &mut stmts, MonStmtKind::Set(number, value))?;
    Ok(stmts)
}

// Whether a pointer may be compared, in a register; the next one is for a question.
fn comparable(
    alloc: Global,
    is_null: bool,
    base: &MonExpr,
    offset: &MonExpr,
    number: u32,
) -> Result<Vec<MonStmt>, AllocError>
    requires { number < 4294967295 }
    ensures { IfOk result (λ v. plain_stmts v.items ≡ comparable is_null (sure_pointer (plain_expr base.now) (plain_expr offset.now) []) number) }
{
    if is_null {
        let always = constant(alloc, MonType::I32, 1)?;
        alone(alloc, MonStmtKind::Set(number, always))
    } else {
        asked_comparable(alloc, base, offset, number)
    }
}

// ---- two pointers

// The statements of two pointers, and what is asked about both.
fn asked_of_both(
    alloc: Global,
    number: u32,
    c: (Vec<MonStmt>, Option<MonExpr>),
    d: (Vec<MonStmt>, Option<MonExpr>),
    on: Vec<MonStmt>,
) -> Result<Vec<MonStmt>, AllocError>
    ensures { IfOk result (λ v. plain_stmts v.items ≡ both_asked_in number (plain_stmts c.0.items) (option_map plain_expr c.1)
        (plain_stmts d.0.items) (option_map plain_expr d.1) (plain_stmts on.items)) }
{
    let (stmts, flag) = in_sequence(alloc, c, d)?;
    answered_in(alloc, number, stmts, flag, on)
}

// Whether both may be compared, and whether they differ, in two registers of three from one on.
#[tactic(auto, using(crate::proofs::Rust::next_is))]
fn equality_asked(
    alloc: Global,
    number: u32,
    nulls: (bool, bool),
    first: (&MonExpr, &MonExpr),
    second: (&MonExpr, &MonExpr),
) -> Result<Vec<MonStmt>, AllocError>
    requires { number < 4294967294 }
    ensures { IfOk result (λ v. plain_stmts v.items ≡ equality_asked nulls.0 nulls.1
        (sure_pointer (plain_expr first.entry.0.now) (plain_expr first.entry.1.now) [])
        (sure_pointer (plain_expr second.entry.0.now) (plain_expr second.entry.1.now) []) number) }
{
    let x = register(alloc, number)?;
    let y = register(alloc, number + 1)?;
    let both = operation(alloc, MonOp::And, MonType::I32, x, y)?;
    let mut last = alone(alloc, MonStmtKind::Set(number, both))?;
    let differ = places_differ(alloc, first, second, number + 1)?;
    then_one(alloc, &mut last, differ)?;
    let mut rest = comparable(alloc, nulls.1, second.0, second.1, number + 1)?;
    then_all(&mut rest, last)?;
    let mut stmts = comparable(alloc, nulls.0, first.0, first.1, number)?;
    then_all(&mut stmts, rest)?;
    Ok(stmts)
}

// Whether they are the same, or whether they differ.
#[tactic(auto, using(crate::proofs::Rust::next_is))]
fn equality_value(alloc: Global, number: u32, same: bool) -> Result<MonExpr, AllocError>
    requires { number < 4294967295 }
    ensures { IfOk result (λ e. plain_expr e ≡ equality_value same number) }
{
    let differ = register(alloc, number + 1)?;
    if same {
        let zero = constant(alloc, MonType::I32, 0)?;
        operation(alloc, MonOp::Eq, MonType::I32, differ, zero)
    } else {
        Ok(differ)
    }
}

// The statements that ask whether two pointers may be compared and whether they differ.
fn equality_in(
    alloc: Global,
    number: u32,
    nulls: (bool, bool),
    c: PointerCode,
    d: PointerCode,
) -> Result<Vec<MonStmt>, AllocError>
    requires { number < 4294967294 }
    ensures { IfOk result (λ v. plain_stmts v.items ≡ equality_in number nulls.0 nulls.1 (pointer_of c []) (pointer_of d [])) }
{
    let first = (&c.base, &c.offset);
    let second = (&d.base, &d.offset);
    let on = equality_asked(alloc, number, nulls, first, second)?;
    asked_of_both(alloc, number, (c.stmts, c.flag), (d.stmts, d.flag), on)
}

// `==` where `same`, and else `!=`.
fn equality_code(
    alloc: Global,
    same: bool,
    nulls: (bool, bool),
    c: PointerCode,
    d: PointerCode,
    names: &mut Registers<'_>,
) -> Result<Code, AllocError>
    ensures code { IfOk result (λ r. code_of r names.new.table.kinds
        ≡ equality_by same nulls.0 nulls.1 (pointer_of c []) (pointer_of d names.old.table.kinds)) }
    ensures bound { OnOk result (names.new.table.bound ≡ names.old.table.bound) }
    ensures program { OnOk result (names.new.program ≡ names.old.program) }
{
    let number = three_fresh(names)?;
    let stmts = equality_in(alloc, number, nulls, c, d)?;
    let flag = register(alloc, number)?;
    let value = equality_value(alloc, number, same)?;
    Ok(Code {
        stmts,
        flag: Some(flag),
        value,
    })
}

// ---- offsets in one block

// Whether both are inside one live block, from the answers in four registers from one on.
#[tactic(auto, using(crate::proofs::Rust::next_is, crate::proofs::Rust::next_two_is, crate::proofs::Rust::next_three_is))]
fn one_block(alloc: Global, number: u32) -> Result<MonExpr, AllocError>
    requires { number < 4294967291 }
    ensures { IfOk result (λ e. plain_expr e ≡ one_block number) }
{
    let x = register(alloc, number)?;
    let y = register(alloc, number + 1)?;
    let both = operation(alloc, MonOp::And, MonType::I32, x, y)?;
    let first = register(alloc, number + 2)?;
    let second = register(alloc, number + 3)?;
    let same = operation(alloc, MonOp::Eq, MonType::Ptr, first, second)?;
    operation(alloc, MonOp::And, MonType::I32, both, same)
}

// Whether both are inside one live block, and both offsets in it, in registers from one on.
#[tactic(auto, using(crate::proofs::Rust::next_rules))]
fn offsets_asked(
    alloc: Global,
    number: u32,
    first: (&MonExpr, &MonExpr),
    second: (&MonExpr, &MonExpr),
) -> Result<Vec<MonStmt>, AllocError>
    requires { number < 4294967291 }
    ensures { IfOk result (λ v. plain_stmts v.items ≡ offsets_asked
        (sure_pointer (plain_expr first.entry.0.now) (plain_expr first.entry.1.now) [])
        (sure_pointer (plain_expr second.entry.0.now) (plain_expr second.entry.1.now) []) number) }
{
    let (p, o) = first;
    let (q, u) = second;
    let ask = asked_there(alloc, Question::Inside, MonType::Ptr, p, o, number)?;
    let mut stmts = only(alloc, ask)?;
    let ask = asked_there(alloc, Question::Inside, MonType::Ptr, q, u, number + 1)?;
    then_one(alloc, &mut stmts, ask)?;
    let told = told_there(alloc, BlockFact::BaseAddr, p, o, number + 2)?;
    then_one(alloc, &mut stmts, told)?;
    let told = told_there(alloc, BlockFact::BaseAddr, q, u, number + 3)?;
    then_one(alloc, &mut stmts, told)?;
    let both = one_block(alloc, number)?;
    then(alloc, &mut stmts, MonStmtKind::Set(number, both))?;
    let told = told_there(alloc, BlockFact::Offset, p, o, number + 4)?;
    then_one(alloc, &mut stmts, told)?;
    let told = told_there(alloc, BlockFact::Offset, q, u, number + 5)?;
    then_one(alloc, &mut stmts, told)?;
    Ok(stmts)
}

// The statements that ask for two offsets.
fn offsets_in(
    alloc: Global,
    number: u32,
    c: PointerCode,
    d: PointerCode,
) -> Result<Vec<MonStmt>, AllocError>
    requires { number < 4294967291 }
    ensures { IfOk result (λ v. plain_stmts v.items ≡ offsets_in number (pointer_of c []) (pointer_of d [])) }
{
    let on = offsets_asked(alloc, number, (&c.base, &c.offset), (&d.base, &d.offset))?;
    asked_of_both(alloc, number, (c.stmts, c.flag), (d.stmts, d.flag), on)
}

// A relation of the offsets of two pointers.
#[tactic(auto, using(crate::proofs::Rust::next_four_is, crate::proofs::Rust::next_five_is))]
fn order_code(
    alloc: Global,
    relation: Relation,
    c: PointerCode,
    d: PointerCode,
    names: &mut Registers<'_>,
) -> Result<Code, AllocError>
    ensures code { IfOk result (λ r. code_of r names.new.table.kinds
        ≡ order_by relation (pointer_of c []) (pointer_of d names.old.table.kinds)) }
    ensures bound { OnOk result (names.new.table.bound ≡ names.old.table.bound) }
    ensures program { OnOk result (names.new.program ≡ names.old.program) }
{
    let number = six_fresh(names)?;
    let stmts = offsets_in(alloc, number, c, d)?;
    let flag = register(alloc, number)?;
    let x = register(alloc, number + 4)?;
    let y = register(alloc, number + 5)?;
    let value = operation(alloc, relation_operator(relation), MonType::I64, x, y)?;
    Ok(Code {
        stmts,
        flag: Some(flag),
        value,
    })
}

/// A relation of two pointers, of which each may be known to be null and the second one's registers are the last ones.
pub fn addresses_code(
    alloc: Global,
    relation: Relation,
    nulls: (bool, bool),
    c: PointerCode,
    d: PointerCode,
    names: &mut Registers<'_>,
) -> Result<Code, AllocError>
    ensures code { IfOk result (λ r. code_of r names.new.table.kinds
        ≡ addresses_code relation nulls.0 nulls.1 (pointer_of c []) (pointer_of d names.old.table.kinds)) }
    ensures bound { OnOk result (names.new.table.bound ≡ names.old.table.bound) }
    ensures program { OnOk result (names.new.program ≡ names.old.program) }
{
    match relation {
        Relation::Eq => equality_code(alloc, true, nulls, c, d, names),
        Relation::Ne => equality_code(alloc, false, nulls, c, d, names),
        Relation::Lt | Relation::Le | Relation::Gt | Relation::Ge => {
            order_code(alloc, relation, c, d, names)
        }
    }
}

// A distance in bytes, in elements of a size.
fn elements_between(
    alloc: Global,
    w: MonType,
    n: u32,
    x: MonExpr,
    y: MonExpr,
) -> Result<MonExpr, AllocError>
    ensures { IfOk result (λ e. plain_expr e ≡ elements_between w n (plain_expr x) (plain_expr y)) }
{
    let bytes = operation(alloc, MonOp::Sub, MonType::I64, x, y)?;
    let size = constant(alloc, MonType::I64, i128::from(n))?;
    let elements = operation(alloc, MonOp::Div, MonType::I64, bytes, size)?;
    in_type(alloc, MonType::I64, w, elements)
}

/// The distance of two pointers in elements of a size, in the type `w`.
#[tactic(auto, using(crate::proofs::Rust::next_four_is, crate::proofs::Rust::next_five_is))]
pub fn difference_code(
    alloc: Global,
    w: MonType,
    n: u32,
    c: PointerCode,
    d: PointerCode,
    names: &mut Registers<'_>,
) -> Result<Code, AllocError>
    ensures code { IfOk result (λ r. code_of r names.new.table.kinds
        ≡ difference_code w n (pointer_of c []) (pointer_of d names.old.table.kinds)) }
    ensures bound { OnOk result (names.new.table.bound ≡ names.old.table.bound) }
    ensures program { OnOk result (names.new.program ≡ names.old.program) }
{
    let number = six_fresh(names)?;
    let stmts = offsets_in(alloc, number, c, d)?;
    let flag = register(alloc, number)?;
    let x = register(alloc, number + 4)?;
    let y = register(alloc, number + 5)?;
    let value = elements_between(alloc, w, n, x, y)?;
    Ok(Code {
        stmts,
        flag: Some(flag),
        value,
    })
}
