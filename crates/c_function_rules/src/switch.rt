//! What stands behind `switch` and `case` (C99 6.8.4.2).

ghost use Rattle.std.specs.Prelude.{◌≡◌, ◌||◌, ℤ, IfErr, IfOk, OnOk, false, option_map, true};
ghost use Rattle.c_syntax.specs.Expressions.{place_of, plain_expr};
ghost use Rattle.c_model.specs.Checked.{one_part};
ghost use Rattle.c_model.specs.ExpressionTyping.{decayed_of, typed};
ghost use Rattle.c_model.specs.StatementTyping.{case_number, controlling};
ghost use Rattle.c_scopes.specs.Answers.{Answers, IsRefusal};
ghost use Rattle.c_scopes.specs.Sights.{plain_sight};
ghost use Rattle.c_function_rules.specs.PassedCases.{holds};
ghost use Rattle.c_function_rules.specs.Cases.{case_value_by, is_default, new_value, only_default, typed_label, with_label, with_value};

use c_conversions::arithmetic::convert;
use c_conversions::conversion::{integer_type, promoted};
use c_expression_rules::constant::constant;
use c_expression_rules::expression::type_value;
use c_expression_rules::operator::{in_int, put};
use c_scopes::fault::{TypeFault, no_type};
use c_scopes::sight::Sight;
use c_syntax::{CInt, CType, Expr, ExprKind, Place};
use std::alloc::Global;
use std::collections::BTreeSet;

/// The values of the cases before one, and whether one of these is a `default`.
#[derive(Drop)]
pub struct Passed {
    pub values: BTreeSet<i128>,
    pub has_default: bool,
}

impl Passed {
    /// No case stands before.
    pub fn new(alloc: Global) -> Passed
        ensures values { (z : ℤ) → holds result z ≡ false }
        ensures default { result.has_default ≡ false }
    {
        Passed {
            values: BTreeSet::new(alloc),
            has_default: false,
        }
    }
}

/// An integer, which is promoted. Gives its promoted type.
fn controlling(alloc: Global, e: &mut Expr) -> Result<CInt, TypeFault>
    ensures { Answers (λ k. (k, plain_expr e.new)) (controlling (plain_expr e.old)) result }
{
    match integer_type(&e.ctype) {
        None => Err(no_type(e.place)),
        Some(k) => {
            let k = promoted(k);
            in_int(alloc, k, e)?;
            Ok(k)
        }
    }
}

/// Types the expression of a `switch`. Gives its promoted type.
pub fn type_controlling(alloc: Global, sight: &Sight, e: &mut Expr) -> Result<CInt, TypeFault>
    ensures { Answers (λ k. (k, plain_expr e.new))
        (one_part (decayed_of (typed (plain_sight sight.now) (plain_expr e.old))) controlling) result }
{
    type_value(alloc, sight, e)?;
    controlling(alloc, e)
}

/// A constant, converted to the type, which no case before has.
fn new_value(
    passed: &mut Passed,
    k: CInt,
    place: Place,
    value: Option<i128>,
) -> Result<i128, TypeFault>
    ensures value { Answers (λ z. z) (new_value k (holds passed.old) place value) result }
    ensures passed { IfOk result (λ z. (x : ℤ) → holds passed.new x ≡ with_value z (holds passed.old) x) }
    ensures default { OnOk result (passed.new.has_default ≡ passed.old.has_default) }
{
    let Some(z) = value else {
        return Err(no_type(place));
    };
    let z = convert(k, z);
    if passed.values.insert(z)? {
        Ok(z)
    } else {
        Err(no_type(place))
    }
}

/// Types the value of a case, in place of which its number stands. Gives this number.
fn type_case_value(
    alloc: Global,
    sight: &Sight,
    passed: &mut Passed,
    k: CInt,
    e: &mut Expr,
) -> Result<i128, TypeFault>
    ensures value { Answers (λ z. (z, plain_expr e.new))
        (case_value_by (plain_sight sight.now) k (holds passed.old) (plain_expr e.old)) result }
    ensures number { IfOk result (λ z. plain_expr e.new ≡ case_number k (place_of (plain_expr e.old)) z) }
    ensures passed { IfOk result (λ z. (x : ℤ) → holds passed.new x ≡ with_value z (holds passed.old) x) }
    ensures default { OnOk result (passed.new.has_default ≡ passed.old.has_default) }
{
    let place = e.place;
    type_value(alloc, sight, e)?;
    let z = new_value(passed, k, place, constant(sight, e))?;
    put(&mut e.kind, ExprKind::Number(z, Some(k)));
    e.place = place;
    e.ctype = CType::Int(k);
    Ok(z)
}

/// A `switch` has one `default` at most.
fn only_default(passed: &mut Passed, place: Place) -> Result<(), TypeFault>
    ensures checked { Answers (λ u. u) (only_default passed.old.has_default place) result }
    ensures sure { IfErr result IsRefusal }
    ensures values { OnOk result ((x : ℤ) → holds passed.new x ≡ holds passed.old x) }
    ensures default { OnOk result (passed.new.has_default ≡ true) }
{
    if passed.has_default {
        Err(no_type(place))
    } else {
        passed.has_default = true;
        Ok(())
    }
}

/// Types what stands between the word of a case, which is at this place, and its `:`.
pub fn type_label(
    alloc: Global,
    sight: &Sight,
    passed: &mut Passed,
    k: CInt,
    place: Place,
    value: &mut Option<Expr>,
) -> Result<(), TypeFault>
    ensures typed { Answers (λ _. option_map plain_expr value.new)
        (typed_label (plain_sight sight.now) k (holds passed.old) passed.old.has_default place (option_map plain_expr value.old)) result }
    ensures values { OnOk result ((x : ℤ) → holds passed.new x ≡ with_label (option_map plain_expr value.new) (holds passed.old) x) }
    ensures default { OnOk result (passed.new.has_default ≡ (is_default (option_map plain_expr value.new) || passed.old.has_default)) }
{
    match value {
        None => only_default(passed, place),
        Some(e) => {
            type_case_value(alloc, sight, passed, k, e)?;
            Ok(())
        }
    }
}
