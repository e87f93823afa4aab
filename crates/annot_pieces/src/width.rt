//! The ranges of terms, and the types in which their values stand.

ghost use Rattle.std.specs.Prelude.{◌≡◌};
ghost use Rattle.c_syntax.specs.Logic.{plain_term, range_of};
ghost use Rattle.c_model.specs.Ranges.{width_of_range};
ghost use Rattle.annot_simulation.specs.Code.{type_of, type_of_width, width_of};
ghost use Rattle.annot_pieces.specs.Plain.{types_of};

use crate::value::{OperationTypes, type_of_width, working};
use c_syntax::logic::Term;
use c_syntax::{BinOp, Range, Width};
use ea_num::width_of as width_of_range;
use mon_syntax::MonType;

/// The range of a term.
#[tactic(auto, using(crate::proofs::Arms::range_is))]
pub fn range_of(t: &Term) -> Range
    ensures { result ≡ range_of (plain_term t.now) }
{
    t.range
}

/// The width in which the value of a term stands.
pub fn width_of(t: &Term) -> Width
    ensures { result ≡ width_of (plain_term t.now) }
{
    width_of_range(range_of(t))
}

/// The type in which it stands.
pub fn type_of(t: &Term) -> MonType
    ensures { result ≡ type_of (plain_term t.now) }
{
    type_of_width(width_of(t))
}

/// The type that holds a range.
pub fn type_of_range(range: Range) -> MonType
    ensures { result ≡ type_of_width (width_of_range range) }
{
    type_of_width(width_of_range(range))
}

/// The types of an operator on two terms, with a result in the range.
pub fn types_of(op: BinOp, range: Range, a: &Term, b: &Term) -> OperationTypes
    ensures { result ≡ types_of op range (plain_term a.now) (plain_term b.now) }
{
    let whole = width_of_range(range);
    OperationTypes {
        result: type_of_width(whole),
        working: type_of_width(working(op, whole, width_of(a), width_of(b))),
        left: type_of(a),
        right: type_of(b),
    }
}
