//! What is read of a form, and what ends it.

use c_syntax::fault::ReadFault;
use c_syntax::logic::{Formula, FormulaLinks};
use c_syntax::{Place, Token};

/// What ends a form, so that nothing goes on behind it.
#[derive(Drop)]
pub enum Span {
    /// `+ (lo .. hi)`, at its `+`, which stands in a zone alone (ACSL 2.7).
    Range(Place, Formula, Formula),
    /// A quantifier, which reaches as far to the right as it can.
    Quantifier,
}

/// A form, and what ends it.
pub type SpannedForm = (Formula, Option<Span>);

/// The relations of a chain, and what ends the last operand.
pub type SpannedLinks = (FormulaLinks, Option<Span>);

/// What is read, and the tokens after it.
pub type Read<'a, T> = Result<(T, &'a [Token]), ReadFault>;
