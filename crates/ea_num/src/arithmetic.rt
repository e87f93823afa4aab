//! Sums, differences, opposites and complements: their bounds are exact.

ghost use Rattle.std.specs.Prelude.{◌≡◌};
ghost use Rattle.c_model.specs.Ranges.{IsRange, sum_range, difference_range, negation_range, complement_range};

use c_syntax::Range;

/// The range of `a + b`.
pub fn add(a: Range, b: Range) -> Option<Range>
    requires left { IsRange a }
    requires right { IsRange b }
    ensures { result ≡ sum_range a b }
{
    let lo = a.lo.checked_add(b.lo)?;
    let hi = a.hi.checked_add(b.hi)?;
    Some(Range { lo, hi })
}

/// The range of `a - b`.
#[tactic(auto, using(crate::proofs::Bounded::bounds))]
pub fn sub(a: Range, b: Range) -> Option<Range>
    requires left { IsRange a }
    requires right { IsRange b }
    ensures { result ≡ difference_range a b }
{
    let lo = a.lo.checked_sub(b.hi)?;
    let hi = a.hi.checked_sub(b.lo)?;
    Some(Range { lo, hi })
}

/// The range of `-a`; none where the least value of `a` is that of signed 128 bits.
pub fn neg(a: Range) -> Option<Range>
    requires operand { IsRange a }
    ensures { result ≡ negation_range a }
{
    let lo = a.hi.checked_neg()?;
    let hi = a.lo.checked_neg()?;
    Some(Range { lo, hi })
}

/// The range of `~a`, on infinite two's complement.
pub fn flip(a: Range) -> Option<Range>
    requires operand { IsRange a }
    ensures { result ≡ complement_range a }
{
    Some(Range {
        lo: !a.hi,
        hi: !a.lo,
    })
}
