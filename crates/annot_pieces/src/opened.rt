//! What stands around the code within binders (ACSL 2.2.4).

ghost use Rattle.std.specs.Prelude.{◌<◌};

use mon_syntax::{MonExpr, MonType};
use quantifier_loops::tries::Bounds;

/// The binders of one chain: the type of their indices, the greatest number of their upper bound, and the register of their last value.
#[derive(Clone, Copy)]
pub struct Chain {
    pub kind: MonType,
    pub most: i128,
    pub last: u32,
}

/// A number with a sign between it and a binder, and the least that it may be.
#[derive(Drop)]
pub struct LowerBound {
    pub value: MonExpr,
    pub least: i128,
}

/// What stands around the code within a binder.
#[derive(Drop)]
pub struct OpenBinder {
    pub bounds: Bounds,
    /// The first one of its registers.
    pub first: u32,
    /// The register of its last value, which is at most this number there.
    pub most: Option<(u32, i128)>,
    ghost few: { first < 4294967293 },
}
