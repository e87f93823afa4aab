//! The laws of guards. The function has nothing to do.

ghost use Rattle.mon_syntax.specs.BlockMemory.{over_blocks};
ghost use Rattle.mon_syntax.specs.FlatMemory.{over_flat};
ghost use Rattle.term_guards.specs.Laws.{GuardsAreTyped, GuardsTellDefinedness};

/// A guard's value is 1 exactly where the operator of annotations is defined on its operands, and 0 elsewhere, over
/// numbered blocks and over flat memory; it is an `i32`.
pub fn guards()
    ensures over_blocks { GuardsTellDefinedness over_blocks }
    ensures over_flat { GuardsTellDefinedness over_flat }
    ensures typed { GuardsAreTyped }
{}
