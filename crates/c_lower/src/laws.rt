//! The laws that runs of code meet. Their function has nothing to do.

ghost use Rattle.mon_syntax.specs.FlatMemory.{over_flat};
ghost use Rattle.c_lower.specs.Laws.{CodeRunsOnce, WritingBegins};

/// Runs of code over flat memory: each goes in one way, and what it wrote up to an instruction begins what it writes.
pub fn flat_code()
    ensures once { CodeRunsOnce over_flat }
    ensures writing { WritingBegins over_flat }
{}
