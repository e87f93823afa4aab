//! What the loop over values does. It has nothing to do itself.

ghost use Rattle.quantifier_loops.specs.Laws.{UpwardIsValid, UpwardTries};

/// The loop does what is done with a value at each one, upward, each after a step, until a register says that no further one is to be tried.
pub fn upward()
    ensures tries { UpwardTries }
    ensures valid { UpwardIsValid }
{}
