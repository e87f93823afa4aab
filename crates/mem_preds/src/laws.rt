//! The laws of questions about memory (ACSL 2.7). The functions have nothing to do.

ghost use Rattle.mem_preds.specs.Laws.{FactsAreTold, FactsAreTyped, PartsAreAnswered, PartsAreTyped, QuestionsAreAnswered, QuestionsAreTyped};
ghost use Rattle.mem_preds.specs.Laws.{ReadsAreTyped, SizesAreAlignments};
ghost use Rattle.mem_preds.specs.Reads.{NumbersAreRead, PointersAreRead};

/// Over numbered blocks the register gets 1 exactly where what is asked holds of the place, and else 0; memory, steps,
/// input, output and each other register stay. What asks is typed, and its alignment is the one that is named.
pub fn questions()
    ensures answered { QuestionsAreAnswered }
    ensures typed { QuestionsAreTyped }
    ensures sizes { SizesAreAlignments }
{}

/// Over numbered blocks the register gets what is told of the block that a place is inside, and null or 0 where it is
/// inside none; all else stays.
pub fn facts()
    ensures told { FactsAreTold }
    ensures typed { FactsAreTyped }
{}

/// Over numbered blocks the register gets 1 exactly where two ranges share no byte, and else 0; all else stays.
pub fn parts()
    ensures answered { PartsAreAnswered }
    ensures typed { PartsAreTyped }
{}

/// A question says exactly where a place of annotations can be read, and there the load at the place is its value.
pub fn reads()
    ensures numbers { NumbersAreRead }
    ensures pointers { PointersAreRead }
    ensures typed { ReadsAreTyped }
{}
