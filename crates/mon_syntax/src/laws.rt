//! The laws that the definitions meet, one function for each subject. None of them has anything to do.

ghost use Rattle.mon_syntax.specs.BlockMemory.{over_blocks};
ghost use Rattle.mon_syntax.specs.FlatMemory.{over_flat};
ghost use Rattle.mon_syntax.specs.Laws.{WrappedValuesFit, WrappedValuesAreCongruent, FittingValuesStand};
ghost use Rattle.mon_syntax.specs.Laws.{FuelIsEnough, StepsFall, LoopsTurn, RunsNeedNoFuel, RunsSpendSteps};
ghost use Rattle.mon_syntax.specs.Laws.{BlocksAgreeWithFlat, AgreementTranslates};
ghost use Rattle.mon_syntax.specs.Laws.{FreedBlocksHaveNoRecord, BlockStrings, FlatStrings};
ghost use Rattle.mon_syntax.specs.FlatLaws.{RunsStartAlike, CallsKeep, FramesKeep, FrameEndsKeep, LoadsKeep, StoresKeep, OperatorsKeep, StringsKeep};
ghost use Rattle.mon_syntax.specs.FlatLaws.{PlacesStay, ValuesStay, DeadHaveNoRecord, PointersLieInUnits, PiecesHaveTheirBytes, PiecesAreOfOne};
ghost use Rattle.mon_syntax.specs.Laws.{PrintedProgramsAreRead};

/// Arithmetic: a result wraps to the one value of its type that is congruent to it, modulo 2 to the bits of the type.
pub fn arithmetic()
    ensures fits { WrappedValuesFit }
    ensures congruent { WrappedValuesAreCongruent }
    ensures stands { FittingValuesStand }
{}

/// Runs over numbered blocks: more turns and deeper calls than steps change nothing, and no step is gained.
pub fn block_runs()
    ensures fuel { FuelIsEnough over_blocks }
    ensures steps { StepsFall over_blocks }
    ensures loops { LoopsTurn over_blocks }
    ensures run { RunsNeedNoFuel over_blocks }
    ensures left { RunsSpendSteps over_blocks }
{}

/// Runs over flat memory meet the same laws.
pub fn flat_runs()
    ensures fuel { FuelIsEnough over_flat }
    ensures steps { StepsFall over_flat }
    ensures loops { LoopsTurn over_flat }
    ensures run { RunsNeedNoFuel over_flat }
    ensures left { RunsSpendSteps over_flat }
{}

/// Runs over two memories: flat memory does what numbered blocks do, and so a valid program that does over blocks what
/// its source does is a translation of it.
pub fn agreement()
    ensures flat { BlocksAgreeWithFlat }
    ensures translates { AgreementTranslates }
{}

/// Flat memory stands for numbered blocks: a run begins so, and calls of the runtime, frames, loads, stores and operators keep
/// it so, up to the first of them that has no meaning over blocks. A string has the same bytes, up to the first that has none there.
pub fn flat_relation()
    ensures start { RunsStartAlike }
    ensures calls { CallsKeep }
    ensures frames { FramesKeep }
    ensures frame_ends { FrameEndsKeep }
    ensures loads { LoadsKeep }
    ensures stores { StoresKeep }
    ensures operators { OperatorsKeep }
    ensures strings { StringsKeep }
{}

/// Where it does, a block keeps its place when it is dead, and no record has its number any more; a pointer lies in the units of
/// its block, and its pieces are the bytes of its number, each at its own place in an aligned group of eight.
pub fn flat_places()
    ensures places { PlacesStay }
    ensures values { ValuesStay }
    ensures dead { DeadHaveNoRecord }
    ensures pointers { PointersLieInUnits }
    ensures pieces { PiecesHaveTheirBytes }
    ensures one { PiecesAreOfOne }
{}

/// The heap: after the death of a block no unit has its record.
pub fn freed_blocks()
    ensures { FreedBlocksHaveNoRecord }
{}

/// Strings: over both memories the bytes at a pointer up to the first 0, or up to the first byte that can't be read.
pub fn strings()
    ensures blocks { BlockStrings }
    ensures flat { FlatStrings }
{}

/// Texts: the text of a valid program spells that program.
pub fn printed_texts()
    ensures { PrintedProgramsAreRead }
{}
