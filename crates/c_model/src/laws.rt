//! The laws that the definitions meet, one function for each subject. None of them has anything to do.

ghost use Rattle.c_model.specs.Unranged.{RangingKeepsAnnotations, RangingKeepsPredicates, RangingKeepsTerms, RangesKeepAnswers, RangesKeepValues};
ghost use Rattle.c_model.specs.UnrangedPrograms.{RangedProgramsArePrograms, RangesKeepRuns, RangingKeepsUnits};
ghost use Rattle.c_model.specs.Laws.{BitsHoldValues, FittingResultsStand, SignedResultsFit, UnsignedResultsWrap, ResultsFit};
ghost use Rattle.c_model.specs.Laws.{ConversionsFit, ConversionsKeepValues, OperatorsFit, OperatorsOfOneFit};
ghost use Rattle.c_model.specs.Laws.{SavedPointersLoad, SavedValuesLoad, SavesKeepBlocks, SavesKeepBytes, SavesKeepWhole, StatementsKeepWhole};
ghost use Rattle.c_model.specs.Together.{PointersLoad};
ghost use Rattle.c_model.specs.HeapLaws.{HeapPlacesFit, HeapPlacesAreLeast, FullHeapsHaveNoPlace, HeapsWithNoPlaceAreFull, NumbersComeFirst};
ghost use Rattle.c_model.specs.HeapLaws.{AllocatedBlocksAreNew, NoBytesGiveNull, FreedBlocksDie, LiveBlocksCanBeFreed, FreeLetsNullBe, DeadBlocksHaveNoUse};
ghost use Rattle.c_model.specs.HeapLaws.{StatementsKeepBlocks, StatementsKeepPlaces, ScalarsStandInOrder, AssignedStructsAreCopies, AssignedStructsKeepTheRest};
ghost use Rattle.c_model.specs.Laws.{FuelIsEnough, StepsFall, LoopsTurn, DoLoopsTurn, ForLoopsTurn, RunsNeedNoFuel, RunsSpendSteps, OutputGrows};
ghost use Rattle.c_model.specs.ContractLaws.{AnswersNeedNoSteps, BehaviorsHoldByAssumptions};
ghost use Rattle.c_model.specs.PrintingLaws.{BytesArePrinted, FormatsAreSpelled, LiteralsAreFound};
ghost use Rattle.c_model.specs.SoundJudgements.{GivenResultsFit, JudgedStatesAreSound, JudgementsAreSound};
ghost use Rattle.c_model.specs.SoundStates.{BirthsKeepSound, BodiesKeepSound, CopiesKeepSound, DeathsKeepSound, ExpressionsKeepSound, FreesKeepSound};
ghost use Rattle.c_model.specs.SoundStates.{ItemsKeepSound, NumbersAreOne, PlacedAreNear, ProgramCallsKeepSound, ProgramsAreDirect, RunsAreSound};
ghost use Rattle.c_model.specs.SoundStates.{RunsKeepSound, SavesKeepSound, SoundStoresAreWhole, SoundStoresRead, StartsAreSettled, StartsAreSound};
ghost use Rattle.c_model.specs.SoundStates.{StatementsKeepSound};
ghost use Rattle.c_model.specs.TypedTrees.{TypingLaws};
ghost use Rattle.c_model.specs.TextTypingLaws.{TextTypingLaws};
ghost use Rattle.c_model.specs.TypedPredicates.{TypedAnnotationsAreKnown};
ghost use Rattle.c_model.specs.TypedAnnotations.{TypedContractsAreKnown};
ghost use Rattle.c_model.specs.Laws.{ProgramsNeverStuck, AgreementIsReflexive, AgreementIsTransitive, AgreementGoesOn};

/// Integers: a value is the value of its bits, a result that fits stands, one that does not is undefined in a signed
/// type and wraps in an unsigned one. Conversions and operators give values of their types.
pub fn integers()
    ensures bits { BitsHoldValues }
    ensures fitting { FittingResultsStand }
    ensures signed { SignedResultsFit }
    ensures unsigned { UnsignedResultsWrap }
    ensures fits { ResultsFit }
    ensures converted { ConversionsFit }
    ensures kept { ConversionsKeepValues }
    ensures operators { OperatorsFit }
    ensures operators_of_one { OperatorsOfOneFit }
{}

/// Memory: a number or a pointer that is saved is loaded again, and a save changes nothing else. The question whether a pointer stands
/// somewhere is answered as a load would answer it, where the pieces of pointers stand together.
pub fn memory()
    ensures loads { SavedValuesLoad }
    ensures pointers { SavedPointersLoad }
    ensures asked { PointersLoad }
    ensures blocks { SavesKeepBlocks }
    ensures bytes { SavesKeepBytes }
    ensures whole { SavesKeepWhole }
    ensures statements { StatementsKeepWhole }
{}

/// The heap: a block is born at the least place where its units end within the heap and meet no live block of it, and the heap
/// is full where there is none. What is allocated is a new block; what is freed is dead, and a dead block has no use. Along a run
/// each block keeps its number, kind, size and place, and the live ones of the heap stay apart.
pub fn heap()
    ensures fit { HeapPlacesFit }
    ensures least { HeapPlacesAreLeast }
    ensures full { FullHeapsHaveNoPlace }
    ensures only { HeapsWithNoPlaceAreFull }
    ensures numbers { NumbersComeFirst }
    ensures new { AllocatedBlocksAreNew }
    ensures null { NoBytesGiveNull }
    ensures freed { FreedBlocksDie }
    ensures freeable { LiveBlocksCanBeFreed }
    ensures let_be { FreeLetsNullBe }
    ensures dead { DeadBlocksHaveNoUse }
    ensures kept { StatementsKeepBlocks }
    ensures places { StatementsKeepPlaces }
{}

/// Struct assignment: each scalar of the target has the bytes, their kinds and the value of the source's, and no other byte changes.
pub fn struct_assignment()
    ensures order { ScalarsStandInOrder }
    ensures copies { AssignedStructsAreCopies }
    ensures rest { AssignedStructsKeepTheRest }
{}

/// Runs: more turns and deeper calls than steps change nothing, no step is gained, and the output only grows.
pub fn runs()
    ensures fuel { FuelIsEnough }
    ensures steps { StepsFall }
    ensures loops { LoopsTurn }
    ensures do_loops { DoLoopsTurn }
    ensures for_loops { ForLoopsTurn }
    ensures run { RunsNeedNoFuel }
    ensures left { RunsSpendSteps }
    ensures output { OutputGrows }
{}

/// Printing: bytes come one after another, a format is found by the pointer to it, and its pieces say all of it.
pub fn printing()
    ensures bytes { BytesArePrinted }
    ensures literals { LiteralsAreFound }
    ensures formats { FormatsAreSpelled }
{}

/// Programs of accepted texts: no run of one comes to what typing rules out.
pub fn programs()
    ensures never_stuck { ProgramsNeverStuck }
{}

/// Typing: what is typed is well typed, and it is what was read but for types, casts and constants.
pub fn typing()
    ensures expressions { TypingLaws }
    ensures texts { TextTypingLaws }
{}

/// Annotations: what typing makes of those that are read is well typed.
pub fn annotations()
    ensures typed { TypedAnnotationsAreKnown }
    ensures contracts { TypedContractsAreKnown }
{}

/// Contracts: where a call goes on behind the checks at its beginning, a behavior holds exactly where all its `assumes` are true when the call
/// begins; and what an annotation says, true or false, is one, with however many steps left.
pub fn contracts()
    ensures assumed { BehaviorsHoldByAssumptions }
    ensures one { AnswersNeedNoSteps }
{}

/// Agreement of runs: each agrees with itself, and what agrees with a run in two steps agrees with it, also with the source's.
pub fn agreement()
    ensures reflexive { AgreementIsReflexive }
    ensures transitive { AgreementIsTransitive }
    ensures from_source { AgreementGoesOn }
{}

/// Ranges: a term or predicate with ranges is the same but for its ranges, each of which is that of its form, and it means the same.
pub fn ranging()
    ensures terms { RangingKeepsTerms }
    ensures predicates { RangingKeepsPredicates }
    ensures annotations { RangingKeepsAnnotations }
    ensures values { RangesKeepValues }
    ensures answers { RangesKeepAnswers }
{}

/// Ranges over a program: each annotation in a body keeps its ranges, and nothing else changes.
pub fn ranging_of_programs()
    ensures units { RangingKeepsUnits }
    ensures programs { RangedProgramsArePrograms }
    ensures runs { RangesKeepRuns }
{}

/// Stores that are sound: what is read of one is a value of its type, or a pointer into a block, which is 2^32 bytes long at most. Saves of values that point
/// into blocks, copies of scalars, deaths and `free` leave a store sound.
pub fn sound_stores()
    ensures reads { SoundStoresRead }
    ensures near { PlacedAreNear }
    ensures whole { SoundStoresAreWhole }
    ensures saves { SavesKeepSound }
    ensures copies { CopiesKeepSound }
    ensures deaths { DeathsKeepSound }
    ensures frees { FreesKeepSound }
{}

/// States that are sound: a run of a program of an accepted text begins in one and leaves one, and each of its expressions, births, statements, bodies and
/// calls leaves one, if it begins in one.
pub fn sound_states()
    ensures direct { ProgramsAreDirect }
    ensures numbers { NumbersAreOne }
    ensures starts { StartsAreSound }
    ensures settled { StartsAreSettled }
    ensures expressions { ExpressionsKeepSound }
    ensures births { BirthsKeepSound }
    ensures statements { StatementsKeepSound }
    ensures items { ItemsKeepSound }
    ensures bodies { BodiesKeepSound }
    ensures calls { ProgramCallsKeepSound }
    ensures runs { RunsKeepSound }
    ensures left { RunsAreSound }
{}

/// States in which annotations are judged: each one along each run of a program of an accepted text, from its start on, is sound. So it is in each run that
/// begins in a sound state, whatever contracts and annotations of loops the program has; and what a function gives is a value of its type.
pub fn judged_states()
    ensures sound { JudgedStatesAreSound }
    ensures judgements { JudgementsAreSound }
    ensures results { GivenResultsFit }
{}
