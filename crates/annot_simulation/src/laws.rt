//! What the code of predicates does. It has nothing to do itself.

ghost use Rattle.annot_simulation.specs.Beside.{BoundedStatesKeepRanges, JudgedPredicatesAreFound, ResultsKeepRanges, SoundJudgementsKeepRanges};
ghost use Rattle.annot_simulation.specs.Beside.{StandingKeepsRanges, StandingStands, TermsUnderLabelsAreFound, TypedPredicatesAreFound, TypedTermsAreFound};
ghost use Rattle.annot_simulation.specs.ContractValidity.{ChecksAreValid, SnapshotsAreValid};
ghost use Rattle.annot_simulation.specs.ContractDoes.{ChecksFollow};
ghost use Rattle.annot_simulation.specs.Does.{CodeJudges, CodeValues, TakesNoStep};
ghost use Rattle.annot_simulation.specs.Plan.{EntriesAreFound, PlansAscend};
ghost use Rattle.annot_simulation.specs.Snapshots.{SnapshotKeeps};
ghost use Rattle.annot_simulation.specs.Validity.{CodeIsValid, ValuesAreValid};

/// The code of a predicate judges it, whatever names of annotations stand for, and leaves the steps that it leaves: all of them where no quantifier stands
/// in it. The code of an integer term leaves its value.
pub fn code()
    ensures judges { CodeJudges }
    ensures values { CodeValues }
    ensures still { TakesNoStep }
{}

/// It is valid where pointers to the variables are in registers or globals.
pub fn validity()
    ensures valid { CodeIsValid }
    ensures snapshots { SnapshotsAreValid }
    ensures checks { ChecksAreValid }
    ensures values { ValuesAreValid }
{}

/// The code at a passage of a label keeps what its terms are there, and the code of checks does what the checks of a contract do.
pub fn contracts()
    ensures keeps { SnapshotKeeps }
    ensures follows { ChecksFollow }
{}

/// The registers of a plan stand in order, and each of its terms is found.
pub fn plans()
    ensures ascend { PlansAscend }
    ensures found { EntriesAreFound }
{}

/// What it asks for holds wherever monitored C stands beside a state of the source: the target has the source's blocks and points to those of the
/// variables in sight, registers have the terms that are kept, and terms have values of their ranges, also with `\result`. So they have in each sound
/// judgement; and a typed predicate reads variables in sight, as each does that a run of an accepted program judges, where its questions have alignments and
/// its elements have bytes.
pub fn beside()
    ensures stands { StandingStands }
    ensures ranges { StandingKeepsRanges }
    ensures bounded { BoundedStatesKeepRanges }
    ensures results { ResultsKeepRanges }
    ensures judged { SoundJudgementsKeepRanges }
    ensures found { TypedPredicatesAreFound }
    ensures terms { TypedTermsAreFound }
    ensures under { TermsUnderLabelsAreFound }
    ensures asked { JudgedPredicatesAreFound }
{}
