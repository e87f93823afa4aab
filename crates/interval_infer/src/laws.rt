//! Laws of the ranges of terms. The functions have nothing to do.

ghost use Rattle.interval_infer.specs.Laws.{RangesAreOrdered, RangesAreWithin128, SoundStoresLoad, ValuesLieInRanges};
ghost use Rattle.interval_infer.specs.Terms.{PlacesLieInRanges, ReturnedValuesFit, SoundStatesFit, SoundTermsLieInRanges, TermsLieInRanges, ZonesLieInRanges};
ghost use Rattle.interval_infer.specs.Terms.{BindersFit, BindersReach, GuardedReaches, GuardsFit};
ghost use Rattle.interval_infer.specs.InSight.{JudgedInSight};
ghost use Rattle.interval_infer.specs.Judged.{JudgedTermsLieInRanges, SoundJudgementsFit};
ghost use Rattle.interval_infer.specs.Bases.{BasedOffsetsLie, BasedPlacesLie, BasesAddUp};

/// Each value of a term over integers and variables lies in the range of the term, in each state whose integers are values of
/// their types, as in sound ones. The range of a term has a number in it, and its bounds lie within signed 128 bits.
pub fn values()
    ensures lie { ValuesLieInRanges }
    ensures loads { SoundStoresLoad }
    ensures ordered { RangesAreOrdered }
    ensures within { RangesAreWithin128 }
{}

/// Each value of a term of any form, and of a pointer its offset, lies in the range of the term, in each sound state: so it does in each state whose
/// loads fit, where the names in sight fit.
pub fn terms()
    ensures lie { TermsLieInRanges }
    ensures places { PlacesLieInRanges }
    ensures zones { ZonesLieInRanges }
    ensures states { SoundStatesFit }
    ensures sound { SoundTermsLieInRanges }
    ensures results { ReturnedValuesFit }
{}

/// A chain tries its binders in environments that fit alone, and so do guards ask what stands behind them: each value tried
/// lies in its binder's range, which is one of signed 128 bits.
pub fn binders()
    ensures fit { BindersFit }
    ensures tried { BindersReach }
    ensures asked { GuardedReaches }
    ensures behind { GuardsFit }
{}

/// A pointer of annotations is a base and an offset from it, as code holds it: their sum is its value, and that offset lies in
/// the term's range, too.
pub fn bases()
    ensures sums { BasesAddUp }
    ensures lie { BasedOffsetsLie }
    ensures places { BasedPlacesLie }
{}

/// Wherever a run of a program of an accepted text judges an annotation, from its start on, each value of a term lies in the range of the term: the judgement
/// is sound, so that loads fit there, and `\result` does, where it is in sight. And the annotation is typed with what is in sight where it stands: in that
/// state an assert finds a block of each object in sight, and a clause of a contract one of each object that it may name.
pub fn judgements()
    ensures fit { SoundJudgementsFit }
    ensures lie { JudgedTermsLieInRanges }
    ensures seen { JudgedInSight }
{}
