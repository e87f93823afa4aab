//! What the translation of expressions does. It has nothing to do itself.

ghost use Rattle.c_simulation.specs.EffectLaws.{
  EffectConditionsReach,
  EffectOriginsReach,
  EffectPlacesReach,
  EffectValuesReach,
  EffectsReach,
  LettersOfActs,
  LettersOfValues,
};
ghost use Rattle.c_simulation.specs.Laws.{
  ConditionsFollow,
  ConditionsReach,
  PlacesFollow,
  PlacesReach,
  ValuesFollow,
  ValuesReach,
};

/// The translation of an expression without effects evaluates to the source's value wherever that is defined: as a value, as the
/// place of an object, and as a condition. Beside the source it reaches what the source comes to, which is the form in which
/// statements go on.
pub fn expressions()
    ensures values { ValuesFollow }
    ensures places { PlacesFollow }
    ensures conditions { ConditionsFollow }
    ensures values_reach { ValuesReach }
    ensures places_reach { PlacesReach }
    ensures conditions_reach { ConditionsReach }
{}

/// The translation of any expression, with effects and calls anywhere in it, reaches what the source's evaluation comes to: its
/// statements and then its value, its place, the object in which it is a member, or its test; and the statements that stand for
/// its effects alone. The functions that it calls are taken to do what the source's calls do.
pub fn effects()
    ensures values { EffectValuesReach }
    ensures conditions { EffectConditionsReach }
    ensures places { EffectPlacesReach }
    ensures origins { EffectOriginsReach }
    ensures alone { EffectsReach }
{}

/// Where the letters of an expression are values of `char`, those of what is evaluated of it are so, as the laws of effects ask.
pub fn letters()
    ensures values { LettersOfValues }
    ensures alone { LettersOfActs }
{}
