//! What holds of every tree that is checked. No function here has anything to do.

ghost use Rattle.mon_typing.specs.Laws.{CheckedIsValid, TokensHaveNames};

/// A tree that keeps to the limits, whose names are words, and that has neither a fault nor a wrong `main`, spells a valid
/// program.
pub fn validity()
    ensures { CheckedIsValid }
{}

/// The names of a text's tokens are words of at most 255 bytes, none twice.
pub fn names()
    ensures { TokensHaveNames }
{}
