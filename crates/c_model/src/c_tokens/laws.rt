//! What holds of every C text with annotations. No function here has anything to do.

ghost use Rattle.c_model.specs.CTokenLaws.{PiecesAreTheText, PiecesArePlaced, PiecesAreSpelled, BreaksAreFaults, OnlyTheseAreSpelled, LiteralsAreIntegers};
ghost use Rattle.c_model.specs.CTokenLaws.{RefusedAtFirstFault, NamesInOrder, NamesDiffer, TokensAscend, StringsAreJoined, TokensAreFew, EndIsBehindTheText};

/// The pieces joined are the text, and each is at its place and spelled as its kind is. What is no piece is broken as its fault
/// says. The pieces are the only ones of which all this holds.
pub fn pieces_of_a_c_text()
    ensures joined { PiecesAreTheText }
    ensures placed { PiecesArePlaced }
    ensures spelled { PiecesAreSpelled }
    ensures broken { BreaksAreFaults }
    ensures only { OnlyTheseAreSpelled }
{}

/// A literal has the value of its digits, and the first of C99's types that has this value.
pub fn integer_literals()
    ensures { LiteralsAreIntegers }
{}

/// A text is refused exactly at its first fault, or at one token too many.
pub fn refusals_of_a_c_text()
    ensures { RefusedAtFirstFault }
{}

/// The names are the words in order of first use, none twice.
pub fn names_of_a_c_text()
    ensures order { NamesInOrder }
    ensures distinct { NamesDiffer }
{}

/// Each token begins after the one before, no string follows a string, there are at most 200,000, and the end is that of the text.
pub fn tokens_of_a_c_text()
    ensures ascend { TokensAscend }
    ensures joined { StringsAreJoined }
    ensures few { TokensAreFew }
    ensures end { EndIsBehindTheText }
{}
