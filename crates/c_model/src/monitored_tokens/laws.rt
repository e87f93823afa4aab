//! What holds of every monitored text. No function here has anything to do.

ghost use Rattle.c_model.specs.MonitoredTokenLaws.{PiecesAreTheText, PiecesArePlaced, PiecesAreSpelled, BreaksAreFaults, OnlyTheseAreSpelled};
ghost use Rattle.c_model.specs.MonitoredTokenLaws.{RefusedAtFirstFault, NamesInOrder, NamesDiffer, NumbersAreOfNames};

/// The pieces joined are the text, and each is at its place and spelled as its kind is. What is no piece is broken as its fault
/// says. The pieces are the only ones of which all this holds.
pub fn pieces_of_a_text()
    ensures joined { PiecesAreTheText }
    ensures placed { PiecesArePlaced }
    ensures spelled { PiecesAreSpelled }
    ensures broken { BreaksAreFaults }
    ensures only { OnlyTheseAreSpelled }
{}

/// A text is refused exactly at its first fault.
pub fn refusals_of_a_text()
    ensures { RefusedAtFirstFault }
{}

/// The names are the words in order of first use, none twice, and a word has the number of its name.
pub fn names_of_a_text()
    ensures order { NamesInOrder }
    ensures distinct { NamesDiffer }
    ensures numbers { NumbersAreOfNames }
{}
