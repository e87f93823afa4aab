//! What holds of every command line, whatever reads it.

ghost use Rattle.c_model.specs.WordLaws.{DashesEndOptions, ExecTakesWordsOfRun, FormsAgree, JobsAreFromWords, LeadingZeros, NumbersAreRead};
ghost use Rattle.c_model.specs.WordLaws.{OneFileBehindDashes, OptionOnce, OrderIsFree};

/// The order of options and operands doesn't matter, and the two forms of an option are the same.
pub fn arguments_in_any_order()
    ensures order { OrderIsFree }
    ensures forms { FormsAgree }
    ensures once { OptionOnce }
{}

/// After `--` each word is an operand.
pub fn operands_behind_dashes()
    ensures any_word { DashesEndOptions }
    ensures one_word { OneFileBehindDashes }
{}

/// A job has a file of the words and a bounded number of steps.
pub fn jobs_are_from_words()
    ensures { JobsAreFromWords }
{}

/// Decimal numbers are read as they are written.
pub fn numbers_are_read()
    ensures printed { NumbersAreRead }
    ensures leading_zeros { LeadingZeros }
{}

/// `exec` takes the words that `run` takes.
pub fn exec_takes_words_of_run()
    ensures { ExecTakesWordsOfRun }
{}
