//! One command of `clap` for each command of the program, without help and version.

ghost use Rattle.std.specs.Prelude.{◌≡◌, IfOk, map, option_map, string_bytes};
ghost use Rattle.clap.specs.Words.{app_of, found_of, rows_of};
ghost use Rattle.command_words.specs.Given.{Form, Text, given_by};
ghost use Rattle.command_words.specs.Rules.{IsForm, app_for, rows_for};
ghost use Rattle.command_words.specs.Commands.{single_form, timed_form};

use clap::error::ErrorKind;
use clap::{Arg, ArgMatches, Command};
use std::alloc::{AllocError, Global};

/// The command of a file and the option `--steps`.
pub fn timed<'a>(alloc: Global, name: &'a str) -> Result<Command<'a>, AllocError>
    ensures { IfOk result (λ command. app_of command ≡ app_for name.now timed_form) }
{
    let steps = Arg::new(alloc, "steps").long("steps");
    let file = Arg::new(alloc, "file");
    Command::new(alloc, name)
        .no_binary_name(true)
        .disable_help_flag(true)
        .arg(steps)?
        .arg(file)
}

/// The command of an operand alone.
pub fn single<'a>(alloc: Global, name: &'a str) -> Result<Command<'a>, AllocError>
    ensures { IfOk result (λ command. app_of command ≡ app_for name.now single_form) }
{
    let operand = Arg::new(alloc, "operand");
    Command::new(alloc, name)
        .no_binary_name(true)
        .disable_help_flag(true)
        .arg(operand)
}

/// What `clap` finds in the words after a command, or `None` where the command doesn't take them.
pub fn matches<'a>(
    command: Command<'a>,
    words: &'a [String],
) -> Result<Option<ArgMatches<'a>>, AllocError>
    ensures { (form : Form) (name : Text) → IsForm form → app_of command.entry ≡ app_for name form
        → IfOk result (λ m. option_map (λ m. rows_of (found_of m)) m ≡ option_map (rows_for form) (given_by form (map string_bytes words.now))) }
{
    match command.try_get_matches_from(words) {
        Ok(matches) => Ok(Some(matches)),
        Err(error) => match error.kind() {
            ErrorKind::OutOfMemory => Err(AllocError),
            _ => Ok(None),
        },
    }
}
