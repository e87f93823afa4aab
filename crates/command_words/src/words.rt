//! Reads the words of a command line.

ghost use Rattle.std.specs.Prelude.{◌≡◌, ℕ, List, IfOk, map, option_map, option_to_list, string_bytes, codes};
ghost use Rattle.clap.specs.Words.{first_value, found_of};
ghost use Rattle.c_model.specs.declared.job.Job.{Job};
ghost use Rattle.c_model.specs.Words.{exec_of, file_of, instrument_of, job_of, run_of, step_number, steps_of, timed};
ghost use Rattle.command_words.specs.Commands.{job_from, operand_of};

use crate::parse;
use c_model::{FileName, Job};
use clap::ArgMatches;
use std::alloc::{AllocError, Global};

// The steps of a run where no option gives them.
const DEFAULT_STEPS: u64 = 10_000_000;

// The most steps that an option may give.
const MOST_STEPS: u64 = 1_000_000_000_000;

/// Reads the words of a command line, without the program's name. `None` is given for words that ask for no job.
pub fn read_words(alloc: Global, words: &[String]) -> Result<Option<Job>, AllocError>
    ensures { IfOk result (λ job. job ≡ job_of (map string_bytes words.now)) }
{
    match words {
        [command, rest @ ..] if command.as_str() == "run" => read_run(alloc, rest),
        [command, rest @ ..] if command.as_str() == "instrument" => read_instrument(alloc, rest),
        [command, rest @ ..] if command.as_str() == "exec" => read_exec(alloc, rest),
        _ => Ok(None),
    }
}

// The job of the words after `instrument`.
fn read_instrument(alloc: Global, words: &[String]) -> Result<Option<Job>, AllocError>
    ensures { IfOk result (λ job. job ≡ instrument_of (map string_bytes words.now)) }
{
    match file_named(operand(alloc, "instrument", words)?) {
        Some(file) => {
            let file = FileName::new(String::from_str(alloc, file)?);
            Ok(Some(Job::Instrument { file, rte: false }))
        }
        None => Ok(None),
    }
}

// The job of the words after `run`.
fn read_run(alloc: Global, words: &[String]) -> Result<Option<Job>, AllocError>
    ensures { IfOk result (λ job. job ≡ run_of (map string_bytes words.now)) }
{
    match timed_parts(alloc, "run", words)? {
        Some((file, steps)) => {
            let file = FileName::new(String::from_str(alloc, file)?);
            Ok(Some(Job::Run {
                file,
                steps,
                rte: false,
            }))
        }
        None => Ok(None),
    }
}

// The job of the words after `exec`.
fn read_exec(alloc: Global, words: &[String]) -> Result<Option<Job>, AllocError>
    ensures { IfOk result (λ job. job ≡ exec_of (map string_bytes words.now)) }
{
    match timed_parts(alloc, "exec", words)? {
        Some((file, steps)) => {
            let file = FileName::new(String::from_str(alloc, file)?);
            Ok(Some(Job::Exec { file, steps }))
        }
        None => Ok(None),
    }
}

// The operand of the words after a command without options.
fn operand<'a>(
    alloc: Global,
    name: &'a str,
    words: &'a [String],
) -> Result<Option<&'a str>, AllocError>
    ensures { IfOk result (λ word. option_map (λ s. s.now) word ≡ operand_of (map string_bytes words.now)) }
{
    let command = parse::single(alloc, name)?;
    match parse::matches(command, words)? {
        Some(found) => Ok(found.get_str("operand")),
        None => Ok(None),
    }
}

// The file and the number of steps of the words after a command with the option `--steps`.
fn timed_parts<'a>(
    alloc: Global,
    name: &'a str,
    words: &'a [String],
) -> Result<Option<(&'a str, u64)>, AllocError>
    ensures { (job : List ℕ → ℕ → Job) → IfOk result (λ parts. option_map (λ p. job p.0.now p.1) parts ≡ timed job (map string_bytes words.now)) }
{
    let command = parse::timed(alloc, name)?;
    match parse::matches(command, words)? {
        Some(found) => Ok(found_parts(&found)),
        None => Ok(None),
    }
}

// The file and the number of steps that were found.
fn found_parts<'a>(found: &ArgMatches<'a>) -> Option<(&'a str, u64)>
    ensures { (job : List ℕ → ℕ → Job) → option_map (λ p. job p.0.now p.1) result
        ≡ job_from job (first_value (found_of found.now) (codes "file")) (first_value (found_of found.now) (codes "steps")) }
{
    let file = file_named(found.get_str("file"))?;
    let steps = steps_or_default(found.get_str("steps"))?;
    Some((file, steps))
}

// The operand, if it names a file.
fn file_named(file: Option<&str>) -> Option<&str>
    ensures { option_map (λ s. s.now) result ≡ file_of (option_to_list (option_map (λ s. s.now) file.entry)) }
{
    let only = file?;
    if only.is_empty() || only == "-" {
        None
    } else {
        Some(only)
    }
}

// The number of steps that the option's value gives, or the default.
fn steps_or_default(value: Option<&str>) -> Option<u64>
    ensures { result ≡ steps_of (option_to_list (option_map (λ s. s.now) value.entry)) }
{
    match value {
        Some(text) => read_steps(text),
        None => Some(DEFAULT_STEPS),
    }
}

// The number of steps that decimal digits give.
fn read_steps(text: &str) -> Option<u64>
    ensures { result ≡ step_number text.now }
{
    if text.starts_with('+') {
        return None;
    }
    let steps = text.parse::<u64>().ok()?;
    if steps <= MOST_STEPS {
        Some(steps)
    } else {
        None
    }
}
