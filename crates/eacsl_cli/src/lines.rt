//! The lines that the program puts on its error output.

ghost use Rattle.std.specs.Prelude.{◌≡◌, ◌∷◌, [], ◌++◌, IfOk, codes, string_bytes};
ghost use Rattle.std.specs.Fmt.{signed_decimal};
ghost use Rattle.c_syntax.specs.Programs.{plain_refusal};
ghost use Rattle.c_model.specs.Reports.{broken_words, how_word, line_of, refused_words};
ghost use Rattle.eacsl_cli.specs.Answers.{IsSaid, change};

use crate::status;
use c_syntax::{How, Kind, Refusal};
use ea_ports::{Sink, SinkFault};
use mon_syntax::kind_word;
use std::alloc::{AllocError, Global};

fn how_word(how: How) -> &'static str
    ensures { result.now ≡ how_word how }
{
    match how {
        How::False => "false",
        How::Undefined => "undefined",
    }
}

/// The line of an exit with a value.
pub fn exit_line(alloc: Global, value: i128) -> Result<String, AllocError>
    ensures { IfOk result (λ line. string_bytes line ≡ line_of (codes "exit " ++ signed_decimal value)) }
{
    format!(in alloc; "eacsl: exit {value}\n")
}

/// The line of a broken annotation.
pub fn broken_line(
    alloc: Global,
    number: u32,
    line: u32,
    kind: Kind,
    how: How,
) -> Result<Vec<u8>, AllocError>
    ensures { IfOk result (λ text. text.items ≡ line_of (broken_words number line kind how)) }
{
    let front = format!(in alloc; "eacsl: annotation {number}, line {line}: ")?;
    let mut bytes = Vec::from_slice(alloc, front.as_bytes())?;
    bytes.extend_from_slice(kind_word(kind).as_bytes())?;
    bytes.extend_from_slice(b" is ")?;
    bytes.extend_from_slice(how_word(how).as_bytes())?;
    bytes.push(b'\n')?;
    Ok(bytes)
}

/// The line of a refused text.
pub fn refused_line(alloc: Global, refusal: &Refusal) -> Result<Vec<u8>, AllocError>
    ensures { IfOk result (λ line. line.items ≡ line_of (refused_words (plain_refusal refusal.now))) }
{
    let code = refusal.code;
    let line = refusal.place.line;
    let column = refusal.place.column;
    let front = format!(in alloc; "eacsl: refused E{code} at {line}:{column}: ")?;
    let mut bytes = Vec::from_slice(alloc, front.as_bytes())?;
    bytes.extend_from_slice(refusal.construct.bytes())?;
    bytes.push(b'\n')?;
    Ok(bytes)
}

/// Puts a line, and says with which status the program ends: the one given, or 8 where the sink failed, or 9 where
/// memory ran out.
pub fn say<E: Sink>(err: &mut E, line: &[u8], status: u8) -> u8
    ensures { IsSaid line.now status (change (E.told err.old) (E.told err.new) (E.faults err.old) (E.faults err.new)) result }
{
    match err.put(line) {
        Ok(()) => status,
        Err(SinkFault::Failed) => status::WRITE_FAULT,
        Err(SinkFault::Memory) => status::OUT_OF_MEMORY,
    }
}
