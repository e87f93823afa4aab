//! The refusal of a broken piece, or of one token too many.

ghost use Rattle.std.specs.Prelude.{◌≡◌, IfOk};
ghost use Rattle.c_model.specs.declared.c_tokens.Fault.TheVariants.{OutsideDirective};
ghost use Rattle.c_model.specs.CTokens.{code_of, word_of, refused};
ghost use Rattle.c_lexer.specs.Reading.{IsRefusal};

use super::directives::{directive_line, front_word};
use super::words::word;
use crate::refusals::first_byte;
use c_model::c_tokens::Fault;
use c_syntax::{FrontFault, Name, Place, Refusal, code};
use std::alloc::{AllocError, Global};

fn code_of(fault: Fault) -> u8
    ensures { result ≡ code_of fault }
{
    match fault {
        Fault::Byte => code::BYTE,
        Fault::Comment
        | Fault::Name
        | Fault::Number
        | Fault::Letter
        | Fault::Chars
        | Fault::Directive => code::TOKEN,
        Fault::OutsideWord | Fault::OutsideDirective => code::PROFILE,
        Fault::Limit => code::LIMIT,
    }
}

/// A `#` and the name of the directive that it begins.
fn directive_word(alloc: Global, rest: &[u8]) -> Result<Vec<u8>, AllocError>
    ensures { IfOk result (λ v. v.items ≡ word_of OutsideDirective rest.now) }
{
    let name = match rest {
        [] => front_word(directive_line(rest)),
        [_, behind @ ..] => front_word(directive_line(behind)),
    };
    let mut word = Vec::from_slice(alloc, b"#")?;
    word.extend_from_slice(name)?;
    Ok(word)
}

/// The word of a fault, given the rest of the text from it on.
fn word_of(alloc: Global, fault: Fault, rest: &[u8]) -> Result<Vec<u8>, AllocError>
    ensures { IfOk result (λ v. v.items ≡ word_of fault rest.now) }
{
    match fault {
        Fault::Byte => first_byte(alloc, rest),
        Fault::Comment => Vec::from_slice(alloc, b"comment"),
        Fault::Name => Vec::from_slice(alloc, b"name"),
        Fault::Number => Vec::from_slice(alloc, b"number"),
        Fault::Letter => Vec::from_slice(alloc, b"character"),
        Fault::Chars => Vec::from_slice(alloc, b"string"),
        Fault::Directive => Vec::from_slice(alloc, b"directive"),
        Fault::OutsideWord => Vec::from_slice(alloc, word(rest)),
        Fault::OutsideDirective => directive_word(alloc, rest),
        Fault::Limit => Vec::from_slice(alloc, b"tokens"),
    }
}

/// The refusal at a place, or that memory ran out.
pub fn refuse(alloc: Global, place: Place, fault: Fault, rest: &[u8]) -> FrontFault
    ensures { IsRefusal result (refused place fault rest.now) }
{
    match word_of(alloc, fault, rest) {
        Ok(word) => FrontFault::Refused(Refusal {
            code: code_of(fault),
            place,
            construct: Name::new(word),
        }),
        Err(_) => FrontFault::Memory,
    }
}
