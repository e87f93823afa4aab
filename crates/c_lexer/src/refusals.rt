//! Refusals, and those of a monitored text.

ghost use Rattle.std.specs.Prelude.{◌≡◌, ◌<◌, IfOk};
ghost use Rattle.c_model.specs.MonitoredTokens.{hex_digit, first_byte, code_of, word_of, refused};
ghost use Rattle.c_lexer.specs.Reading.{IsRefusal};

use c_model::monitored_tokens::Fault;
use c_syntax::{FrontFault, Name, Place, Refusal, code};
use std::alloc::{AllocError, Global};

fn hex_digit(digit: u8) -> u8
    requires { digit < 16 }
    ensures { result ≡ hex_digit digit }
{
    if digit < 10 { 48 + digit } else { 87 + digit }
}

/// The two hexadecimal digits of the first byte.
pub fn first_byte(alloc: Global, rest: &[u8]) -> Result<Vec<u8>, AllocError>
    ensures { IfOk result (λ v. v.items ≡ first_byte rest.now) }
{
    match rest {
        [] => Ok(Vec::new(alloc)),
        [b, ..] => Vec::from_slice(alloc, &[hex_digit(*b / 16), hex_digit(*b % 16)]),
    }
}

fn code_of(fault: Fault) -> u8
    ensures { result ≡ code_of fault }
{
    match fault {
        Fault::Byte => code::BYTE,
        Fault::Name | Fault::Number | Fault::Chars | Fault::Directive => code::TOKEN,
    }
}

/// The word of a fault, given the rest of the text from it on.
fn word_of(alloc: Global, fault: Fault, rest: &[u8]) -> Result<Vec<u8>, AllocError>
    ensures { IfOk result (λ v. v.items ≡ word_of fault rest.now) }
{
    match fault {
        Fault::Byte => first_byte(alloc, rest),
        Fault::Name => Vec::from_slice(alloc, b"name"),
        Fault::Number => Vec::from_slice(alloc, b"number"),
        Fault::Chars => Vec::from_slice(alloc, b"string"),
        Fault::Directive => Vec::from_slice(alloc, b"directive"),
    }
}

/// The refusal at a place, or that memory ran out.
pub fn refuse(alloc: Global, place: Place, fault: Fault, rest: &[u8]) -> FrontFault
    ensures { IsRefusal result (refused place fault rest.now) }
{
    match word_of(alloc, fault, rest) {
        Ok(word) => FrontFault::Refused(Refusal {
            code: code_of(fault),
            place,
            construct: Name::new(word),
        }),
        Err(_) => FrontFault::Memory,
    }
}
