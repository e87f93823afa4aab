//! What is read of a text so far.

ghost use Rattle.std.specs.Prelude.{◌≡◌, ◌+◌, OnOk, vec_len};
ghost use Rattle.c_syntax.specs.Tokens.{plain_token_kind};
ghost use Rattle.c_model.specs.MonitoredTokens.{put};
ghost use Rattle.c_lexer.specs.Reading.{seen, read_of};

use c_syntax::{Place, Token, TokenKind};
use indexmap::IndexSet;
use std::alloc::AllocError;

/// The tokens, and the names in order of first use.
#[derive(Drop)]
pub struct Reading {
    pub list: Vec<Token>,
    pub names: IndexSet<Vec<u8>>,
}

/// Adds a token.
pub fn put(reading: &mut Reading, place: Place, kind: TokenKind) -> Result<(), AllocError>
    ensures ok { OnOk result (read_of reading.new ≡ put (read_of reading.old) place (plain_token_kind kind)) }
    ensures names { OnOk result (seen reading.new.names ≡ seen reading.old.names) }
    ensures counted { OnOk result (vec_len reading.new.list ≡ vec_len reading.old.list + 1) }
{
    reading.list.push(Token { place, kind })?;
    Ok(())
}
