//! How many tokens are left, and punctuators by tables.

ghost use Rattle.std.specs.Prelude.{◌≡◌, ◌<◌, length, IfOk, IfErr};
ghost use Rattle.grammar.specs.Syntax.{one};
ghost use Rattle.c_syntax.specs.Tokens.{plain_token_kind};
ghost use Rattle.c_model.specs.Terminals.{placed, entry, mark_entry};
ghost use Rattle.token_reader.specs.Reading.{Gives, TakesNoMemory, plain_list};

use c_syntax::fault::ReadFault;
use c_syntax::{Place, Token, TokenKind};

/// How many tokens are left.
pub fn left(tokens: &[Token]) -> usize
    ensures { result ≡ length (plain_list tokens.now) }
{
    tokens.len()
}

/// What stands in the table for a punctuator.
fn entry<T: Copy>(mark: u8, table: &[(u8, T)]) -> Option<T>
    ensures { result ≡ entry mark table.now }
{
    let mut rest = table;
    'turn: while let [entry, after @ ..] = rest {
        if mark == entry.0 {
            return Some(entry.1);
        }
        rest = after;
    }
    None
}

fn mark_entry<T: Copy>(table: &[(u8, T)], kind: &TokenKind) -> Option<T>
    ensures { result ≡ mark_entry table.now (plain_token_kind kind.now) }
{
    match kind {
        TokenKind::Mark(mark) => entry(*mark, table),
        _ => None,
    }
}

/// A punctuator of the table, by what it stands for.
pub fn marked<'a, T: Copy>(
    table: &[(u8, T)],
    tokens: &'a [Token],
) -> Result<(T, Place, &'a [Token]), ReadFault>
    ensures read { Gives (λ x. ((x.0, x.1), plain_list x.2.now)) result ((one (placed (mark_entry table.now))).parse (plain_list tokens.now)) }
    ensures shorter { IfOk result (λ x. length x.2.now < length tokens.now) }
    ensures sure { IfErr result TakesNoMemory }
{
    match tokens {
        [] => Err(ReadFault::At(0)),
        [token, rest @ ..] => match mark_entry(table, &token.kind) {
            Some(found) => Ok((found, token.place, rest)),
            None => Err(ReadFault::At(left(tokens))),
        },
    }
}
