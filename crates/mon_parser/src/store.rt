//! Stores, with their marks.

ghost use Rattle.std.specs.Prelude.{◌≡◌, IfErr};
ghost use Rattle.mon_syntax.specs.Grammar.{marked_name, mark_end, number_mark, pointer_mark, store_mark, stored, store};
ghost use Rattle.mon_parser.specs.ParsedTrees.{plain_name, plain_stmt};
ghost use Rattle.mon_parser.specs.Reading.{stored_value, store_end};
ghost use Rattle.token_reader.specs.Reading.{Gives, TakesNoMemory, plain_list};

use crate::expression::{expression, pointed_type};
use crate::kinds::{
    ASSIGN, COMMA, INITIALIZE, INITIALIZE_POINTER, LEFT_PAREN, RIGHT_PAREN, SEMICOLON, TIMES,
};
use crate::parsed::{NameUse, ParsedStmt, ParsedStmtKind};
use crate::statement::ended;
use crate::terminals::{name, same_name, skip, this_number};
use c_syntax::fault::ReadFault;
use c_syntax::{Place, Token};
use mon_syntax::{MonType, Word, byte_count, is_pointer};
use std::alloc::Global;

/// `"(" NAME`, of this name.
#[tactic(auto, unfolding(mon_syntax::specs::Grammar::marked_name))]
fn marked_name<'a>(
    words: &[Word],
    x: NameUse,
    tokens: &'a [Token],
) -> Result<(Place, &'a [Token]), ReadFault>
    ensures read { Gives (λ x. (x.0, plain_list x.1.now)) result ((marked_name words.now (plain_name x)).parse (plain_list tokens.now)) }
    ensures sure { IfErr result TakesNoMemory }
{
    let (_, rest) = skip(words, LEFT_PAREN, tokens)?;
    same_name(x.number, rest)
}

/// `")" ";"`, after a store.
#[tactic(auto, unfolding(mon_syntax::specs::Grammar::mark_end))]
fn mark_end<'a>(
    words: &[Word],
    statement: ParsedStmt,
    tokens: &'a [Token],
) -> Result<(ParsedStmt, &'a [Token]), ReadFault>
    ensures read { Gives (λ x. (plain_stmt x.0, plain_list x.1.now)) result ((mark_end words.now (plain_stmt statement)).parse (plain_list tokens.now)) }
    ensures sure { IfErr result TakesNoMemory }
{
    let (_, rest) = skip(words, RIGHT_PAREN, tokens)?;
    ended(words, statement, rest)
}

/// The mark of a number, of so many bytes.
#[tactic(auto, unfolding(mon_syntax::specs::Grammar::number_mark))]
fn number_mark<'a>(
    words: &[Word],
    size: usize,
    x: NameUse,
    statement: ParsedStmt,
    tokens: &'a [Token],
) -> Result<(ParsedStmt, &'a [Token]), ReadFault>
    ensures read { Gives (λ x. (plain_stmt x.0, plain_list x.1.now)) result ((number_mark words.now size (plain_name x) (plain_stmt statement)).parse
        (plain_list tokens.now)) }
    ensures sure { IfErr result TakesNoMemory }
{
    let (_, rest) = skip(words, INITIALIZE, tokens)?;
    let (_, rest) = marked_name(words, x, rest)?;
    let (_, rest) = skip(words, COMMA, rest)?;
    let (_, rest) = this_number(size, rest)?;
    mark_end(words, statement, rest)
}

/// The mark of a pointer.
#[tactic(auto, unfolding(mon_syntax::specs::Grammar::pointer_mark))]
fn pointer_mark<'a>(
    words: &[Word],
    x: NameUse,
    statement: ParsedStmt,
    tokens: &'a [Token],
) -> Result<(ParsedStmt, &'a [Token]), ReadFault>
    ensures read { Gives (λ x. (plain_stmt x.0, plain_list x.1.now)) result ((pointer_mark words.now (plain_name x) (plain_stmt statement)).parse
        (plain_list tokens.now)) }
    ensures sure { IfErr result TakesNoMemory }
{
    let (_, rest) = skip(words, INITIALIZE_POINTER, tokens)?;
    let (_, rest) = marked_name(words, x, rest)?;
    mark_end(words, statement, rest)
}

/// The mark of a store of a type.
#[tactic(auto, unfolding(mon_syntax::specs::Grammar::store_mark))]
fn store_mark<'a>(
    words: &[Word],
    kind: MonType,
    x: NameUse,
    statement: ParsedStmt,
    tokens: &'a [Token],
) -> Result<(ParsedStmt, &'a [Token]), ReadFault>
    ensures read { Gives (λ x. (plain_stmt x.0, plain_list x.1.now)) result ((store_mark words.now kind (plain_name x) (plain_stmt statement)).parse
        (plain_list tokens.now)) }
    ensures sure { IfErr result TakesNoMemory }
{
    if is_pointer(kind) {
        pointer_mark(words, x, statement, tokens)
    } else {
        number_mark(words, byte_count(kind), x, statement, tokens)
    }
}

/// `";"` and the mark, after a store.
#[tactic(auto, unfolding(crate::specs::Reading::store_end))]
fn store_end<'a>(
    words: &[Word],
    kind: MonType,
    x: NameUse,
    statement: ParsedStmt,
    tokens: &'a [Token],
) -> Result<(ParsedStmt, &'a [Token]), ReadFault>
    ensures read { Gives (λ x. (plain_stmt x.0, plain_list x.1.now)) result ((store_end words.now kind (plain_name x) (plain_stmt statement)).parse
        (plain_list tokens.now)) }
    ensures sure { IfErr result TakesNoMemory }
{
    let (_, rest) = skip(words, SEMICOLON, tokens)?;
    store_mark(words, kind, x, statement, rest)
}

/// The value that is stored, and what stands after it, by the place of the `=`.
#[tactic(auto, unfolding(crate::specs::Reading::stored_value))]
fn stored_value<'a>(
    alloc: Global,
    words: &[Word],
    kind: MonType,
    x: NameUse,
    place: Place,
    tokens: &'a [Token],
) -> Result<(ParsedStmt, &'a [Token]), ReadFault>
    ensures { Gives (λ x. (plain_stmt x.0, plain_list x.1.now)) result ((stored_value words.now kind (plain_name x) place).parse (plain_list tokens.now)) }
{
    let (value, rest) = expression(alloc, words, tokens)?;
    let statement = ParsedStmt::new(alloc, ParsedStmtKind::Store(kind, x, place, value))?;
    store_end(words, kind, x, statement, rest)
}

/// After `"*" "(" type "*" ")" NAME`.
#[tactic(auto, unfolding(mon_syntax::specs::Grammar::stored, crate::specs::Reading::stored_value, crate::specs::Reading::store_end))]
fn stored<'a>(
    alloc: Global,
    words: &[Word],
    kind: MonType,
    x: NameUse,
    tokens: &'a [Token],
) -> Result<(ParsedStmt, &'a [Token]), ReadFault>
    ensures { Gives (λ x. (plain_stmt x.0, plain_list x.1.now)) result ((stored words.now kind (plain_name x)).parse (plain_list tokens.now)) }
{
    let (place, rest) = skip(words, ASSIGN, tokens)?;
    stored_value(alloc, words, kind, x, place, rest)
}

/// `"*" "(" type "*" ")" NAME "=" expr ";" mark`
#[tactic(auto, unfolding(mon_syntax::specs::Grammar::store))]
#[inline(never)]
pub fn store<'a>(
    alloc: Global,
    words: &[Word],
    tokens: &'a [Token],
) -> Result<(ParsedStmt, &'a [Token]), ReadFault>
    ensures { Gives (λ x. (plain_stmt x.0, plain_list x.1.now)) result ((store words.now).parse (plain_list tokens.now)) }
{
    let (_, rest) = skip(words, TIMES, tokens)?;
    let (_, rest) = skip(words, LEFT_PAREN, rest)?;
    let (kind, rest) = pointed_type(words, rest)?;
    let (x, rest) = name(words, rest)?;
    stored(alloc, words, kind, x, rest)
}
