//! The words of clauses, by which they are told apart (ACSL 2.3, 2.4.1).

ghost use Rattle.std.specs.Prelude.{◌≡◌, ◌<◌, length, IfOk, IfErr, [], ◌∷◌};
ghost use Rattle.grammar.specs.Syntax.{sees, one};
ghost use Rattle.c_syntax.specs.Tokens.{plain_token, plain_token_kind};
ghost use Rattle.c_model.specs.Terminals.{placed};
ghost use Rattle.c_model.specs.ClauseGrammar.{clause_word_of, clause_word, clause_word_kind, clause_kind, kind_in, cover_kind, kind_among};
ghost use Rattle.c_model.specs.ClauseGrammar.{first_in, first_own, first_cover, fixed_word};
ghost use Rattle.token_reader.specs.Reading.{Gives, TakesNoMemory, plain_list};

use crate::terminals::formula_kind;
use c_expr_parser::kinds::word_at;
use c_model::formulas::ClauseGroup;
use c_model::vocabulary::{ClauseWord, TypeName, Word};
use c_syntax::fault::ReadFault;
use c_syntax::{Kind, Place, Token, TokenKind};
use token_reader::terminals::left;

pub const ASSERT: u32 = 50;

pub const REQUIRES: u32 = 51;

pub const ASSUMES: u32 = 52;

pub const ENSURES: u32 = 53;

pub const BEHAVIOR: u32 = 54;

pub const COMPLETE: u32 = 55;

pub const DISJOINT: u32 = 56;

pub const BEHAVIORS: u32 = 57;

pub const LOOP: u32 = 58;

pub const ASSIGNS: u32 = 59;

pub const INVARIANT: u32 = 43;

pub const VARIANT: u32 = 44;

/// A clause that says a form, by its first word.
pub type KindRead<'a> = Result<(Kind, Place, &'a [Token]), ReadFault>;

fn clause_word_of(word: Word) -> Option<ClauseWord>
    ensures { result ≡ clause_word_of word }
{
    match word {
        Word::Clause(word) | Word::TypeName(TypeName::DeclaredClause(word)) => Some(word),
        _ => None,
    }
}

fn clause_word(words: &[Word], kind: &TokenKind) -> Option<ClauseWord>
    ensures { result ≡ clause_word words.now (plain_token_kind kind.now) }
{
    match kind {
        TokenKind::Word(number) => clause_word_of(word_at(words, *number)),
        _ => None,
    }
}

fn clause_word_kind(word: ClauseWord) -> u32
    ensures { result ≡ clause_word_kind word }
{
    match word {
        ClauseWord::Assert => ASSERT,
        ClauseWord::Requires => REQUIRES,
        ClauseWord::Assumes => ASSUMES,
        ClauseWord::Ensures => ENSURES,
        ClauseWord::Behavior => BEHAVIOR,
        ClauseWord::Complete => COMPLETE,
        ClauseWord::Disjoint => DISJOINT,
        ClauseWord::Behaviors => BEHAVIORS,
        ClauseWord::Assigns => ASSIGNS,
        ClauseWord::Loop => LOOP,
        ClauseWord::Invariant => INVARIANT,
        ClauseWord::Variant => VARIANT,
    }
}

/// The kind of a token where a clause may begin.
fn clause_kind(words: &[Word], token: &Token) -> u32
    ensures { result ≡ clause_kind words.now (plain_token token.now) }
{
    match clause_word(words, &token.kind) {
        Some(word) => clause_word_kind(word),
        None => formula_kind(words, token),
    }
}

/// Whether the word of clauses with this kind comes next.
pub fn next_is_word(words: &[Word], wanted: u32, tokens: &[Token]) -> bool
    ensures { result ≡ sees (clause_kind words.now) (wanted ∷ []) (plain_list tokens.now) }
{
    match tokens {
        [] => false,
        [token, ..] => clause_kind(words, token) == wanted,
    }
}

/// Whether a clause of the group comes next that says a form.
pub fn next_is_in(words: &[Word], group: ClauseGroup, tokens: &[Token]) -> bool
    ensures { result ≡ sees (clause_kind words.now) (first_in group) (plain_list tokens.now) }
{
    match tokens {
        [] => false,
        [token, ..] => {
            let kind = clause_kind(words, token);
            match group {
                ClauseGroup::Asserts => kind == ASSERT,
                ClauseGroup::Contract => kind == REQUIRES || kind == ENSURES,
                ClauseGroup::Behavior => kind == REQUIRES || kind == ASSUMES || kind == ENSURES,
                ClauseGroup::Loop => kind == INVARIANT || kind == VARIANT,
            }
        }
    }
}

/// Whether a clause of the group comes next, or one that is passed over.
pub fn next_is_own(words: &[Word], group: ClauseGroup, tokens: &[Token]) -> bool
    ensures { result ≡ sees (clause_kind words.now) (first_own group) (plain_list tokens.now) }
{
    match tokens {
        [] => false,
        [token, ..] => clause_kind(words, token) == ASSIGNS || next_is_in(words, group, tokens),
    }
}

/// Whether a clause comes next that names behaviors.
pub fn next_is_cover(words: &[Word], tokens: &[Token]) -> bool
    ensures { result ≡ sees (clause_kind words.now) first_cover (plain_list tokens.now) }
{
    match tokens {
        [] => false,
        [token, ..] => {
            let kind = clause_kind(words, token);
            kind == COMPLETE || kind == DISJOINT
        }
    }
}

fn kind_in(group: ClauseGroup, word: ClauseWord) -> Option<Kind>
    ensures { result ≡ kind_in group word }
{
    match (group, word) {
        (ClauseGroup::Asserts, ClauseWord::Assert) => Some(Kind::Assert),
        (ClauseGroup::Contract, ClauseWord::Requires) => Some(Kind::Requires),
        (ClauseGroup::Contract, ClauseWord::Ensures) => Some(Kind::Ensures),
        (ClauseGroup::Behavior, ClauseWord::Requires) => Some(Kind::Requires),
        (ClauseGroup::Behavior, ClauseWord::Assumes) => Some(Kind::Assumes),
        (ClauseGroup::Behavior, ClauseWord::Ensures) => Some(Kind::Ensures),
        (ClauseGroup::Loop, ClauseWord::Invariant) => Some(Kind::Invariant),
        (ClauseGroup::Loop, ClauseWord::Variant) => Some(Kind::Variant),
        _ => None,
    }
}

/// The first word of a clause of the group.
pub fn clause_kind_in<'a>(words: &[Word], group: ClauseGroup, tokens: &'a [Token]) -> KindRead<'a>
    ensures read { Gives (λ x. ((x.0, x.1), plain_list x.2.now)) result
        ((one (placed (kind_among words.now (kind_in group)))).parse (plain_list tokens.now)) }
    ensures shorter { IfOk result (λ x. length x.2.now < length tokens.now) }
    ensures sure { IfErr result TakesNoMemory }
{
    match tokens {
        [] => Err(ReadFault::At(0)),
        [token, rest @ ..] => match clause_word(words, &token.kind) {
            Some(word) => match kind_in(group, word) {
                Some(kind) => Ok((kind, token.place, rest)),
                None => Err(ReadFault::At(left(tokens))),
            },
            None => Err(ReadFault::At(left(tokens))),
        },
    }
}

fn cover_kind(word: ClauseWord) -> Option<Kind>
    ensures { result ≡ cover_kind word }
{
    match word {
        ClauseWord::Complete => Some(Kind::Complete),
        ClauseWord::Disjoint => Some(Kind::Disjoint),
        _ => None,
    }
}

/// The first word of a clause that names behaviors.
pub fn cover_word<'a>(words: &[Word], tokens: &'a [Token]) -> KindRead<'a>
    ensures read { Gives (λ x. ((x.0, x.1), plain_list x.2.now)) result
        ((one (placed (kind_among words.now cover_kind))).parse (plain_list tokens.now)) }
    ensures shorter { IfOk result (λ x. length x.2.now < length tokens.now) }
    ensures sure { IfErr result TakesNoMemory }
{
    match tokens {
        [] => Err(ReadFault::At(0)),
        [token, rest @ ..] => match clause_word(words, &token.kind) {
            Some(word) => match cover_kind(word) {
                Some(kind) => Ok((kind, token.place, rest)),
                None => Err(ReadFault::At(left(tokens))),
            },
            None => Err(ReadFault::At(left(tokens))),
        },
    }
}

/// The word of clauses with this kind, by its place.
pub fn fixed_word<'a>(
    words: &[Word],
    wanted: u32,
    tokens: &'a [Token],
) -> Result<(Place, &'a [Token]), ReadFault>
    ensures read { Gives (λ x. (x.0, plain_list x.1.now)) result ((fixed_word words.now wanted).parse (plain_list tokens.now)) }
    ensures shorter { IfOk result (λ x. length x.1.now < length tokens.now) }
    ensures sure { IfErr result TakesNoMemory }
{
    match tokens {
        [] => Err(ReadFault::At(0)),
        [token, rest @ ..] => match clause_word(words, &token.kind) {
            Some(word) => {
                if clause_word_kind(word) == wanted {
                    Ok((token.place, rest))
                } else {
                    Err(ReadFault::At(left(tokens)))
                }
            }
            None => Err(ReadFault::At(left(tokens))),
        },
    }
}
