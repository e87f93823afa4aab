//! Single tokens of annotations, and tests of the next one.

ghost use Rattle.std.specs.Prelude.{◌≡◌, ◌<◌, length, IfOk, IfErr, [], ◌∷◌};
ghost use Rattle.grammar.specs.Syntax.{sees, one};
ghost use Rattle.c_syntax.specs.Tokens.{plain_token};
ghost use Rattle.c_model.specs.Terminals.{placed};
ghost use Rattle.c_model.specs.ExpressionGrammar.{first_type, kinds_of};
ghost use Rattle.c_model.specs.AnnotationGrammar.{first_behind, formula_kind, formula_word_kind, formula_name_of};
ghost use Rattle.c_model.specs.AnnotationGrammar.{truth_word, truth_of, fact_word, fact_of, question_word, question_of};
ghost use Rattle.c_model.specs.AnnotationGrammar.{quantifier_word, quantifier_of, integer_word};
ghost use Rattle.token_reader.specs.Reading.{Gives, TakesNoMemory, plain_list};

use c_expr_parser::kinds::{ARROW, DOT, LEFT_BRACKET, NAME, kind, word_at, word_kind};
use c_expr_parser::terminals as c_terminals;
use c_model::vocabulary::{LogicWord, Word};
use c_syntax::fault::ReadFault;
use c_syntax::logic::{BlockFact, MemoryQuestion, Quantifier};
use c_syntax::{Place, Token, TokenKind};
use token_reader::terminals::left;

/// The kind of the word `integer` in annotations.
pub const INTEGER: u32 = 9;

fn formula_word_kind(word: Word) -> u32
    ensures { result ≡ formula_word_kind word }
{
    match word {
        Word::Integer => INTEGER,
        Word::Keyword(_) | Word::TypeName(_) | Word::Clause(_) | Word::Logic(_) | Word::Name => {
            word_kind(word)
        }
    }
}

/// The kind of a token of an annotation.
pub fn formula_kind(words: &[Word], token: &Token) -> u32
    ensures { result ≡ formula_kind words.now (plain_token token.now) }
{
    match &token.kind {
        TokenKind::Word(number) => formula_word_kind(word_at(words, *number)),
        TokenKind::Number(_, _)
        | TokenKind::Letter(_)
        | TokenKind::Chars(_)
        | TokenKind::Mark(_)
        | TokenKind::AnnotOpen
        | TokenKind::AnnotClose
        | TokenKind::Head(_, _) => kind(words, token),
    }
}

pub fn next_is(words: &[Word], wanted: u32, tokens: &[Token]) -> bool
    ensures { result ≡ sees (formula_kind words.now) (wanted ∷ []) (plain_list tokens.now) }
{
    match tokens {
        [] => false,
        [token, ..] => formula_kind(words, token) == wanted,
    }
}

/// Whether a postfix form goes on.
pub fn next_is_postfix(words: &[Word], tokens: &[Token]) -> bool
    ensures { result ≡ sees (formula_kind words.now) first_behind (plain_list tokens.now) }
{
    match tokens {
        [] => false,
        [token, ..] => {
            let kind = formula_kind(words, token);
            kind == LEFT_BRACKET || kind == DOT || kind == ARROW
        }
    }
}

/// Whether a punctuator of the table comes next.
#[tactic(auto, using(crate::proofs::FormulaTokens::sees_marks))]
pub fn next_is_marked<T: Copy>(words: &[Word], table: &[(u8, T)], tokens: &[Token]) -> bool
    ensures { result ≡ sees (formula_kind words.now) (kinds_of table.now) (plain_list tokens.now) }
{
    c_terminals::next_is_marked(words, table, tokens)
}

#[tactic(auto, using(crate::proofs::FormulaTokens::sees_type))]
pub fn next_begins_type(words: &[Word], tokens: &[Token]) -> bool
    ensures { result ≡ sees (formula_kind words.now) first_type (plain_list tokens.now) }
{
    c_terminals::next_begins_type(words, tokens)
}

/// A name, by its number.
pub fn formula_name<'a>(
    words: &[Word],
    tokens: &'a [Token],
) -> Result<(u32, Place, &'a [Token]), ReadFault>
    ensures read { Gives (λ x. ((x.0, x.1), plain_list x.2.now)) result ((one (placed (formula_name_of words.now))).parse (plain_list tokens.now)) }
    ensures shorter { IfOk result (λ x. length x.2.now < length tokens.now) }
    ensures sure { IfErr result TakesNoMemory }
{
    match tokens {
        [] => Err(ReadFault::At(0)),
        [token, rest @ ..] => match &token.kind {
            TokenKind::Word(number) => {
                if formula_word_kind(word_at(words, *number)) == NAME {
                    Ok((*number, token.place, rest))
                } else {
                    Err(ReadFault::At(left(tokens)))
                }
            }
            _ => Err(ReadFault::At(left(tokens))),
        },
    }
}

fn truth_word(word: Word) -> Option<bool>
    ensures { result ≡ truth_word word }
{
    match word {
        Word::Logic(LogicWord::Truth(value)) => Some(value),
        _ => None,
    }
}

/// `\true` or `\false`.
pub fn truth<'a>(
    words: &[Word],
    tokens: &'a [Token],
) -> Result<(bool, Place, &'a [Token]), ReadFault>
    ensures read { Gives (λ x. ((x.0, x.1), plain_list x.2.now)) result ((one (placed (truth_of words.now))).parse (plain_list tokens.now)) }
    ensures shorter { IfOk result (λ x. length x.2.now < length tokens.now) }
    ensures sure { IfErr result TakesNoMemory }
{
    match tokens {
        [] => Err(ReadFault::At(0)),
        [token, rest @ ..] => match &token.kind {
            TokenKind::Word(number) => match truth_word(word_at(words, *number)) {
                Some(value) => Ok((value, token.place, rest)),
                None => Err(ReadFault::At(left(tokens))),
            },
            _ => Err(ReadFault::At(left(tokens))),
        },
    }
}

fn fact_word(word: Word) -> Option<BlockFact>
    ensures { result ≡ fact_word word }
{
    match word {
        Word::Logic(LogicWord::Told(fact)) => Some(fact),
        _ => None,
    }
}

/// `\base_addr`, `\block_length` or `\offset`.
pub fn fact<'a>(
    words: &[Word],
    tokens: &'a [Token],
) -> Result<(BlockFact, Place, &'a [Token]), ReadFault>
    ensures read { Gives (λ x. ((x.0, x.1), plain_list x.2.now)) result ((one (placed (fact_of words.now))).parse (plain_list tokens.now)) }
    ensures shorter { IfOk result (λ x. length x.2.now < length tokens.now) }
    ensures sure { IfErr result TakesNoMemory }
{
    match tokens {
        [] => Err(ReadFault::At(0)),
        [token, rest @ ..] => match &token.kind {
            TokenKind::Word(number) => match fact_word(word_at(words, *number)) {
                Some(fact) => Ok((fact, token.place, rest)),
                None => Err(ReadFault::At(left(tokens))),
            },
            _ => Err(ReadFault::At(left(tokens))),
        },
    }
}

fn question_word(word: Word) -> Option<MemoryQuestion>
    ensures { result ≡ question_word word }
{
    match word {
        Word::Logic(LogicWord::Asks(question)) => Some(question),
        _ => None,
    }
}

/// `\valid`, `\valid_read` or `\initialized`.
pub fn question<'a>(
    words: &[Word],
    tokens: &'a [Token],
) -> Result<(MemoryQuestion, Place, &'a [Token]), ReadFault>
    ensures read { Gives (λ x. ((x.0, x.1), plain_list x.2.now)) result ((one (placed (question_of words.now))).parse (plain_list tokens.now)) }
    ensures shorter { IfOk result (λ x. length x.2.now < length tokens.now) }
    ensures sure { IfErr result TakesNoMemory }
{
    match tokens {
        [] => Err(ReadFault::At(0)),
        [token, rest @ ..] => match &token.kind {
            TokenKind::Word(number) => match question_word(word_at(words, *number)) {
                Some(question) => Ok((question, token.place, rest)),
                None => Err(ReadFault::At(left(tokens))),
            },
            _ => Err(ReadFault::At(left(tokens))),
        },
    }
}

fn quantifier_word(word: Word) -> Option<Quantifier>
    ensures { result ≡ quantifier_word word }
{
    match word {
        Word::Logic(LogicWord::Quantifier(quantifier)) => Some(quantifier),
        _ => None,
    }
}

/// `\forall` or `\exists`.
pub fn quantifier<'a>(
    words: &[Word],
    tokens: &'a [Token],
) -> Result<(Quantifier, Place, &'a [Token]), ReadFault>
    ensures read { Gives (λ x. ((x.0, x.1), plain_list x.2.now)) result ((one (placed (quantifier_of words.now))).parse (plain_list tokens.now)) }
    ensures shorter { IfOk result (λ x. length x.2.now < length tokens.now) }
    ensures sure { IfErr result TakesNoMemory }
{
    match tokens {
        [] => Err(ReadFault::At(0)),
        [token, rest @ ..] => match &token.kind {
            TokenKind::Word(number) => match quantifier_word(word_at(words, *number)) {
                Some(quantifier) => Ok((quantifier, token.place, rest)),
                None => Err(ReadFault::At(left(tokens))),
            },
            _ => Err(ReadFault::At(left(tokens))),
        },
    }
}

/// The word `integer`, by its place.
pub fn integer_word<'a>(
    words: &[Word],
    tokens: &'a [Token],
) -> Result<(Place, &'a [Token]), ReadFault>
    ensures read { Gives (λ x. (x.0, plain_list x.1.now)) result ((integer_word words.now).parse (plain_list tokens.now)) }
    ensures shorter { IfOk result (λ x. length x.1.now < length tokens.now) }
    ensures sure { IfErr result TakesNoMemory }
{
    match tokens {
        [] => Err(ReadFault::At(0)),
        [token, rest @ ..] => {
            if formula_kind(words, token) == INTEGER {
                Ok((token.place, rest))
            } else {
                Err(ReadFault::At(left(tokens)))
            }
        }
    }
}
