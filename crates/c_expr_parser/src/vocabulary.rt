//! What the names of a text are (C99 6.4.1, 7.17).

ghost use Rattle.std.specs.Prelude.{◌≡◌, map, slice_set, IfOk};
ghost use Rattle.c_model.specs.Vocabulary.{keywords, kept_keywords, other_words, logic_words, name_or_logic, word_of, word_at, declared_word};
ghost use Rattle.c_expr_parser.specs.Levels.{with_types};
ghost use Rattle.c_model.specs.declared.vocabulary.LogicWord.TheVariants.{Kept};
ghost use Rattle.c_model.specs.Terminals.{found_in};

use crate::kinds::word_at;
use c_model::vocabulary::{ClauseWord, Keyword, LogicWord, TypeName, Word};
use c_syntax::logic::{BlockFact, MemoryQuestion, Quantifier};
use c_syntax::{CInt, Name};
use std::alloc::{AllocError, Global};
use token_reader::words::found_in;

fn keyword(bytes: &[u8], other: Word) -> Word
    ensures { result ≡ found_in keywords bytes.now other }
{
    found_in(
        &[
            (b"char", Word::Keyword(Keyword::Char)),
            (b"short", Word::Keyword(Keyword::Short)),
            (b"int", Word::Keyword(Keyword::Int)),
            (b"long", Word::Keyword(Keyword::Long)),
            (b"signed", Word::Keyword(Keyword::Signed)),
            (b"unsigned", Word::Keyword(Keyword::Unsigned)),
            (b"void", Word::Keyword(Keyword::Void)),
            (b"const", Word::Keyword(Keyword::Const)),
            (b"static", Word::Keyword(Keyword::Static)),
            (b"if", Word::Keyword(Keyword::If)),
            (b"else", Word::Keyword(Keyword::Else)),
            (b"while", Word::Keyword(Keyword::While)),
            (b"do", Word::Keyword(Keyword::Do)),
            (b"for", Word::Keyword(Keyword::For)),
            (b"break", Word::Keyword(Keyword::Break)),
            (b"continue", Word::Keyword(Keyword::Continue)),
            (b"return", Word::Keyword(Keyword::Return)),
            (b"sizeof", Word::Keyword(Keyword::Sizeof)),
            (b"struct", Word::Keyword(Keyword::Struct)),
            (b"enum", Word::Keyword(Keyword::Enum)),
            (b"typedef", Word::Keyword(Keyword::Typedef)),
            (b"switch", Word::Keyword(Keyword::Switch)),
            (b"case", Word::Keyword(Keyword::Case)),
            (b"default", Word::Keyword(Keyword::Default)),
        ],
        bytes,
        other,
    )
}

fn kept_keyword(bytes: &[u8], other: Word) -> Word
    ensures { result ≡ found_in kept_keywords bytes.now other }
{
    found_in(
        &[
            (b"auto", Word::Keyword(Keyword::Kept)),
            (b"register", Word::Keyword(Keyword::Kept)),
            (b"extern", Word::Keyword(Keyword::Kept)),
            (b"inline", Word::Keyword(Keyword::Kept)),
            (b"restrict", Word::Keyword(Keyword::Kept)),
            (b"volatile", Word::Keyword(Keyword::Kept)),
            (b"goto", Word::Keyword(Keyword::Kept)),
            (b"union", Word::Keyword(Keyword::Kept)),
            (b"float", Word::Keyword(Keyword::Kept)),
            (b"double", Word::Keyword(Keyword::Kept)),
            (b"_Bool", Word::Keyword(Keyword::Kept)),
            (b"_Complex", Word::Keyword(Keyword::Kept)),
            (b"_Imaginary", Word::Keyword(Keyword::Kept)),
        ],
        bytes,
        other,
    )
}

fn other_word(bytes: &[u8], other: Word) -> Word
    ensures { result ≡ found_in other_words bytes.now other }
{
    found_in(
        &[
            (b"size_t", Word::TypeName(TypeName::Library(CInt::U64))),
            (b"ptrdiff_t", Word::TypeName(TypeName::Library(CInt::I64))),
            (b"assert", Word::Clause(ClauseWord::Assert)),
            (b"integer", Word::Integer),
            (b"requires", Word::Clause(ClauseWord::Requires)),
            (b"assumes", Word::Clause(ClauseWord::Assumes)),
            (b"ensures", Word::Clause(ClauseWord::Ensures)),
            (b"behavior", Word::Clause(ClauseWord::Behavior)),
            (b"complete", Word::Clause(ClauseWord::Complete)),
            (b"disjoint", Word::Clause(ClauseWord::Disjoint)),
            (b"behaviors", Word::Clause(ClauseWord::Behaviors)),
            (b"assigns", Word::Clause(ClauseWord::Assigns)),
            (b"loop", Word::Clause(ClauseWord::Loop)),
            (b"invariant", Word::Clause(ClauseWord::Invariant)),
            (b"variant", Word::Clause(ClauseWord::Variant)),
        ],
        bytes,
        other,
    )
}

/// The word of annotations that begins with `\`, after which these bytes stand.
fn logic_word(bytes: &[u8]) -> LogicWord
    ensures { result ≡ found_in logic_words bytes.now Kept }
{
    found_in(
        &[
            (b"true", LogicWord::Truth(true)),
            (b"false", LogicWord::Truth(false)),
            (b"null", LogicWord::Null),
            (b"base_addr", LogicWord::Told(BlockFact::BaseAddr)),
            (b"block_length", LogicWord::Told(BlockFact::BlockLength)),
            (b"offset", LogicWord::Told(BlockFact::Offset)),
            (b"valid", LogicWord::Asks(MemoryQuestion::Valid)),
            (b"valid_read", LogicWord::Asks(MemoryQuestion::ValidRead)),
            (b"initialized", LogicWord::Asks(MemoryQuestion::Initialized)),
            (b"separated", LogicWord::Separated),
            (b"result", LogicWord::Result),
            (b"old", LogicWord::Old),
            (b"at", LogicWord::At),
            (b"forall", LogicWord::Quantifier(Quantifier::ForAll)),
            (b"exists", LogicWord::Quantifier(Quantifier::Exists)),
        ],
        bytes,
        LogicWord::Kept,
    )
}

/// A word of annotations alone, which begins with `\`, or a name.
fn name_or_logic(bytes: &[u8]) -> Word
    ensures { result ≡ name_or_logic bytes.now }
{
    match bytes {
        [92, rest @ ..] => Word::Logic(logic_word(rest)),
        _ => Word::Name,
    }
}

#[tactic(auto, unfolding(c_model::specs::Vocabulary::word_of))]
fn word_of(bytes: &[u8]) -> Word
    ensures { result ≡ word_of bytes.now }
{
    let other = name_or_logic(bytes);
    let other = other_word(bytes, other);
    let other = kept_keyword(bytes, other);
    keyword(bytes, other)
}

/// What names are, by their numbers.
pub fn vocabulary(alloc: Global, names: &[Name]) -> Result<Vec<Word>, AllocError>
    ensures { IfOk result (λ words. words.items ≡ map word_of names.now) }
{
    let mut words = Vec::new(alloc);
    for name in names {
        words.push(word_of(name.bytes()))?;
    }
    Ok(words)
}

/// What a word is once a `typedef` declares it (C99 6.7.7).
fn declared_word(word: Word) -> Word
    ensures { result ≡ declared_word word }
{
    match word {
        Word::Clause(word) => Word::TypeName(TypeName::DeclaredClause(word)),
        Word::Keyword(_) | Word::TypeName(_) | Word::Integer | Word::Logic(_) | Word::Name => {
            Word::TypeName(TypeName::Declared)
        }
    }
}

/// A name is that of a type from here on.
pub fn name_type(words: &mut Vec<Word>, number: u32)
    ensures { words.new.items ≡ slice_set words.old.items number (declared_word (word_at words.old.items number)) }
{
    let declared = declared_word(word_at(words.as_slice(), number));
    let number = number as usize;
    if number < words.len() {
        words[number] = declared;
    }
}

/// The words, where earlier `typedef`s declare these names.
pub fn with_types(words: Vec<Word>, types: &[u32]) -> Vec<Word>
    ensures { result.items ≡ with_types words.items types.now }
{
    let mut words = words;
    let mut rest = types;
    'turn: while let [number, after @ ..] = rest {
        name_type(&mut words, *number);
        rest = after;
    }
    words
}
