//! Words before a declaration at file scope (C99 6.7.1).

ghost use Rattle.std.specs.Prelude.{◌≡◌, ◌<◌, length, IfOk, IfErr};
ghost use Rattle.grammar.specs.Syntax.{sees};
ghost use Rattle.c_model.specs.declared.declarations.Storage.TheVariants.{Nothing};
ghost use Rattle.c_model.specs.ExpressionGrammar.{kind};
ghost use Rattle.c_model.specs.DeclarationGrammar.{storage_words, storage_word, more_storage, file_spec};
ghost use Rattle.token_reader.specs.Reading.{Gives, TakesNoMemory, plain_list};
ghost use Rattle.c_declaration_parser.specs.Reading.{plain_definitions, plain_spec};

use crate::tagged::{Definitions, braced};
use c_expr_parser::kinds::{CONST, STATIC, TYPEDEF, kind};
use c_expr_parser::terminals::{kept, next_is, skip};
use c_expr_parser::types::{BaseType, consts};
use c_model::declarations::Storage;
use c_model::vocabulary::Word;
use c_syntax::Token;
use c_syntax::fault::ReadFault;
use std::alloc::Global;

/// How many braces may be open at once in the words before a declaration.
const MOST_OPEN: u32 = 200;

/// What stands before the declarators at file scope.
#[derive(Drop)]
pub struct FileSpec {
    pub storage: Storage,
    pub base: BaseType,
    pub definitions: Definitions,
}

/// Whether a word comes next that may stand before a type at file scope, after these words.
fn next_is_storage(words: &[Word], storage: Storage, tokens: &[Token]) -> bool
    ensures { result ≡ sees (kind words.now) (storage_words storage) (plain_list tokens.now) }
{
    match tokens {
        [] => false,
        [token, ..] => {
            let k = kind(words, token);
            match storage {
                Storage::Nothing => k == STATIC || k == TYPEDEF || k == CONST,
                Storage::Static | Storage::Typedef => k == CONST,
            }
        }
    }
}

/// The first of the words `static` and `typedef`, or `const`.
#[tactic(auto, unfolding(c_model::specs::DeclarationGrammar::storage_word))]
fn first_storage<'a>(
    words: &[Word],
    tokens: &'a [Token],
) -> Result<(Storage, &'a [Token]), ReadFault>
    ensures read { Gives (λ x. (x.0, plain_list x.1.now)) result ((storage_word words.now Nothing).parse (plain_list tokens.now)) }
    ensures shorter { IfOk result (λ x. length x.1.now < length tokens.now) }
    ensures sure { IfErr result TakesNoMemory }
{
    if next_is(words, STATIC, tokens) {
        let (_, rest) = skip(words, STATIC, tokens)?;
        Ok((Storage::Static, rest))
    } else if next_is(words, TYPEDEF, tokens) {
        let (_, rest) = skip(words, TYPEDEF, tokens)?;
        Ok((Storage::Typedef, rest))
    } else {
        let (_, rest) = skip(words, CONST, tokens)?;
        Ok((Storage::Nothing, rest))
    }
}

/// One more of these words.
#[tactic(auto, unfolding(c_model::specs::DeclarationGrammar::storage_word))]
fn storage_word<'a>(
    words: &[Word],
    storage: Storage,
    tokens: &'a [Token],
) -> Result<(Storage, &'a [Token]), ReadFault>
    ensures read { Gives (λ x. (x.0, plain_list x.1.now)) result ((storage_word words.now storage).parse (plain_list tokens.now)) }
    ensures shorter { IfOk result (λ x. length x.1.now < length tokens.now) }
    ensures sure { IfErr result TakesNoMemory }
{
    match storage {
        Storage::Nothing => first_storage(words, tokens),
        Storage::Static | Storage::Typedef => {
            let (_, rest) = skip(words, CONST, tokens)?;
            Ok((storage, rest))
        }
    }
}

/// The words after those that are read.
#[tactic(auto, using(crate::proofs::DeclarationSteps::storage_rules))]
fn more_storage<'a>(
    words: &[Word],
    storage: Storage,
    tokens: &'a [Token],
) -> Result<(Storage, &'a [Token]), ReadFault>
    ensures read { Gives (λ x. (x.0, plain_list x.1.now)) result ((more_storage words.now storage).parse (plain_list tokens.now)) }
    ensures sure { IfErr result TakesNoMemory }
{
    let mut storage = storage;
    let mut rest = tokens;
    'turn: while next_is_storage(words, storage, rest) {
        let (more, after) = storage_word(words, storage, rest)?;
        storage = more;
        rest = after;
    }
    Ok((storage, rest))
}

/// The words before the declarators at file scope, after these definitions.
#[tactic(auto, unfolding(c_model::specs::DeclarationGrammar::file_spec))]
pub fn file_spec<'a>(
    alloc: Global,
    words: &[Word],
    definitions: Definitions,
    tokens: &'a [Token],
) -> Result<(FileSpec, &'a [Token]), ReadFault>
    ensures { Gives (λ x. (plain_spec x.0, plain_list x.1.now)) result
        ((file_spec words.now (plain_definitions definitions)).parse (plain_list tokens.now)) }
{
    let (definitions, (storage, rest)) = kept(
        definitions,
        more_storage(words, Storage::Nothing, tokens),
    )?;
    let (base, definitions, rest) = braced(alloc, words, MOST_OPEN, definitions, rest)?;
    let (definitions, rest) = kept(definitions, consts(words, rest))?;
    let spec = FileSpec {
        storage,
        base,
        definitions,
    };
    Ok((spec, rest))
}
