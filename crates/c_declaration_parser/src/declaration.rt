//! Declarations (C99 6.7).

ghost use Rattle.std.specs.Prelude.{map};
ghost use Rattle.c_syntax.specs.Statements.{plain_decl, plain_item};
ghost use Rattle.c_model.specs.DeclarationGrammar.{initialised, declared_once, next_declared, more_declared, declared_list, declaration};
ghost use Rattle.c_expr_parser.specs.Reading.{plain_base};
ghost use Rattle.token_reader.specs.Reading.{Gives, plain_list};
ghost use Rattle.c_declaration_parser.specs.Reading.{plain_declarator, other_declared};

use crate::declarator::{Declarator, declared_by, full_dtor};
use crate::initialiser::initialiser;
use c_expr_parser::kinds::{ASSIGN, COMMA, SEMICOLON};
use c_expr_parser::terminals::{kept, next_is, skip};
use c_expr_parser::types::{BaseType, ctype_of, type_words};
use c_model::declarations::Named;
use c_model::vocabulary::Word;
use c_syntax::fault::ReadFault;
use c_syntax::{Decl, Item, Token};
use std::alloc::Global;

/// `[ "=" init ]`, after a declarator.
#[tactic(auto, unfolding(c_model::specs::DeclarationGrammar::initialised))]
pub fn initialised<'a>(
    alloc: Global,
    words: &[Word],
    base: BaseType,
    d: Declarator,
    tokens: &'a [Token],
) -> Result<(Decl, &'a [Token]), ReadFault>
    ensures { Gives (λ x. (plain_decl x.0, plain_list x.1.now)) result
        ((initialised words.now (plain_base base) (plain_declarator d)).parse (plain_list tokens.now)) }
{
    if next_is(words, ASSIGN, tokens) {
        let (d, (equals, rest)) = kept(d, skip(words, ASSIGN, tokens))?;
        let (d, (init, rest)) = kept(d, initialiser(alloc, words, rest))?;
        Ok((declared_by(alloc, base, d, Some((equals, init)))?, rest))
    } else {
        Ok((declared_by(alloc, base, d, None)?, tokens))
    }
}

/// `dtor [ "=" init ]`, after these of the same declaration.
#[tactic(auto, unfolding(c_model::specs::DeclarationGrammar::declared_once))]
fn declared_once<'a>(
    alloc: Global,
    words: &[Word],
    base: BaseType,
    all: Vec<Decl>,
    tokens: &'a [Token],
) -> Result<(Vec<Decl>, &'a [Token]), ReadFault>
    ensures { Gives (λ x. (map plain_decl x.0.items, plain_list x.1.now)) result
        ((declared_once words.now (plain_base base) (map plain_decl all.items)).parse (plain_list tokens.now)) }
{
    let mut all = all;
    let (d, rest) = full_dtor(alloc, words, Named::Ordinary, tokens)?;
    let (one, rest) = initialised(alloc, words, base, d, rest)?;
    all.push(one)?;
    Ok((all, rest))
}

/// `"," declared`
#[tactic(auto, unfolding(c_model::specs::DeclarationGrammar::next_declared))]
fn next_declared<'a>(
    alloc: Global,
    words: &[Word],
    base: BaseType,
    all: Vec<Decl>,
    tokens: &'a [Token],
) -> Result<(Vec<Decl>, &'a [Token]), ReadFault>
    ensures { Gives (λ x. (map plain_decl x.0.items, plain_list x.1.now)) result
        ((next_declared words.now (plain_base base) (map plain_decl all.items)).parse (plain_list tokens.now)) }
{
    let (_, rest) = skip(words, COMMA, tokens)?;
    declared_once(alloc, words, base, all, rest)
}

/// What the same declaration declares after those that are read.
#[tactic(auto, using(crate::proofs::DeclarationSteps::declared_rules))]
fn other_declared<'a>(
    alloc: Global,
    words: &[Word],
    base: BaseType,
    all: Vec<Decl>,
    tokens: &'a [Token],
) -> Result<(Vec<Decl>, &'a [Token]), ReadFault>
    ensures { Gives (λ x. (map plain_decl x.0.items, plain_list x.1.now)) result
        ((other_declared words.now (plain_base base) (map plain_decl all.items)).parse (plain_list tokens.now)) }
{
    let mut all = all;
    let mut rest = tokens;
    'turn: while next_is(words, COMMA, rest) {
        let (more, after) = next_declared(alloc, words, base, all, rest)?;
        all = more;
        rest = after;
    }
    Ok((all, rest))
}

/// `{ "," declared } ";"`, after these.
#[tactic(auto, unfolding(c_model::specs::DeclarationGrammar::more_declared, c_model::specs::DeclarationGrammar::ended, crate::specs::Reading::other_declared))]
pub fn more_declared<'a>(
    alloc: Global,
    words: &[Word],
    base: BaseType,
    all: Vec<Decl>,
    tokens: &'a [Token],
) -> Result<(Vec<Decl>, &'a [Token]), ReadFault>
    ensures { Gives (λ x. (map plain_decl x.0.items, plain_list x.1.now)) result
        ((more_declared words.now (plain_base base) (map plain_decl all.items)).parse (plain_list tokens.now)) }
{
    let (all, rest) = other_declared(alloc, words, base, all, tokens)?;
    let (_, rest) = skip(words, SEMICOLON, rest)?;
    Ok((all, rest))
}

/// `[ declared { "," declared } ] ";"`, after the words for a type.
#[tactic(auto, unfolding(c_model::specs::DeclarationGrammar::declared_list))]
fn declared_list<'a>(
    alloc: Global,
    words: &[Word],
    base: BaseType,
    tokens: &'a [Token],
) -> Result<(Item, &'a [Token]), ReadFault>
    ensures { Gives (λ x. (plain_item x.0, plain_list x.1.now)) result
        ((declared_list words.now (plain_base base)).parse (plain_list tokens.now)) }
{
    if next_is(words, SEMICOLON, tokens) {
        let (place, rest) = skip(words, SEMICOLON, tokens)?;
        Ok((Item::Specify(place, ctype_of(base)), rest))
    } else {
        let (all, rest) = declared_once(alloc, words, base, Vec::new(alloc), tokens)?;
        let (all, rest) = more_declared(alloc, words, base, all, rest)?;
        Ok((Item::Declare(all), rest))
    }
}

/// A declaration in a function.
#[tactic(auto, unfolding(c_model::specs::DeclarationGrammar::declaration))]
pub fn declaration<'a>(
    alloc: Global,
    words: &[Word],
    tokens: &'a [Token],
) -> Result<(Item, &'a [Token]), ReadFault>
    ensures { Gives (λ x. (plain_item x.0, plain_list x.1.now)) result ((declaration words.now).parse (plain_list tokens.now)) }
{
    let (base, rest) = type_words(words, tokens)?;
    declared_list(alloc, words, base, rest)
}
