//! Initialisers (C99 6.7.8).

ghost use Rattle.std.specs.Prelude.{◌≡◌, map, cond, []};
ghost use Rattle.grammar.specs.Syntax.{among, sees};
ghost use Rattle.c_syntax.specs.Statements.{Many, plain_init};
ghost use Rattle.c_model.specs.ExpressionGrammar.{kind};
ghost use Rattle.c_model.specs.DeclarationGrammar.{first_item_of_list, initialisers, maybe_comma, next_item, item_once, more_items, listed};
ghost use Rattle.c_model.specs.DeclarationGrammar.{item_of_list, list_in, initialiser};
ghost use Rattle.token_reader.specs.Reading.{Gives, plain_list};

use c_expr_parser::full::full_expression_at;
use c_expr_parser::kinds::{COMMA, LEFT_BRACE, RIGHT_BRACE, kind};
use c_expr_parser::terminals::{begins_expression, next_is, skip};
use c_model::operands::Level;
use c_model::vocabulary::Word;
use c_syntax::fault::{Limit, ReadFault};
use c_syntax::{Init, Place, Token};
use std::alloc::Global;
use token_reader::terminals::left;

/// How many braces may be open at once in an initialiser.
const MOST_OPEN: u32 = 200;

fn begins_item_of_list(kind: u32) -> bool
    ensures { result ≡ among kind first_item_of_list }
{
    kind == LEFT_BRACE || begins_expression(kind)
}

/// Whether a list goes on, after a comma or without one.
fn next_goes_on(words: &[Word], comma: bool, tokens: &[Token]) -> bool
    ensures { result ≡ sees (kind words.now) (cond comma first_item_of_list []) (plain_list tokens.now) }
{
    if !comma {
        return false;
    }
    match tokens {
        [] => false,
        [token, ..] => begins_item_of_list(kind(words, token)),
    }
}

/// `[ "," ]`, behind these items.
#[tactic(auto, unfolding(c_model::specs::DeclarationGrammar::maybe_comma))]
fn maybe_comma<'a>(
    words: &[Word],
    all: Vec<Init>,
    tokens: &'a [Token],
) -> Result<(Vec<Init>, bool, &'a [Token]), ReadFault>
    ensures read { Gives (λ x. ((map plain_init x.0.items, x.1), plain_list x.2.now)) result
        ((maybe_comma words.now (map plain_init all.items)).parse (plain_list tokens.now)) }
{
    if next_is(words, COMMA, tokens) {
        let (_, rest) = skip(words, COMMA, tokens)?;
        Ok((all, true, rest))
    } else {
        Ok((all, false, tokens))
    }
}

/// `assign | list`
#[tactic(auto, unfolding(c_model::specs::DeclarationGrammar::item_of_list))]
#[cycle(initialiser)]
fn item_of_list<'a>(
    alloc: Global,
    words: &[Word],
    levels: u32,
    tokens: &'a [Token],
) -> Result<(Init, &'a [Token]), ReadFault>
    ensures { Gives (λ x. (plain_init x.0, plain_list x.1.now)) result
        ((item_of_list words.now (list_in words.now levels)).parse (plain_list tokens.now)) }
{
    if next_is(words, LEFT_BRACE, tokens) {
        list_in(alloc, words, levels, tokens)
    } else {
        let (e, rest) = full_expression_at(alloc, words, Level::Assignment, tokens)?;
        Ok((Init::One(e), rest))
    }
}

/// An item, and the comma behind it if there is one.
#[tactic(auto, unfolding(c_model::specs::DeclarationGrammar::next_item))]
#[cycle(initialiser)]
fn next_item<'a>(
    alloc: Global,
    words: &[Word],
    levels: u32,
    all: Vec<Init>,
    tokens: &'a [Token],
) -> Result<(Vec<Init>, bool, &'a [Token]), ReadFault>
    ensures { Gives (λ x. ((map plain_init x.0.items, x.1), plain_list x.2.now)) result
        ((next_item words.now (item_of_list words.now (list_in words.now levels)) (map plain_init all.items)).parse (plain_list tokens.now)) }
{
    let mut all = all;
    let (one, rest) = item_of_list(alloc, words, levels, tokens)?;
    all.push(one)?;
    maybe_comma(words, all, rest)
}

/// The same, where a comma stands before it.
#[tactic(auto, unfolding(c_model::specs::DeclarationGrammar::item_once))]
#[cycle(initialiser)]
fn item_once<'a>(
    alloc: Global,
    words: &[Word],
    levels: u32,
    all: Vec<Init>,
    comma: bool,
    tokens: &'a [Token],
) -> Result<(Vec<Init>, bool, &'a [Token]), ReadFault>
    ensures { Gives (λ x. ((map plain_init x.0.items, x.1), plain_list x.2.now)) result
        ((item_once words.now (item_of_list words.now (list_in words.now levels)) (map plain_init all.items, comma)).parse (plain_list tokens.now)) }
{
    if comma {
        next_item(alloc, words, levels, all, tokens)
    } else {
        Err(ReadFault::At(left(tokens)))
    }
}

/// The items after those that are read.
#[tactic(auto, using(crate::proofs::DeclarationSteps::inits_rules))]
#[cycle(initialiser)]
fn more_items<'a>(
    alloc: Global,
    words: &[Word],
    levels: u32,
    all: Vec<Init>,
    comma: bool,
    tokens: &'a [Token],
) -> Result<(Vec<Init>, bool, &'a [Token]), ReadFault>
    ensures { Gives (λ x. ((map plain_init x.0.items, x.1), plain_list x.2.now)) result
        ((more_items words.now first_item_of_list (item_of_list words.now (list_in words.now levels)) (map plain_init all.items, comma)).parse
        (plain_list tokens.now)) }
{
    let mut all = all;
    let mut comma = comma;
    let mut rest = tokens;
    'turn: while next_goes_on(words, comma, rest) {
        let (more, next, after) = item_once(alloc, words, levels, all, comma, rest)?;
        all = more;
        comma = next;
        rest = after;
    }
    Ok((all, comma, rest))
}

/// `item { "," item } [ "," ] "}"`
#[tactic(auto, unfolding(c_model::specs::DeclarationGrammar::listed))]
#[cycle(initialiser)]
fn listed<'a>(
    alloc: Global,
    words: &[Word],
    levels: u32,
    tokens: &'a [Token],
) -> Result<(Vec<Init>, &'a [Token]), ReadFault>
    ensures { Gives (λ x. (map plain_init x.0.items, plain_list x.1.now)) result
        ((listed words.now first_item_of_list (item_of_list words.now (list_in words.now levels))).parse (plain_list tokens.now)) }
{
    let (all, comma, rest) = next_item(alloc, words, levels, Vec::new(alloc), tokens)?;
    let (all, _, rest) = more_items(alloc, words, levels, all, comma, rest)?;
    let (_, rest) = skip(words, RIGHT_BRACE, rest)?;
    Ok((all, rest))
}

fn make_list(place: Place, all: Vec<Init>) -> Init
    ensures { plain_init result ≡ Many place (initialisers (map plain_init all.items)) }
{
    Init::Many(place, all)
}

/// A list in which braces are open at most so many levels at once, its own included.
#[tactic(auto, using(crate::proofs::DeclarationSteps::list_rules), unfolding(c_model::specs::DeclarationGrammar::list_of))]
#[cycle(initialiser)]
fn list_in<'a>(
    alloc: Global,
    words: &[Word],
    levels: u32,
    tokens: &'a [Token],
) -> Result<(Init, &'a [Token]), ReadFault>
    ensures { Gives (λ x. (plain_init x.0, plain_list x.1.now)) result ((list_in words.now levels).parse (plain_list tokens.now)) }
{
    if levels == 0 {
        return if next_is(words, LEFT_BRACE, tokens) {
            Err(ReadFault::Over(Limit::Nesting, left(tokens)))
        } else {
            Err(ReadFault::At(left(tokens)))
        };
    }
    let levels = levels - 1;
    let (place, rest) = skip(words, LEFT_BRACE, tokens)?;
    let (all, rest) = listed(alloc, words, levels, rest)?;
    Ok((make_list(place, all), rest))
}

/// `assign | list`
#[tactic(auto, unfolding(c_model::specs::DeclarationGrammar::initialiser))]
pub fn initialiser<'a>(
    alloc: Global,
    words: &[Word],
    tokens: &'a [Token],
) -> Result<(Init, &'a [Token]), ReadFault>
    ensures { Gives (λ x. (plain_init x.0, plain_list x.1.now)) result ((initialiser words.now).parse (plain_list tokens.now)) }
{
    if next_is(words, LEFT_BRACE, tokens) {
        list_in(alloc, words, MOST_OPEN, tokens)
    } else {
        let (e, rest) = full_expression_at(alloc, words, Level::Assignment, tokens)?;
        Ok((Init::One(e), rest))
    }
}
