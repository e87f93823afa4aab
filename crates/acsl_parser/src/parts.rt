//! Operators and relations, and what joins the parts of forms (ACSL 2.2, 2.7).

ghost use Rattle.std.specs.Prelude.{◌≡◌, ◌<◌, length, map, option_map, IfOk, IfErr};
ghost use Rattle.c_syntax.specs.Formulas.{plain_form, plain_form_links, plain_form_zone, plain_form_zones, Linked};
ghost use Rattle.grammar.specs.Syntax.{one, sees};
ghost use Rattle.c_model.specs.ExpressionGrammar.{kinds_of};
ghost use Rattle.c_model.specs.Terminals.{placed, mark_entry};
ghost use Rattle.c_model.specs.AnnotationGrammar.{formula_kind, unended_kinds, relations_behind, joined_forms, chained, zone_of, zones_of};
ghost use Rattle.c_model.specs.AnnotationGrammar.{quantifier_end, dotted, pointed};
ghost use Rattle.acsl_parser.specs.Reading.{operators, plain_range, plain_spanned};
ghost use Rattle.token_reader.specs.Reading.{Gives, TakesNoMemory, plain_list};

use crate::atoms::{read_form, with_form};
use crate::span::{Read, Span};
use crate::tables::{Level, operators, relations_behind};
use crate::terminals::next_is_marked;
use c_expr_parser::kinds::{ARROW, DOT};
use c_expr_parser::terminals::{any_name, kept, skip};
use c_model::formulas::{ChainDirection, FormulaOperator};
use c_model::vocabulary::Word;
use c_syntax::fault::ReadFault;
use c_syntax::logic::{Formula, FormulaKind, FormulaLinks, FormulaZone, FormulaZones};
use c_syntax::{Place, Relation, Token};
use std::alloc::{AllocError, Global};
use token_reader::terminals::marked;

/// An operator of the level.
pub fn operator(
    level: Level,
    tokens: &[Token],
) -> Result<(FormulaOperator, Place, &[Token]), ReadFault>
    ensures read { Gives (λ x. ((x.0, x.1), plain_list x.2.now)) result ((one (placed (mark_entry (operators level)))).parse (plain_list tokens.now)) }
    ensures shorter { IfOk result (λ x. length x.2.now < length tokens.now) }
    ensures sure { IfErr result TakesNoMemory }
{
    marked(operators(level), tokens)
}

fn next_is_operator(words: &[Word], level: Level, tokens: &[Token]) -> bool
    ensures { result ≡ sees (formula_kind words.now) (kinds_of (operators level)) (plain_list tokens.now) }
{
    next_is_marked(words, operators(level), tokens)
}

/// Whether an operator of the level goes on behind a form that this ends.
#[tactic(auto, using(crate::proofs::Turns::sees_nothing))]
pub fn next_joins(words: &[Word], level: Level, range: &Option<Span>, tokens: &[Token]) -> bool
    ensures { result ≡ sees (formula_kind words.now) (unended_kinds (kinds_of (operators level)) (tt {0}, option_map plain_range range.now))
        (plain_list tokens.now) }
{
    match range {
        None => next_is_operator(words, level, tokens),
        Some(_) => false,
    }
}

/// Two forms and what joins them.
pub fn joined_forms(
    alloc: Global,
    operator: FormulaOperator,
    place: Place,
    left: Formula,
    right: Formula,
) -> Result<Formula, AllocError>
    ensures { IfOk result (λ f. plain_form f ≡ joined_forms (operator, place) (plain_form left) (plain_form right)) }
{
    match operator {
        FormulaOperator::Term(op) => read_form(alloc, place, FormulaKind::Binary(op, left, right)),
        FormulaOperator::Predicate(connective) => read_form(
            alloc,
            place,
            FormulaKind::Connected(connective, left, right),
        ),
    }
}

/// A relation with which a chain goes on.
pub fn relation(
    direction: ChainDirection,
    tokens: &[Token],
) -> Result<(Relation, Place, &[Token]), ReadFault>
    ensures read { Gives (λ x. ((x.0, x.1), plain_list x.2.now)) result
        ((one (placed (mark_entry (relations_behind direction)))).parse (plain_list tokens.now)) }
    ensures shorter { IfOk result (λ x. length x.2.now < length tokens.now) }
    ensures sure { IfErr result TakesNoMemory }
{
    marked(relations_behind(direction), tokens)
}

pub fn next_is_relation(words: &[Word], direction: ChainDirection, tokens: &[Token]) -> bool
    ensures { result ≡ sees (formula_kind words.now) (kinds_of (relations_behind direction)) (plain_list tokens.now) }
{
    next_is_marked(words, relations_behind(direction), tokens)
}

/// A relation with the operand after it, and those that go on with them.
pub fn link(
    alloc: Global,
    place: Place,
    relation: Relation,
    x: Formula,
    more: FormulaLinks,
) -> Result<FormulaLinks, AllocError>
    ensures { IfOk result (λ all. plain_form_links all ≡ Linked place relation (plain_form x) (plain_form_links more)) }
{
    Ok(FormulaLinks::Link(place, relation, x, Box::new(alloc, more)?))
}

/// A form and the relations after it.
pub fn chained(alloc: Global, left: Formula, links: FormulaLinks) -> Result<Formula, AllocError>
    ensures { IfOk result (λ f. plain_form f ≡ chained (plain_form left) (plain_form_links links)) }
{
    match links {
        FormulaLinks::End => Ok(left),
        FormulaLinks::Link(place, relation, x, rest) => {
            let links = FormulaLinks::Link(place, relation, x, rest);
            read_form(alloc, place, FormulaKind::Chain(left, links))
        }
    }
}

/// `"." ANYNAME`, after a form.
#[tactic(auto, unfolding(c_model::specs::AnnotationGrammar::dotted))]
pub fn dotted<'a>(
    alloc: Global,
    words: &[Word],
    x: Formula,
    tokens: &'a [Token],
) -> Read<'a, Formula>
    ensures read { Gives (λ x. (plain_form x.0, plain_list x.1.now)) result ((dotted words.now (plain_form x)).parse (plain_list tokens.now)) }
    ensures shorter { IfOk result (λ x. length x.1.now < length tokens.now) }
{
    let (x, (place, rest)) = kept(x, skip(words, DOT, tokens))?;
    let (x, (member, _, rest)) = kept(x, any_name(words, rest))?;
    with_form(alloc, place, FormulaKind::Dot(x, member), rest)
}

/// `"->" ANYNAME`, after a form.
#[tactic(auto, unfolding(c_model::specs::AnnotationGrammar::pointed))]
pub fn pointed<'a>(
    alloc: Global,
    words: &[Word],
    x: Formula,
    tokens: &'a [Token],
) -> Read<'a, Formula>
    ensures read { Gives (λ x. (plain_form x.0, plain_list x.1.now)) result ((pointed words.now (plain_form x)).parse (plain_list tokens.now)) }
    ensures shorter { IfOk result (λ x. length x.1.now < length tokens.now) }
{
    let (x, (place, rest)) = kept(x, skip(words, ARROW, tokens))?;
    let (x, (member, _, rest)) = kept(x, any_name(words, rest))?;
    with_form(alloc, place, FormulaKind::Arrow(x, member), rest)
}

/// The zone of a form and what ends it.
pub fn zone_of(form: Formula, range: Option<Span>) -> FormulaZone
    ensures { plain_form_zone result ≡ zone_of (plain_spanned (form, range)) }
{
    match range {
        None | Some(Span::Quantifier) => FormulaZone::Object(form),
        Some(Span::Range(place, lo, hi)) => FormulaZone::Elements(place, form, lo, hi),
    }
}

/// What ends a quantifier, by what ends its form.
pub fn quantifier_end(end: Option<Span>) -> Span
    ensures { plain_range result ≡ quantifier_end (option_map plain_range end) }
{
    match end {
        None => Span::Quantifier,
        Some(end) => end,
    }
}

/// Zones in their order.
#[tactic(auto, using(crate::proofs::Zones::before_none))]
pub fn zones_of(alloc: Global, zones: Vec<FormulaZone>) -> Result<FormulaZones, AllocError>
    ensures { IfOk result (λ all. plain_form_zones all ≡ zones_of (map plain_form_zone zones.items)) }
{
    let mut zones = zones;
    let mut all = FormulaZones::End;
    'turn: while let Some(zone) = zones.pop() {
        all = FormulaZones::More(zone, Box::new(alloc, all)?);
    }
    Ok(all)
}
