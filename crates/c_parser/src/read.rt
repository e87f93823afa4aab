//! From the tokens of a text of annotated C to its tree, or to its refusal.

ghost use Rattle.std.specs.Prelude.{◌≡◌, ℕ, List, option_map, MatchResult};
ghost use Rattle.grammar.specs.Exact.{AtMostOne, ReadingsBegin, FrontsBegin, OneLimit};
ghost use Rattle.c_syntax.specs.Tokens.{plain_tokens};
ghost use Rattle.c_syntax.specs.Programs.{StringLiteral, plain_program};
ghost use Rattle.c_model.specs.Vocabulary.{Vocabulary};
ghost use Rattle.c_model.specs.ProgramGrammar.{unit};
ghost use Rattle.c_model.specs.Phases.{place_fault, unguarded_fault, IsRead};
ghost use Rattle.c_parser.specs.Answers.{plain_fault, Refuses};

use crate::fault::PlaceFault;
use crate::names::copy_names;
use crate::program::{make_unit, more_external, no_parts};
use crate::texts::texts_of;
use c_expr_parser::vocabulary::vocabulary;
use c_syntax::fault::ReadFault;
use c_syntax::{FrontFault, Place, Program, Tokens, code};
use quantifier_guards::unguarded_in_unit;
use std::alloc::Global;
use token_reader::refusal::{refuse, refused_at_place};
use token_reader::terminals::left;

/// The first in the text of what stands where it may not, at this place, and of the quantifiers without a guard.
#[tactic(auto, using(crate::proofs::PlaceFaults::place_rules))]
fn place_fault(program: &Program, misplaced: Option<Place>) -> Option<PlaceFault>
    ensures { option_map plain_fault result ≡ place_fault (plain_program program.now, misplaced) }
{
    let code = code::MISPLACED;
    match (misplaced, unguarded_in_unit(program)) {
        (None, None) => None,
        (Some(place), None) => Some(PlaceFault { code, place }),
        (None, Some(place)) => Some(unguarded_at(place)),
        (Some(place), Some(quantifier)) => {
            if quantifier.offset < place.offset {
                Some(unguarded_at(quantifier))
            } else {
                Some(PlaceFault { code, place })
            }
        }
    }
}

fn unguarded_at(place: Place) -> PlaceFault
    ensures { plain_fault result ≡ unguarded_fault place }
{
    PlaceFault {
        code: code::GUARD,
        place,
    }
}

/// The tree of the tokens of a text of annotated C; or their refusal: with code 4 at the first token that can't follow those before it,
/// with code 11 at one that passes the limit of an expression or of nesting; with code 7 at the first word of an annotation that stands where none of
/// its kind may, or of a variant behind another one of its loop, and with code 8 at a quantifier without a guard, whichever stands first. Names, types and
/// ranges are set by later phases.
pub fn read_program(alloc: Global, tokens: &Tokens) -> Result<Program, FrontFault>
    ensures read { MatchResult result (λ p. IsRead (plain_tokens tokens.now) (plain_program p)) (λ e. Refuses e (plain_tokens tokens.now)) }
{
    let names = copy_names(alloc, tokens.names.as_slice())?;
    let words = vocabulary(alloc, tokens.names.as_slice())?;
    let texts = texts_of(alloc, tokens.list.as_slice())?;
    match more_external(alloc, no_parts(alloc, words), tokens.list.as_slice()) {
        Ok((parts, rest)) => {
            if rest.is_empty() {
                let misplaced = parts.annotations.misplaced;
                let program = make_unit(alloc, names, texts, parts);
                match place_fault(&program, misplaced) {
                    Some(fault) => Err(refused_at_place(alloc, tokens, fault.code, fault.place)),
                    None => Ok(program),
                }
            } else {
                Err(refuse(alloc, tokens, ReadFault::At(left(rest))))
            }
        }
        Err(fault) => Err(refuse(alloc, tokens, fault)),
    }
}

/// Tokens are read in one way at most. A program begins one, and so does what begins the tokens that begin one. No token passes two
/// limits.
pub fn one_reading()
    ensures one { (words : Vocabulary) (names : List (List ℕ)) (texts : List StringLiteral) → AtMostOne (unit words names texts) }
    ensures begun { (words : Vocabulary) (names : List (List ℕ)) (texts : List StringLiteral) → ReadingsBegin (unit words names texts) }
    ensures fronts { (words : Vocabulary) (names : List (List ℕ)) (texts : List StringLiteral) → FrontsBegin (unit words names texts) }
    ensures limits { (words : Vocabulary) (names : List (List ℕ)) (texts : List StringLiteral) → OneLimit (unit words names texts) }
{}
