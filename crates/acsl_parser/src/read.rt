//! From the tokens of a text to the annotation at a place.

ghost use Rattle.std.specs.Prelude.{◌≡◌, ◌+◌, ◌≤◌, ℕ, length, map, option_map, MatchResult};
ghost use Rattle.grammar.specs.Exact.{AtMostOne, ReadingsBegin, FrontsBegin, OneLimit};
ghost use Rattle.c_syntax.specs.Logic.{plain_annot};
ghost use Rattle.c_syntax.specs.Programs.{plain_contract};
ghost use Rattle.c_syntax.specs.Tokens.{plain_tokens};
ghost use Rattle.c_model.specs.Vocabulary.{Vocabulary};
ghost use Rattle.c_model.specs.ClauseGrammar.{annotations};
ghost use Rattle.acsl_parser.specs.Answers.{IsReadAt, RefusesAt, clauses_of, contract_of};
ghost use Rattle.acsl_parser.specs.Reading.{plain_read};

use crate::annotation::annotations;
use crate::readings::ReadAnnotation;
use c_expr_parser::vocabulary::{vocabulary, with_types};
use c_syntax::{Annot, Contract, FrontFault, Token, Tokens};
use std::alloc::Global;
use token_reader::refusal::refuse;

/// The place after what was read of tokens, of which these are left.
fn place_behind(list: &[Token], left: &[Token]) -> usize
    requires { length left.now ≤ length list.now }
    ensures { result + length left.now ≡ length list.now }
{
    list.len() - left.len()
}

/// The clauses of asserts or of a loop, or the contract.
fn parts_of(alloc: Global, read: ReadAnnotation) -> (Vec<Annot>, Option<Contract>)
    ensures clauses { map plain_annot result.0.items ≡ clauses_of (plain_read read) }
    ensures contract { option_map plain_contract result.1 ≡ contract_of (plain_read read) }
{
    match read {
        ReadAnnotation::Asserts(clauses) => (clauses, None),
        ReadAnnotation::Contract(contract) => (Vec::new(alloc), Some(contract)),
        ReadAnnotation::Loop(all) => (all.clauses, None),
    }
}

/// The annotation that stands at a place of the tokens, counted from 0, and the place of the first token after it. Its clauses take the
/// numbers from `first` on, and `types` are the names that typedefs before it declare. Or its refusal, with code 4 at the first token that
/// can't follow those before it, and with code 11 at the 401st of a clause.
pub fn read_annot(
    alloc: Global,
    tokens: &Tokens,
    at: usize,
    first: u32,
    types: &[u32],
) -> Result<(Vec<Annot>, Option<Contract>, usize), FrontFault>
    requires { at ≤ length tokens.now.list.items }
    ensures { MatchResult result
        (λ x. IsReadAt (plain_tokens tokens.now) types.now at first (map plain_annot x.0.items) (option_map plain_contract x.1) x.2)
        (λ e. RefusesAt (plain_tokens tokens.now) types.now at first e) }
{
    let words = vocabulary(alloc, tokens.names.as_slice())?;
    let words = with_types(words, types);
    let list = tokens.list.as_slice();
    let (_, rest) = list.split_at(at);
    match annotations(alloc, words.as_slice(), first, rest) {
        Ok((read, _, left)) => {
            let behind = place_behind(list, left);
            let (clauses, contract) = parts_of(alloc, read);
            Ok((clauses, contract, behind))
        }
        Err(fault) => Err(refuse(alloc, tokens, fault)),
    }
}

/// Tokens are at most one annotation, an annotation begins one, and what begins the tokens that begin one begins one. No token passes two
/// limits.
pub fn one_annotation()
    ensures one { (words : Vocabulary) (first : ℕ) → AtMostOne (annotations words first) }
    ensures begun { (words : Vocabulary) (first : ℕ) → ReadingsBegin (annotations words first) }
    ensures fronts { (words : Vocabulary) (first : ℕ) → FrontsBegin (annotations words first) }
    ensures limits { (words : Vocabulary) (first : ℕ) → OneLimit (annotations words first) }
{}
