//! Annotations among the items of blocks (ACSL 2.4.1), before loops (ACSL 2.4.2) and functions (ACSL 2.3), and those that stand where none may.

ghost use Rattle.std.specs.Prelude.{◌≡◌, map, option_map};
ghost use Rattle.c_syntax.specs.Logic.{plain_annot};
ghost use Rattle.c_syntax.specs.Statements.{Asserts, plain_item};
ghost use Rattle.c_syntax.specs.Programs.{plain_contract};
ghost use Rattle.c_model.specs.ProgramGrammar.{first_word, contract_place, first_misplaced, after_placed, after_loop, after_misplaced, next_stray};
ghost use Rattle.c_model.specs.ProgramGrammar.{taken, left_over};
ghost use Rattle.token_reader.specs.Reading.{Gives, plain_list};
ghost use Rattle.acsl_parser.specs.Reading.{plain_loop, plain_read};
ghost use Rattle.c_parser.specs.Reading.{with_misplaced, more_strays, behind_stray};

use acsl_parser::{LoopAnnotation, ReadAnnotation, annotations};
use c_expr_parser::kinds::ANNOT_OPEN;
use c_expr_parser::terminals::next_is;
use c_model::declarations::AnnotationState;
use c_model::vocabulary::Word;
use c_syntax::fault::ReadFault;
use c_syntax::{Annot, Contract, Item, Place, Token};
use std::alloc::Global;

/// Annotations before a declaration that were read, with the contract that is the last of them.
type StraysRead<'a> = Result<(AnnotationState, Option<Contract>, &'a [Token]), ReadFault>;

pub fn make_asserts(clauses: Vec<Annot>) -> Item
    ensures { plain_item result ≡ Asserts (map plain_annot clauses.items) }
{
    Item::Asserts(clauses)
}

/// The place of the first word of an annotation.
fn first_word(read: &ReadAnnotation) -> Option<Place>
    ensures { result ≡ first_word (plain_read read.now) }
{
    match read {
        ReadAnnotation::Asserts(clauses) => match clauses.as_slice() {
            [] => None,
            [clause, ..] => Some(clause.place),
        },
        ReadAnnotation::Contract(contract) => Some(contract.place),
        ReadAnnotation::Loop(all) => Some(all.place),
    }
}

/// The place of the first word of a contract, where there is one.
pub fn contract_place(contract: &Option<Contract>) -> Option<Place>
    ensures { result ≡ contract_place (option_map plain_contract contract.now) }
{
    match contract {
        Some(contract) => Some(contract.place),
        None => None,
    }
}

/// The first of the places of misplaced annotations, with that of an annotation that follows.
pub fn first_misplaced(before: Option<Place>, place: Option<Place>) -> Option<Place>
    ensures { result ≡ first_misplaced before place }
{
    match before {
        Some(first) => Some(first),
        None => place,
    }
}

/// After an annotation at this place that is misplaced, where there is one.
pub fn with_misplaced(state: AnnotationState, place: Option<Place>) -> AnnotationState
    ensures { result ≡ with_misplaced state place }
{
    let number = state.number;
    let misplaced = first_misplaced(state.misplaced, place);
    AnnotationState { number, misplaced }
}

/// After annotations that stand where they may, with the number of the next clause.
pub fn after_placed(state: AnnotationState, number: u32) -> AnnotationState
    ensures { result ≡ after_placed state number }
{
    let misplaced = state.misplaced;
    AnnotationState { number, misplaced }
}

/// After the clauses of a loop that follows.
pub fn after_loop(state: AnnotationState, all: &LoopAnnotation, number: u32) -> AnnotationState
    ensures { result ≡ after_loop state (plain_loop all.now) number }
{
    let misplaced = first_misplaced(state.misplaced, all.again);
    AnnotationState { number, misplaced }
}

/// After annotations that don't.
pub fn after_misplaced(
    state: AnnotationState,
    read: &ReadAnnotation,
    number: u32,
) -> AnnotationState
    ensures { result ≡ after_misplaced state (plain_read read.now, number) }
{
    let misplaced = first_misplaced(state.misplaced, first_word(read));
    AnnotationState { number, misplaced }
}

/// What an annotation before a declaration leaves: a contract waits for a function, and any other is misplaced.
fn behind_stray(
    state: AnnotationState,
    read: ReadAnnotation,
    number: u32,
) -> (AnnotationState, Option<Contract>)
    ensures { (result.0, option_map plain_contract result.1) ≡ behind_stray state (plain_read read, number) }
{
    let misplaced = after_misplaced(state, &read, number);
    match read {
        ReadAnnotation::Contract(contract) => (after_placed(state, number), Some(contract)),
        ReadAnnotation::Asserts(_asserts) => (misplaced, None),
        ReadAnnotation::Loop(_all) => (misplaced, None),
    }
}

/// An annotation before a declaration; a contract before it is not directly before the declaration.
#[tactic(auto, unfolding(c_model::specs::ProgramGrammar::next_stray, crate::specs::Reading::behind_stray))]
fn next_stray<'a>(
    alloc: Global,
    words: &[Word],
    state: AnnotationState,
    awaiting: Option<Contract>,
    tokens: &'a [Token],
) -> StraysRead<'a>
    ensures { Gives (λ x. ((x.0, option_map plain_contract x.1), plain_list x.2.now)) result
        ((next_stray words.now (state, option_map plain_contract awaiting)).parse (plain_list tokens.now)) }
{
    let state = with_misplaced(state, contract_place(&awaiting));
    drop(awaiting);
    let (read, number, rest) = annotations(alloc, words, state.number, tokens)?;
    let (state, contract) = behind_stray(state, read, number);
    Ok((state, contract, rest))
}

/// Annotations before a declaration, after those that are read, with the contract that is the last of them.
#[tactic(auto, using(crate::proofs::FileSteps::strays_rules))]
pub fn more_strays<'a>(
    alloc: Global,
    words: &[Word],
    state: AnnotationState,
    awaiting: Option<Contract>,
    tokens: &'a [Token],
) -> StraysRead<'a>
    ensures { Gives (λ x. ((x.0, option_map plain_contract x.1), plain_list x.2.now)) result
        ((more_strays words.now (state, option_map plain_contract awaiting)).parse (plain_list tokens.now)) }
{
    let mut state = state;
    let mut awaiting = awaiting;
    let mut rest = tokens;
    'turn: while next_is(words, ANNOT_OPEN, rest) {
        let (next, contract, after) = next_stray(alloc, words, state, awaiting, rest)?;
        state = next;
        awaiting = contract;
        rest = after;
    }
    Ok((state, awaiting, rest))
}

/// What a function takes of the contract before it: nothing, where one of its declarations has a contract already.
pub fn taken(awaiting: Option<Contract>, again: bool) -> Option<Contract>
    ensures { option_map plain_contract result ≡ taken (option_map plain_contract awaiting) again }
{
    if again { None } else { awaiting }
}

/// The place of the contract that it leaves.
pub fn left_place(awaiting: &Option<Contract>, again: bool) -> Option<Place>
    ensures { result ≡ contract_place (left_over (option_map plain_contract awaiting.now) again) }
{
    if again {
        contract_place(awaiting)
    } else {
        None
    }
}
