//! Contracts (ACSL 2.3): clauses of their own, behaviors, and clauses that name behaviors.

ghost use Rattle.std.specs.Prelude.{◌≤◌, ◌<◌, length, map, IfOk};
ghost use Rattle.c_syntax.specs.Logic.{plain_annot};
ghost use Rattle.c_syntax.specs.Programs.{plain_behavior, plain_contract};
ghost use Rattle.c_model.specs.ClauseGrammar.{behavior, next_behavior, more_behaviors, behavior_names};
ghost use Rattle.c_model.specs.ClauseGrammar.{cover_clause, full_cover, next_cover, more_covers, behaviors_and_covers, placed_own, own_first, behavior_first};
ghost use Rattle.c_model.specs.ClauseGrammar.{cover_first, contract};
ghost use Rattle.token_reader.specs.Reading.{Gives, plain_list};

use crate::binders::{Names, some_names};
use crate::clause::{full_assigns, full_clause, more_owns};
use crate::clause_words::{
    ASSIGNS, BEHAVIOR, BEHAVIORS, cover_word, fixed_word, next_is_cover, next_is_own, next_is_word,
};
use crate::terminals::{formula_name, next_is};
use c_expr_parser::full::{MOST, behind, passed, resumed, window};
use c_expr_parser::kinds::{COLON, NAME, SEMICOLON};
use c_expr_parser::terminals::{kept, skip};
use c_model::formulas::ClauseGroup;
use c_model::vocabulary::Word;
use c_syntax::fault::ReadFault;
use c_syntax::logic::{Annot, Body};
use c_syntax::{Behavior, Contract, Place, Token};
use std::alloc::Global;

/// A contract that was read, or what is read of one, with the number of the next clause.
pub type ContractRead<'a> = Result<(Contract, u32, &'a [Token]), ReadFault>;

/// `"behavior" NAME ":"` and its clauses, with the place of its first word and the number after them.
#[tactic(auto, unfolding(c_model::specs::ClauseGrammar::behavior))]
fn behavior<'a>(
    alloc: Global,
    words: &[Word],
    number: u32,
    tokens: &'a [Token],
) -> Result<(Place, Behavior, u32, &'a [Token]), ReadFault>
    ensures { Gives (λ x. ((x.0, plain_behavior x.1, x.2), plain_list x.3.now)) result ((behavior words.now number).parse (plain_list tokens.now)) }
{
    let (at, rest) = fixed_word(words, BEHAVIOR, tokens)?;
    let (name, place, rest) = formula_name(words, rest)?;
    let (_, rest) = skip(words, COLON, rest)?;
    let group = ClauseGroup::Behavior;
    let (clauses, number, rest) = more_owns(alloc, words, group, Vec::new(alloc), number, rest)?;
    let read = Behavior {
        place,
        name,
        clauses,
    };
    Ok((at, read, number, rest))
}

/// A behavior after what is read of a contract.
#[tactic(auto, unfolding(c_model::specs::ClauseGrammar::next_behavior))]
fn next_behavior<'a>(
    alloc: Global,
    words: &[Word],
    contract: Contract,
    number: u32,
    tokens: &'a [Token],
) -> ContractRead<'a>
    ensures { Gives (λ x. ((plain_contract x.0, x.1), plain_list x.2.now)) result
        ((next_behavior words.now (plain_contract contract, number)).parse (plain_list tokens.now)) }
{
    let (mut contract, (_, read, number, rest)) = kept(
        contract,
        behavior(alloc, words, number, tokens),
    )?;
    contract.behaviors.push(read)?;
    Ok((contract, number, rest))
}

/// The behaviors after what is read of a contract.
#[tactic(auto, using(crate::proofs::Turns::behaviors_rules))]
fn more_behaviors<'a>(
    alloc: Global,
    words: &[Word],
    contract: Contract,
    number: u32,
    tokens: &'a [Token],
) -> ContractRead<'a>
    ensures { Gives (λ x. ((plain_contract x.0, x.1), plain_list x.2.now)) result
        ((more_behaviors words.now (plain_contract contract, number)).parse (plain_list tokens.now)) }
{
    let mut contract = contract;
    let mut number = number;
    let mut rest = tokens;
    'turn: while next_is_word(words, BEHAVIOR, rest) {
        let (more, next, after) = next_behavior(alloc, words, contract, number, rest)?;
        contract = more;
        number = next;
        rest = after;
    }
    Ok((contract, number, rest))
}

/// `[ NAME { "," NAME } ]`
#[tactic(auto, unfolding(c_model::specs::ClauseGrammar::behavior_names))]
fn behavior_names<'a>(
    alloc: Global,
    words: &[Word],
    tokens: &'a [Token],
) -> Result<(Names, &'a [Token]), ReadFault>
    ensures read { Gives (λ x. (x.0.items, plain_list x.1.now)) result ((behavior_names words.now).parse (plain_list tokens.now)) }
    ensures shorter { IfOk result (λ x. length x.1.now ≤ length tokens.now) }
{
    if next_is(words, NAME, tokens) {
        some_names(alloc, words, tokens)
    } else {
        Ok((Vec::new(alloc), tokens))
    }
}

/// `( "complete" | "disjoint" ) "behaviors" [ NAME { "," NAME } ] ";"`, with this number.
#[tactic(auto, unfolding(c_model::specs::ClauseGrammar::cover_clause))]
fn cover_clause<'a>(
    alloc: Global,
    words: &[Word],
    number: u32,
    tokens: &'a [Token],
) -> Result<(Annot, &'a [Token]), ReadFault>
    ensures read { Gives (λ x. (plain_annot x.0, plain_list x.1.now)) result ((cover_clause words.now number).parse (plain_list tokens.now)) }
    ensures shorter { IfOk result (λ x. length x.1.now < length tokens.now) }
{
    let (kind, place, rest) = cover_word(words, tokens)?;
    let (_, rest) = fixed_word(words, BEHAVIORS, rest)?;
    let (names, rest) = behavior_names(alloc, words, rest)?;
    let (names, (_, rest)) = kept(names, skip(words, SEMICOLON, rest))?;
    let clause = Annot {
        number,
        kind,
        place,
        body: Body::Names(names),
    };
    Ok((clause, rest))
}

/// The same, within the limit of its tokens.
#[tactic(auto, using(crate::proofs::Clauses::full_cover_rules))]
fn full_cover<'a>(
    alloc: Global,
    words: &[Word],
    number: u32,
    tokens: &'a [Token],
) -> Result<(Annot, &'a [Token]), ReadFault>
    ensures { Gives (λ x. (plain_annot x.0, plain_list x.1.now)) result ((full_cover words.now number).parse (plain_list tokens.now)) }
{
    if tokens.len() <= MOST {
        return cover_clause(alloc, words, number, tokens);
    }
    match cover_clause(alloc, words, number, window(tokens, MOST)) {
        Ok((clause, rest)) => match rest.len() {
            0 => Err(passed(tokens.len(), MOST)),
            left => Ok((clause, behind(tokens, MOST, left))),
        },
        Err(fault) => Err(resumed(fault, tokens.len(), MOST)),
    }
}

/// A clause that names behaviors, after what is read of a contract. Of more than 2^32 - 2 clauses there is no number: then memory runs out.
#[tactic(auto, unfolding(c_model::specs::ClauseGrammar::next_cover))]
fn next_cover<'a>(
    alloc: Global,
    words: &[Word],
    contract: Contract,
    number: u32,
    tokens: &'a [Token],
) -> ContractRead<'a>
    ensures { Gives (λ x. ((plain_contract x.0, x.1), plain_list x.2.now)) result
        ((next_cover words.now (plain_contract contract, number)).parse (plain_list tokens.now)) }
{
    if number == u32::MAX {
        return Err(ReadFault::Memory);
    }
    let (mut contract, (clause, rest)) = kept(contract, full_cover(alloc, words, number, tokens))?;
    contract.covers.push(clause)?;
    Ok((contract, number + 1, rest))
}

/// The clauses that name behaviors, after what is read of a contract.
#[tactic(auto, using(crate::proofs::Turns::covers_rules))]
fn more_covers<'a>(
    alloc: Global,
    words: &[Word],
    contract: Contract,
    number: u32,
    tokens: &'a [Token],
) -> ContractRead<'a>
    ensures { Gives (λ x. ((plain_contract x.0, x.1), plain_list x.2.now)) result
        ((more_covers words.now (plain_contract contract, number)).parse (plain_list tokens.now)) }
{
    let mut contract = contract;
    let mut number = number;
    let mut rest = tokens;
    'turn: while next_is_cover(words, rest) {
        let (more, next, after) = next_cover(alloc, words, contract, number, rest)?;
        contract = more;
        number = next;
        rest = after;
    }
    Ok((contract, number, rest))
}

/// Behaviors, and then clauses that name them, after what is read of a contract.
#[tactic(auto, unfolding(c_model::specs::ClauseGrammar::behaviors_and_covers))]
fn behaviors_and_covers<'a>(
    alloc: Global,
    words: &[Word],
    contract: Contract,
    number: u32,
    tokens: &'a [Token],
) -> ContractRead<'a>
    ensures { Gives (λ x. ((plain_contract x.0, x.1), plain_list x.2.now)) result
        ((behaviors_and_covers words.now (plain_contract contract, number)).parse (plain_list tokens.now)) }
{
    let (contract, number, rest) = more_behaviors(alloc, words, contract, number, tokens)?;
    more_covers(alloc, words, contract, number, rest)
}

/// The first of its own clauses, with the place of its first word and the number of the next clause.
#[tactic(auto, unfolding(c_model::specs::ClauseGrammar::placed_own))]
fn placed_own<'a>(
    alloc: Global,
    words: &[Word],
    number: u32,
    tokens: &'a [Token],
) -> Result<(Place, Vec<Annot>, u32, &'a [Token]), ReadFault>
    ensures { Gives (λ x. ((x.0, (map plain_annot x.1.items, x.2)), plain_list x.3.now)) result ((placed_own words.now number).parse (plain_list tokens.now)) }
{
    if next_is_word(words, ASSIGNS, tokens) {
        let (place, rest) = full_assigns(words, tokens)?;
        return Ok((place, Vec::new(alloc), number, rest));
    }
    if number == u32::MAX {
        return Err(ReadFault::Memory);
    }
    let (clause, rest) = full_clause(alloc, words, ClauseGroup::Contract, number, tokens)?;
    let place = clause.place;
    Ok((place, vec![in alloc; clause]?, number + 1, rest))
}

/// A contract that begins with a clause of its own.
#[tactic(auto, unfolding(c_model::specs::ClauseGrammar::own_first))]
fn own_first<'a>(
    alloc: Global,
    words: &[Word],
    number: u32,
    tokens: &'a [Token],
) -> ContractRead<'a>
    ensures { Gives (λ x. ((plain_contract x.0, x.1), plain_list x.2.now)) result ((own_first words.now number).parse (plain_list tokens.now)) }
{
    let (place, all, number, rest) = placed_own(alloc, words, number, tokens)?;
    let group = ClauseGroup::Contract;
    let (clauses, number, rest) = more_owns(alloc, words, group, all, number, rest)?;
    let contract = Contract {
        place,
        clauses,
        behaviors: Vec::new(alloc),
        covers: Vec::new(alloc),
    };
    behaviors_and_covers(alloc, words, contract, number, rest)
}

/// A contract that begins with a behavior.
#[tactic(auto, unfolding(c_model::specs::ClauseGrammar::behavior_first))]
fn behavior_first<'a>(
    alloc: Global,
    words: &[Word],
    number: u32,
    tokens: &'a [Token],
) -> ContractRead<'a>
    ensures { Gives (λ x. ((plain_contract x.0, x.1), plain_list x.2.now)) result ((behavior_first words.now number).parse (plain_list tokens.now)) }
{
    let (place, first, number, rest) = behavior(alloc, words, number, tokens)?;
    let contract = Contract {
        place,
        clauses: Vec::new(alloc),
        behaviors: vec![in alloc; first]?,
        covers: Vec::new(alloc),
    };
    behaviors_and_covers(alloc, words, contract, number, rest)
}

/// A contract that begins with a clause that names behaviors.
#[tactic(auto, unfolding(c_model::specs::ClauseGrammar::cover_first))]
fn cover_first<'a>(
    alloc: Global,
    words: &[Word],
    number: u32,
    tokens: &'a [Token],
) -> ContractRead<'a>
    ensures { Gives (λ x. ((plain_contract x.0, x.1), plain_list x.2.now)) result ((cover_first words.now number).parse (plain_list tokens.now)) }
{
    if number == u32::MAX {
        return Err(ReadFault::Memory);
    }
    let (clause, rest) = full_cover(alloc, words, number, tokens)?;
    let contract = Contract {
        place: clause.place,
        clauses: Vec::new(alloc),
        behaviors: Vec::new(alloc),
        covers: vec![in alloc; clause]?,
    };
    more_covers(alloc, words, contract, number + 1, rest)
}

/// A contract, whose clauses take the numbers from this one on; with it comes the number after.
#[tactic(auto, unfolding(c_model::specs::ClauseGrammar::contract))]
pub fn contract<'a>(
    alloc: Global,
    words: &[Word],
    number: u32,
    tokens: &'a [Token],
) -> ContractRead<'a>
    ensures { Gives (λ x. ((plain_contract x.0, x.1), plain_list x.2.now)) result ((contract words.now number).parse (plain_list tokens.now)) }
{
    if next_is_own(words, ClauseGroup::Contract, tokens) {
        own_first(alloc, words, number, tokens)
    } else if next_is_word(words, BEHAVIOR, tokens) {
        behavior_first(alloc, words, number, tokens)
    } else {
        cover_first(alloc, words, number, tokens)
    }
}
