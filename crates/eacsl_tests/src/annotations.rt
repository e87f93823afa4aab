//! Annotations from their tokens to the ranges of their terms, and the guard of an operator.

use crate::monitored::constant;
use crate::reading::tokens_of;
use crate::same::{made, same_bytes, same_number, same_numbers};
use acsl_parser::{ReadAnnotation, annotations, read_annot};
use annot_typing::{ClauseSight, type_clauses};
use behavior_split::split;
use c_expr_parser::vocabulary::vocabulary;
use c_scopes::TypeFault;
use c_scopes::entities::Entities;
use c_scopes::label::Labels;
use c_scopes::literal::Literals;
use c_scopes::sight::{Sight, mark_here};
use c_scopes::signature::Functions;
use c_scopes::tag::Tags;
use c_scopes::type_name::TypeNames;
use c_syntax::fault::ReadFault;
use c_syntax::logic::{Annot, Body, Pred, PredKind};
use c_syntax::{BinOp, FrontFault, Name, Range, Tokens, code};
use interval_infer::clause_ranges;
use mon_syntax::MonType;
use std::process::Abort;
use term_guards::guard;

/// How many clauses an annotation has, those of a contract aside.
fn clause_count(read: &ReadAnnotation) -> i128 {
    match read {
        ReadAnnotation::Asserts(clauses) => clauses.len() as i128,
        ReadAnnotation::Loop(all) => all.clauses.len() as i128,
        ReadAnnotation::Contract(_) => 0,
    }
}

/// Compares how many clauses an annotation has, with the number of the next one, and the tokens that are left.
fn reads(rt: &(impl Abort + AllocGlobal), text: &str, wanted: (i128, i128), left: u128) {
    let tokens = tokens_of(rt, text);
    let words = made(rt, vocabulary(rt.alloc(), &tokens.names));
    match annotations(rt.alloc(), &words, 1, &tokens.list) {
        Ok((read, next, rest)) => {
            let found = (clause_count(&read), i128::from(next));
            let behind = rest.len() as u128;
            drop(read);
            same_numbers(rt, found, wanted);
            same_number(rt, behind, left);
        }
        Err(_) => panic!(rt; "it isn't read"),
    }
}

/// Compares how many tokens are left where an annotation can't go on.
fn breaks(rt: &(impl Abort + AllocGlobal), text: &str, wanted: u128) {
    let tokens = tokens_of(rt, text);
    let words = made(rt, vocabulary(rt.alloc(), &tokens.names));
    match annotations(rt.alloc(), &words, 1, &tokens.list) {
        Err(ReadFault::At(left)) => same_number(rt, left as u128, wanted),
        _ => panic!(rt; "it has no such fault"),
    }
}

#[test]
fn asserts_are_read(rt: HostRuntime) {
    let text =
        "/*@ assert 0 <= 1 + 2 * 3 && (7 / 2 == 3 ==> \\true); assert -7 % 2 == -1; */ return 0;";
    reads(&rt, text, (2, 3), 3);
    breaks(&rt, "/*@ assert 1 < 2 > 3; */", 4);
}

#[test]
fn clauses_of_loops_are_read(rt: HostRuntime) {
    let text =
        "/*@ loop invariant \\forall int i; 0 <= i < 3 ==> 0 <= i; loop assigns x, y; loop variant 3; */ while";
    reads(&rt, text, (2, 3), 1);
    breaks(
        &rt,
        "/*@ loop invariant (\\forall const int i; i == i); */",
        10,
    );
    breaks(&rt, "/*@ assert 0 == 0; loop variant 1; */", 5);
}

/// Compares how many clauses the annotation has that begins the tokens, and the place after it, where these are names of types.
fn reads_first(rt: &(impl Abort + AllocGlobal), text: &str, types: &[u32], wanted: (i128, i128)) {
    let tokens = tokens_of(rt, text);
    match read_annot(rt.alloc(), &tokens, 0, 1, types) {
        Ok((clauses, None, behind)) => {
            let found = (clauses.len() as i128, behind as i128);
            drop(clauses);
            same_numbers(rt, found, wanted);
        }
        _ => panic!(rt; "it isn't read"),
    }
}

/// Compares the refusal of the annotation that begins the tokens: the offset of a token that can't follow, and its word.
fn refuses_first(rt: &(impl Abort + AllocGlobal), text: &str, offset: i128, word: &[u8]) {
    let tokens = tokens_of(rt, text);
    match read_annot(rt.alloc(), &tokens, 0, 1, &[]) {
        Err(FrontFault::Refused(refusal)) => {
            let place = i128::from(refusal.place.offset);
            let found = (i128::from(refusal.code), place);
            same_numbers(rt, found, (i128::from(code::GRAMMAR), offset));
            same_bytes(rt, refusal.construct.bytes(), word);
        }
        _ => panic!(rt; "it isn't refused"),
    }
}

#[test]
fn an_annotation_is_read_by_the_names_of_types(rt: HostRuntime) {
    let text = "/*@ assert (t) 1 == 1; assert \\true; */ int x;";
    reads_first(&rt, text, &[1], (2, 13));
    refuses_first(&rt, text, 15, b"1");
}

/// Compares how many checks a contract has where a call begins and where it ends.
fn splits(rt: &(impl Abort + AllocGlobal), text: &str, wanted: (i128, i128)) {
    let tokens = tokens_of(rt, text);
    let words = made(rt, vocabulary(rt.alloc(), &tokens.names));
    match annotations(rt.alloc(), &words, 1, &tokens.list) {
        Ok((read, _, _)) => match &read {
            ReadAnnotation::Contract(contract) => {
                let checks = made(rt, split(rt.alloc(), contract));
                same_numbers(
                    rt,
                    (checks.entry.len() as i128, checks.leave.len() as i128),
                    wanted,
                );
            }
            _ => panic!(rt; "it is no contract"),
        },
        Err(_) => panic!(rt; "it isn't read"),
    }
}

#[test]
fn the_clauses_of_a_contract_are_checked_where_a_call_begins_and_ends(rt: HostRuntime) {
    let text =
        "/*@ requires 0 < 1; ensures \\true; behavior b: assumes 1 < 2; requires 2 < 3; complete behaviors; */";
    splits(&rt, text, (4, 1));
}

/// The asserts of a text, whose names have no declarations, and what is in sight of them.
fn read(rt: &(impl Abort + AllocGlobal), text: &str) -> (Vec<Annot>, Sight) {
    let Tokens { list, names, .. } = tokens_of(rt, text);
    let words = made(rt, vocabulary(rt.alloc(), &names));
    match annotations(rt.alloc(), &words, 1, &list) {
        Ok((read, _, _)) => match read {
            ReadAnnotation::Asserts(asserts) => (asserts, sight_of(rt, names)),
            ReadAnnotation::Contract(_contract) => panic!(rt; "it is a contract"),
            ReadAnnotation::Loop(_all) => panic!(rt; "it has clauses of a loop"),
        },
        Err(_) => panic!(rt; "it isn't read"),
    }
}

/// Names without declarations.
fn sight_of(rt: &impl AllocGlobal, names: Vec<Name>) -> Sight {
    let alloc = rt.alloc();
    Sight {
        names,
        texts: Literals::new(alloc),
        functions: Functions::new(alloc),
        entities: Entities::new(alloc),
        innermost: 0,
        types: TypeNames::new(alloc),
        structs: Vec::new(alloc),
        levels: Vec::new(alloc),
        enum_tags: Tags::new(alloc),
        enums: Tags::new(alloc),
    }
}

/// Compares the code and the offset of a refusal.
fn refuses(rt: &impl Abort, found: Result<(), TypeFault>, code: u8, offset: i128) {
    match found {
        Err(TypeFault::Refused(fault)) => {
            let place = i128::from(fault.place.offset);
            same_numbers(
                rt,
                (i128::from(fault.code), place),
                (i128::from(code), offset),
            );
        }
        _ => panic!(rt; "it isn't refused"),
    }
}

/// Types asserts at the beginning of a body without labels.
fn type_asserts(
    rt: &impl AllocGlobal,
    sight: &mut Sight,
    all: &mut Vec<Annot>,
) -> Result<(), TypeFault> {
    let labels = Labels::new(rt.alloc());
    let begin = mark_here(sight);
    type_clauses(rt.alloc(), sight, ClauseSight::InBody(begin, &labels), all)
}

/// Compares the refusal by typing.
fn has_no_type(rt: &(impl Abort + AllocGlobal), text: &str, code: u8, offset: i128) {
    let (mut all, mut sight) = read(rt, text);
    let found = type_asserts(rt, &mut sight, &mut all);
    refuses(rt, found, code, offset);
}

#[test]
fn names_and_sorts_are_refused(rt: HostRuntime) {
    has_no_type(&rt, "/*@ assert 0 < unknown; */", code::NAME, 15);
    has_no_type(&rt, "/*@ assert (1 < 2) + 1 == 0; */", code::TYPE, 19);
}

/// The typed asserts of a text.
fn typed(rt: &(impl Abort + AllocGlobal), text: &str) -> Vec<Annot> {
    let (mut all, mut sight) = read(rt, text);
    made(rt, type_asserts(rt, &mut sight, &mut all));
    all
}

/// The range of the first term of a chain.
fn range_in(rt: &impl Abort, p: &Pred) -> Range {
    match &*p.kind {
        PredKind::Chain(t, _) => t.range,
        _ => panic!(rt; "it is no chain"),
    }
}

/// The range of the first term of the one assert.
fn first_range(rt: &impl Abort, all: &[Annot]) -> Range {
    match all {
        [
            Annot {
                body: Body::Truth(p),
                ..
            },
        ] => range_in(rt, p),
        _ => panic!(rt; "it isn't one typed assert"),
    }
}

/// Compares the bounds of the first term of an assert.
fn has_range(rt: &(impl Abort + AllocGlobal), text: &str, wanted: (i128, i128)) {
    let mut all = typed(rt, text);
    made(rt, clause_ranges(&mut all));
    let found = first_range(rt, &all);
    same_numbers(rt, (found.lo, found.hi), wanted);
}

/// Compares the offset of the first term that has no range.
fn has_no_range(rt: &(impl Abort + AllocGlobal), text: &str, offset: i128) {
    let mut all = typed(rt, text);
    let found = clause_ranges(&mut all);
    refuses(rt, found, code::RANGE, offset);
}

#[test]
fn terms_have_ranges(rt: HostRuntime) {
    has_range(&rt, "/*@ assert 1 + 2 * 3 < 8; */", (7, 7));
    has_range(&rt, "/*@ assert (char) 300 < 8; */", (-128, 127));
    has_no_range(&rt, "/*@ assert 1 << 127 == 0; */", 13);
    has_no_range(
        &rt,
        "/*@ assert 170141183460469231731687303715884105727 + 1 == 0; */",
        51,
    );
}

#[test]
fn a_division_has_a_guard(rt: HostRuntime) {
    let divisor = constant(&rt, MonType::I32, 5);
    let guarding = made(&rt, guard(rt.alloc(), MonType::I32, BinOp::Div, divisor));
    drop(guarding);
}
