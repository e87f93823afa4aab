//! Tokens, expressions at a place, and the words of a command line.

use crate::same::{made, same_bytes, same_number};
use c_expr_parser::{Level, read_expr};
use c_lexer::tokens;
use c_model::Job;
use c_syntax::{FrontFault, TokenKind, Tokens};
use eacsl_cli::read_words;
use std::process::Abort;

/// The tokens of a C text that has no fault in them.
pub fn tokens_of(rt: &(impl Abort + AllocGlobal), text: &str) -> Tokens {
    if text.len() >= 4_294_967_295 {
        panic!(rt; "the text is too long");
    }
    match tokens(rt.alloc(), text.as_bytes()) {
        Ok(tokens) => tokens,
        Err(_) => panic!(rt; "the text is refused"),
    }
}

#[test]
fn strings_are_joined(rt: HostRuntime) {
    let tokens = tokens_of(&rt, "\"a\\n\" /* */\n\"\\1014\"");
    match tokens.list.as_slice() {
        [token] => match &token.kind {
            TokenKind::Chars(bytes) => same_bytes(&rt, bytes.bytes(), b"a\nA4"),
            _ => panic!(rt; "it is no string"),
        },
        _ => panic!(rt; "it isn't one token"),
    }
}

#[test]
fn a_name_has_one_number(rt: HostRuntime) {
    let tokens = tokens_of(&rt, "a b a //@ assert a < c;\n");
    same_number(&rt, tokens.list.len() as u128, 10);
    same_number(&rt, tokens.names.len() as u128, 4);
    same_number(&rt, u128::from(tokens.end.offset), 24);
}

/// Compares the place after the longest expression at a place, or 1,000 and the code of its refusal.
fn ends(rt: &(impl Abort + AllocGlobal), text: &str, at: usize, wanted: u128) {
    let tokens = tokens_of(rt, text);
    if at > tokens.list.len() {
        panic!(rt; "there is no such token");
    }
    match read_expr(rt.alloc(), &tokens, at, Level::Comma, &[]) {
        Ok((e, behind)) => {
            drop(e);
            same_number(rt, behind as u128, wanted);
        }
        Err(FrontFault::Refused(refusal)) => {
            let code = refusal.code;
            drop(refusal);
            same_number(rt, 1000 + u128::from(code), wanted);
        }
        Err(FrontFault::Memory) => panic!(rt; "there is no memory"),
    }
}

#[test]
fn an_expression_is_read_at_a_place(rt: HostRuntime) {
    ends(&rt, "x = a + b * c ;", 0, 7);
    ends(&rt, "x = a + b * c ;", 2, 7);
    ends(&rt, "x = a + b * c ;", 4, 7);
    ends(&rt, "x = a + b * c ;", 1, 1004);
    ends(&rt, "x = a + b * c ;", 8, 1004);
}

#[test]
fn postfix_operators_are_read(rt: HostRuntime) {
    ends(&rt, "p -> a [ 1 ] . size_t + * & q ;", 0, 12);
    ends(&rt, "\"abc\" [ 1 ] [ i ? 0 : 1 ] ;", 0, 11);
    ends(&rt, "( p ) . assert ++ ;", 0, 6);
    ends(&rt, "a . 1", 0, 1004);
    ends(&rt, "a [ ]", 0, 1004);
}

#[test]
fn types_in_parentheses_are_read(rt: HostRuntime) {
    ends(&rt, "( const struct s * const * [ 3 ] ) x [ 1 ] ;", 0, 15);
    ends(&rt, "sizeof ( int * [ 2 ] [ n ] ) ;", 0, 11);
    ends(&rt, "sizeof ( int ) [ 1 ]", 0, 4);
    ends(&rt, "sizeof ( x ) [ 1 ]", 0, 7);
    ends(&rt, "( enum size_t ) x", 0, 5);
    ends(&rt, "( enum ) x", 0, 1004);
    ends(&rt, "( int [ ] ) x", 0, 1004);
}

/// Compares the steps of a job, 0 where there is none.
fn has_steps(rt: &(impl Abort + AllocGlobal), line: &str, wanted: u64) {
    let mut words = Vec::new(rt.alloc());
    for word in line.split(' ') {
        let word = made(rt, String::from_str(rt.alloc(), word));
        made(rt, words.push(word));
    }
    let job = made(rt, read_words(rt.alloc(), &words));
    let found = match &job {
        Some(Job::Run { steps, .. } | Job::Exec { steps, .. }) => *steps,
        Some(Job::Instrument { .. }) => 1,
        None => 0,
    };
    drop(job);
    same_number(rt, u128::from(found), u128::from(wanted));
}

#[test]
fn steps_are_those_of_the_words(rt: HostRuntime) {
    has_steps(&rt, "run a", 10_000_000);
    has_steps(&rt, "exec a", 10_000_000);
    has_steps(&rt, "run a --steps 1000000000000", 1_000_000_000_000);
    has_steps(&rt, "exec a --steps 1000000000000", 1_000_000_000_000);
    has_steps(&rt, "run a --steps 1000000000001", 0);
    has_steps(&rt, "instrument a", 1);
}
