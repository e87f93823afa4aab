//! The ranges of operators, and conversions: each call, and the ends of signed 128 bits.

ghost use Rattle.c_model.specs.Ranges.{IsRange};

use crate::same::{made, same_numbers};
use c_syntax::{CInt, Range, Width};
use ea_num::{
    add, bit_and, bit_or, bit_xor, div, flip, mul, neg, rem, shl, shr, sub, width_of, wrap,
};
use std::process::Abort;

/// An operator or a type, the bounds of two operands, and the bounds of the range that is wanted. What takes one operand has a
/// second of 0. The range of a width is its number of bits, and a conversion is that of the first bound.
const ROWS: &str = "add 1 2 -5 10 -4 12\n\
    add 0 MAX -1 0 -1 MAX\n\
    add 0 MAX 0 1 none none\n\
    add MIN 0 -1 0 none none\n\
    sub 1 2 -5 10 -9 7\n\
    sub -1 0 0 MAX MIN 0\n\
    sub -2 0 0 MAX none none\n\
    sub 0 0 MIN 0 none none\n\
    neg -3 7 0 0 -7 3\n\
    neg 0 MAX 0 0 -170141183460469231731687303715884105727 0\n\
    neg MIN -1 0 0 none none\n\
    flip -3 7 0 0 -8 2\n\
    flip 0 MAX 0 0 MIN -1\n\
    flip MIN -1 0 0 0 MAX\n\
    mul -3 7 -2 5 -15 35\n\
    mul -7 -3 -5 -2 6 35\n\
    mul -4 0 42535295865117307932921825928971026432 42535295865117307932921825928971026432 MIN 0\n\
    mul MIN MIN -1 0 none none\n\
    mul -18446744073709551616 18446744073709551616 0 9223372036854775808 none none\n\
    mul MIN MAX MIN MAX none none\n\
    mul MIN MAX 0 1 MIN MAX\n\
    div 3 100 2 7 0 100\n\
    div -9 4 2 7 -9 9\n\
    div 3 9 -20 7 -9 9\n\
    div -9 -4 -3 3 -9 9\n\
    div 5 6 0 0 0 6\n\
    div -170141183460469231731687303715884105727 0 MIN -1 -170141183460469231731687303715884105727 MAX\n\
    div MIN 0 1 1 none none\n\
    rem 3 100 2 7 0 6\n\
    rem -9 4 2 7 -6 4\n\
    rem 3 9 -20 7 0 9\n\
    rem -9 -4 -3 3 -2 0\n\
    rem 5 6 0 0 0 0\n\
    rem -170141183460469231731687303715884105727 0 MIN -1 -170141183460469231731687303715884105727 0\n\
    rem MIN 0 1 1 none none\n\
    shl -3 5 1 4 -48 80\n\
    shl -3 5 -9 -1 -3 5\n\
    shl -1 1 0 126 -85070591730234615865843651857942052864 85070591730234615865843651857942052864\n\
    shl 0 0 0 127 none none\n\
    shl MIN MAX 127 300 none none\n\
    shl 2 2 126 126 none none\n\
    shr -3 5 1 4 -2 2\n\
    shr -3 5 -9 -1 -3 5\n\
    shr -1 1 0 126 -1 1\n\
    shr 0 0 0 127 0 0\n\
    shr MIN MAX 127 300 -1 0\n\
    shr 2 2 126 126 0 0\n\
    and 3 9 5 6 0 6\n\
    and 3 9 -6 40 0 9\n\
    and -6 40 3 9 0 9\n\
    and -8 -1 -9 3 -16 15\n\
    and 0 0 0 0 0 0\n\
    and -1 0 -1 -1 -1 0\n\
    and MIN MAX -1 0 MIN MAX\n\
    or 3 9 5 6 0 15\n\
    or 3 9 -6 40 -64 63\n\
    or -6 40 3 9 -64 63\n\
    or -8 -1 -9 3 -16 15\n\
    or 0 0 0 0 0 0\n\
    or -1 0 -1 -1 -1 0\n\
    or MIN MAX -1 0 MIN MAX\n\
    xor 3 9 5 6 0 15\n\
    xor 3 9 -6 40 -64 63\n\
    xor -6 40 3 9 -64 63\n\
    xor -8 -1 -9 3 -16 15\n\
    xor 0 0 0 0 0 0\n\
    xor -1 0 -1 -1 -1 0\n\
    xor MIN MAX -1 0 MIN MAX\n\
    width -2147483648 2147483647 0 0 32 32\n\
    width 0 2147483648 0 0 64 64\n\
    width -2147483649 0 0 0 64 64\n\
    width -9223372036854775808 9223372036854775807 0 0 64 64\n\
    width 9223372036854775808 9223372036854775808 0 0 128 128\n\
    width MIN MAX 0 0 128 128\n\
    i8 200 200 0 0 -56 -56\n\
    u8 -1 -1 0 0 255 255\n\
    i16 32768 32768 0 0 -32768 -32768\n\
    u16 65536 65536 0 0 0 0\n\
    i32 -2147483649 -2147483649 0 0 2147483647 2147483647\n\
    u32 -1 -1 0 0 4294967295 4294967295\n\
    i64 MAX MAX 0 0 -1 -1\n\
    u64 MIN MIN 0 0 0 0";

fn number(word: &str) -> i128 {
    match word {
        "MIN" => i128::MIN,
        "MAX" => i128::MAX,
        _ => word.parse::<i128>().unwrap_or(0),
    }
}

/// A range, whose bounds are in order.
fn range(rt: &impl Abort, lo: &str, hi: &str) -> Range
    ensures { IsRange result }
{
    let (lo, hi) = (number(lo), number(hi));
    assert!(rt; lo <= hi);
    Range { lo, hi }
}

fn exactly(value: i128) -> Option<Range> {
    Some(Range {
        lo: value,
        hi: value,
    })
}

fn bits(width: Width) -> i128 {
    match width {
        Width::W32 => 32,
        Width::W64 => 64,
        Width::W128 => 128,
    }
}

fn converted(to: &str, value: i128) -> i128 {
    match to {
        "i8" => wrap(CInt::I8, value),
        "u8" => wrap(CInt::U8, value),
        "i16" => wrap(CInt::I16, value),
        "u16" => wrap(CInt::U16, value),
        "i32" => wrap(CInt::I32, value),
        "u32" => wrap(CInt::U32, value),
        "i64" => wrap(CInt::I64, value),
        _ => wrap(CInt::U64, value),
    }
}

fn operate(op: &str, a: Range, b: Range) -> Option<Range>
    requires left { IsRange a }
    requires right { IsRange b }
{
    match op {
        "add" => add(a, b),
        "sub" => sub(a, b),
        "neg" => neg(a),
        "flip" => flip(a),
        "mul" => mul(a, b),
        "div" => div(a, b),
        "rem" => rem(a, b),
        "shl" => shl(a, b),
        "shr" => shr(a, b),
        "and" => bit_and(a, b),
        "or" => bit_or(a, b),
        "xor" => bit_xor(a, b),
        "width" => exactly(bits(width_of(a))),
        _ => exactly(converted(op, a.lo)),
    }
}

/// Compares a range with bounds.
fn has_bounds(rt: &impl Abort, found: Option<Range>, lo: &str, hi: &str) {
    match found {
        Some(range) => same_numbers(rt, (range.lo, range.hi), (number(lo), number(hi))),
        None => assert!(rt; lo == "none"),
    }
}

/// Compares what a row says with what is given.
fn holds(rt: &impl Abort, row: &[&str]) {
    match row {
        [op, a_lo, a_hi, b_lo, b_hi, lo, hi] => {
            let a = range(rt, a_lo, a_hi);
            let b = range(rt, b_lo, b_hi);
            has_bounds(rt, operate(op, a, b), lo, hi);
        }
        _ => panic!(rt; "a row has seven words"),
    }
}

#[test]
fn ranges_are_those_of_the_rows(rt: HostRuntime) {
    for row in ROWS.split('\n') {
        let words: Vec<&str> = made(&rt, row.split(' ').collect(rt.alloc()));
        holds(&rt, &words);
    }
}
