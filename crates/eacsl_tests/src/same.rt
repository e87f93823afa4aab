//! Comparisons, and what a call made.

ghost use Rattle.std.specs.Prelude.{◌≡◌, Ok};

use std::process::Abort;

pub fn same_number(rt: &impl Abort, found: u128, wanted: u128) {
    assert_eq!(rt; found, wanted);
}

pub fn same_numbers(rt: &impl Abort, found: (i128, i128), wanted: (i128, i128)) {
    assert_eq!(rt; found, wanted);
}

pub fn same_bytes(rt: &impl Abort, found: &[u8], wanted: &[u8]) {
    assert_eq!(rt; found, wanted);
}

/// What a call made; the test ends if memory ran out. So no test has a `?`, at which each value that it owns is dear.
pub fn made<T, E: Drop>(rt: &impl Abort, answer: Result<T, E>) -> T
    ensures { answer ≡ Ok result }
{
    match answer {
        Ok(value) => value,
        Err(_) => panic!(rt; "out of memory"),
    }
}
