//! Texts that are cut after each byte, and ports that fail at each call, through the top call over ports in memory.

use crate::same::{made, same_bytes, same_number};
use ea_ports::{MemSink, MemSource, SureFolder};
use eacsl_cli::{eacsl, status};
use std::process::Abort;

// Finds each digit of the input among five numbers.
const FINDS: &[u8] = b"#include <stdio.h>
int find(const int *a, int n, int key) {
  int lo = 0;
  int hi = n - 1;
  /* lo, the middle and hi stand in their order */
  while (lo <= hi) {
    int mid = lo + (hi - lo) / 2;
    //@ assert 0 <= lo <= mid && mid <= hi;
    if (a[mid] < key) {
      lo = mid + 1;
    } else if (a[mid] > key) {
      hi = mid - 1;
    } else {
      return mid;
    }
  }
  return -1;
}
int main(void) {
  int a[5] = {1, 3, 5, 7, 9};
  int c;
  while ((c = getchar()) != EOF && c != '\\n') {
    printf(\"%c:%d\\n\", c, find(a, 5, c - '0'));
  }
  return 0;
}
";

// Copies its input.
const COPIES: &[u8] = b"int main(void) {
  int c;
  while ((c = getchar()) != EOF) {
    putchar(c);
  }
  return 0;
}
";

// Prints a byte and comes to an assertion that is false.
const STOPS: &[u8] = b"int main(void) {
  int x = 2;
  putchar('A');
  //@ assert x == 2;
  //@ assert x > 2;
  putchar('B');
  return 0;
}
";

// The same in monitored C.
const MONITORED: &[u8] = b"#include <e_acsl.h>
i32 main(void) {
  ptr x;
  i32 c;
  x = __e_acsl_store_block(U64(4));
  *(i32 *)x = I32(65);
  __e_acsl_initialize(x, 4);
  c = __e_acsl_number(x, I128(0), 4);
  __e_acsl_assert(c, I32(1), 1, 7, \"assert\");
  putchar((*(i32 *)x));
  __e_acsl_assert(I32(1), I32(0), 4, 9, \"ensures\");
  __e_acsl_delete_block(x);
  return I32(0);
}
";

/// The calls at which ports fail; a port never comes to the greatest.
#[derive(Clone, Copy)]
struct Failing {
    read: u32,
    put: u32,
    said: u32,
}

const NONE: Failing = Failing {
    read: u32::MAX,
    put: u32::MAX,
    said: u32::MAX,
};

/// What the top call answers.
#[derive(Drop)]
struct Answer {
    status: u8,
    output: Vec<u8>,
    line: Vec<u8>,
}

/// The words of a command on `a.c`.
fn words(rt: &(impl Abort + AllocGlobal), command: &str) -> Vec<String> {
    let mut words = Vec::new(rt.alloc());
    for word in [command, "a.c"] {
        let word = made(rt, String::from_str(rt.alloc(), word));
        made(rt, words.push(word));
    }
    words
}

/// A folder that has `a.c` with this text.
fn folder(rt: &(impl Abort + AllocGlobal), text: &[u8]) -> SureFolder {
    let name = made(rt, String::from_str(rt.alloc(), "a.c"));
    let mut files = Vec::new(rt.alloc());
    made(rt, files.push((name, made(rt, text.to_vec(rt.alloc())))));
    SureFolder::new(files)
}

/// The answer to a command on a text and an input.
fn answer_to(
    rt: &(impl Abort + AllocGlobal),
    command: &str,
    text: &[u8],
    input: &[u8],
    failing: Failing,
) -> Answer {
    let alloc = rt.alloc();
    let mut files = folder(rt, text);
    let reads = made(rt, [failing.read].to_vec(alloc));
    let mut source = MemSource::new(made(rt, input.to_vec(alloc)), reads);
    let mut out = MemSink::new(alloc, made(rt, [failing.put].to_vec(alloc)));
    let mut err = MemSink::new(alloc, made(rt, [failing.said].to_vec(alloc)));
    let found = eacsl(
        alloc,
        words(rt, command),
        &mut files,
        &mut source,
        &mut out,
        &mut err,
    );
    Answer {
        status: found,
        output: made(rt, out.bytes().to_vec(alloc)),
        line: made(rt, err.bytes().to_vec(alloc)),
    }
}

/// Each beginning of a text is refused, but for the one that leaves out the last line end.
fn beginnings_are_refused(rt: &(impl Abort + AllocGlobal), command: &str, text: &[u8], whole: u8) {
    for length in 0..text.len() {
        let wanted = if length == text.len() - 1 {
            whole
        } else {
            status::REFUSED
        };
        let found = answer_to(rt, command, &text[..length], b"", NONE);
        same_number(rt, u128::from(found.status), u128::from(wanted));
    }
}

/// Compares the status, the output and the line that a text gives on an input, where a port fails.
fn gives(
    rt: &(impl Abort + AllocGlobal),
    text: &[u8],
    input: &[u8],
    failing: Failing,
    wanted: u8,
    out: &[u8],
    line: &[u8],
) {
    let found = answer_to(rt, "run", text, input, failing);
    same_bytes(rt, &found.output, out);
    same_bytes(rt, &found.line, line);
    same_number(rt, u128::from(found.status), u128::from(wanted));
}

/// So many bytes of one value.
fn repeated(rt: &(impl Abort + AllocGlobal), count: u32) -> Vec<u8> {
    let mut bytes = Vec::new(rt.alloc());
    for _ in 0..count {
        made(rt, bytes.push(b'x'));
    }
    bytes
}

#[test]
fn each_beginning_of_a_text_is_refused(rt: HostRuntime) {
    beginnings_are_refused(&rt, "run", FINDS, status::EXITED);
}

#[test]
fn each_beginning_of_a_monitored_text_is_refused(rt: HostRuntime) {
    beginnings_are_refused(&rt, "exec", MONITORED, status::BROKEN);
}

#[test]
fn an_input_that_fails_at_a_call_ends_the_run_there(rt: HostRuntime) {
    for (read, length) in [(1, 0), (2, 4), (3, 8), (4, 13)] {
        let failing = Failing { read, ..NONE };
        let lines = &b"3:1\n7:3\nx:-1\n"[..length];
        gives(
            &rt,
            FINDS,
            b"37x\n",
            failing,
            status::READ_FAULT,
            lines,
            b"eacsl: read fault\n",
        );
    }
}

#[test]
fn an_output_that_fails_at_a_call_has_what_was_put_before(rt: HostRuntime) {
    let input = repeated(&rt, 9_000);
    for (put, length) in [(1, 0), (2, 4_096), (3, 8_192)] {
        let failing = Failing { put, ..NONE };
        gives(
            &rt,
            COPIES,
            &input,
            failing,
            status::WRITE_FAULT,
            &repeated(&rt, length),
            b"",
        );
    }
}

#[test]
fn an_error_output_that_fails_is_a_write_fault(rt: HostRuntime) {
    let failing = Failing { said: 1, ..NONE };
    gives(&rt, STOPS, b"", failing, status::WRITE_FAULT, b"A", b"");
}
