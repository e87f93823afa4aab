//! The top call, over ports in memory.

use crate::same::{made, same_bytes, same_number};
use ea_ports::{SureFolder, SureSink, SureSource};
use eacsl_cli::{eacsl, status};
use std::process::Abort;

/// The words `run a.c`.
fn words(rt: &(impl Abort + AllocGlobal)) -> Vec<String> {
    let mut words = Vec::new(rt.alloc());
    for word in ["run", "a.c"] {
        let word = made(rt, String::from_str(rt.alloc(), word));
        made(rt, words.push(word));
    }
    words
}

/// A folder that has `a.c` with this text.
fn folder(rt: &(impl Abort + AllocGlobal), text: Vec<u8>) -> SureFolder {
    let name = made(rt, String::from_str(rt.alloc(), "a.c"));
    let mut files = Vec::new(rt.alloc());
    made(rt, files.push((name, text)));
    SureFolder::new(files)
}

/// Compares the status, the output and the line of `run` of a text without input.
fn gives(rt: &(impl Abort + AllocGlobal), text: Vec<u8>, wanted: u8, out: &str, line: &str) {
    let mut files = folder(rt, text);
    let mut input = SureSource::new(Vec::new(rt.alloc()));
    let mut put = SureSink::new(rt.alloc());
    let mut said = SureSink::new(rt.alloc());
    let found = eacsl(
        rt.alloc(),
        words(rt),
        &mut files,
        &mut input,
        &mut put,
        &mut said,
    );
    same_bytes(rt, put.bytes(), out.as_bytes());
    same_bytes(rt, said.bytes(), line.as_bytes());
    same_number(rt, u128::from(found), u128::from(wanted));
}

fn text_gives(rt: &(impl Abort + AllocGlobal), text: &str, wanted: u8, out: &str, line: &str) {
    gives(
        rt,
        made(rt, text.as_bytes().to_vec(rt.alloc())),
        wanted,
        out,
        line,
    );
}

/// A text that repeats a byte between two parts.
fn repeating(
    rt: &(impl Abort + AllocGlobal),
    before: &str,
    byte: u8,
    count: u16,
    after: &str,
) -> Vec<u8> {
    let mut text = made(rt, before.as_bytes().to_vec(rt.alloc()));
    for _ in 0..count {
        made(rt, text.push(byte));
    }
    made(rt, text.extend_from_slice(after.as_bytes()));
    text
}

#[test]
fn members_elements_and_strings_are_read_and_written(rt: HostRuntime) {
    text_gives(
        &rt,
        "struct s { char c; int n; };
struct s g;
int t[2][3];
int main(void) {
  struct s *p = &g;
  int i = 0;
  int *q = &t[1][0];
  char *w = \"hey\";
  p->n = 5;
  for (i = 0; i < 3; i = i + 1) {
    *(q + i) = p->n + i;
  }
  //@ assert i == 3;
  putchar(w[1]);
  putchar(t[1][2] + 58);
  return sizeof(struct s);
}
",
        status::EXITED,
        "eA",
        "eacsl: exit 8\n",
    );
}

#[test]
fn an_assert_over_an_unwritten_variable_is_undefined(rt: HostRuntime) {
    text_gives(
        &rt,
        "int main(void) { int x; /*@ assert x == 0; */ return 0; }",
        status::BROKEN,
        "",
        "eacsl: annotation 1, line 1: assert is undefined\n",
    );
}

#[test]
fn calls_fill_the_frames_or_the_stack(rt: HostRuntime) {
    text_gives(
        &rt,
        "int f(int n) { return f(n); } int main(void) { return f(0); }",
        status::FULL,
        "",
        "eacsl: full frames\n",
    );
    text_gives(
        &rt,
        "int f(int n, int m) { return f(n, m); } int main(void) { return f(0, 0); }",
        status::FULL,
        "",
        "eacsl: full stack\n",
    );
}

#[test]
fn types_nesting_and_room_are_refused(rt: HostRuntime) {
    text_gives(
        &rt,
        "int main(void) { int *p = 3; return 0; }",
        status::REFUSED,
        "",
        "eacsl: refused E6 at 1:25: =\n",
    );
    text_gives(
        &rt,
        "char a[1048576]; int main(void) { return 0; }",
        status::REFUSED,
        "",
        "eacsl: refused E12 at 1:6: a\n",
    );
    gives(
        &rt,
        repeating(&rt, "int a[1] = ", b'{', 201, ""),
        status::REFUSED,
        "",
        "eacsl: refused E11 at 1:212: nesting\n",
    );
    gives(
        &rt,
        repeating(&rt, "int ", b'*', 101, "p;"),
        status::REFUSED,
        "",
        "eacsl: refused E11 at 1:106: type\n",
    );
}

#[test]
fn no_bytes_are_null_and_a_product_is_unbounded(rt: HostRuntime) {
    text_gives(
        &rt,
        "#include <stdlib.h>
int main(void) { char *p = malloc(0); if (p == NULL) { putchar('0'); } free(p); p = calloc(4294967296, 4294967296); return 0; }
",
        status::FULL,
        "0",
        "eacsl: full heap\n",
    );
}

#[test]
fn the_heap_is_one_block_of_its_bytes_but_one(rt: HostRuntime) {
    text_gives(
        &rt,
        "#include <stdlib.h>
int main(void) {
  char *p = malloc(16777215);
  p[16777214] = 'z';
  putchar(p[16777214]);
  free(p);
  p = malloc(16777216);
  putchar('n');
  return 0;
}
",
        status::FULL,
        "z",
        "eacsl: full heap\n",
    );
}

#[test]
fn places_are_used_again(rt: HostRuntime) {
    text_gives(
        &rt,
        "#include <stdlib.h>
char *v[60000];
int main(void) {
  int i;
  for (i = 0; i < 60000; i++) v[i] = malloc(16);
  for (i = 0; i < 60000; i += 2) free(v[i]);
  for (i = 0; i < 60000; i += 2) v[i] = malloc(15);
  return 0;
}
",
        status::EXITED,
        "",
        "eacsl: exit 0\n",
    );
}

#[test]
fn a_struct_is_assigned_member_by_member(rt: HostRuntime) {
    text_gives(
        &rt,
        "struct s { int n; char c; };
int main(void) { struct s a; struct s b; a.n = 7; a.c = 'q'; b = a; a.c = 'x'; putchar(b.c); return b.n; }
",
        status::EXITED,
        "q",
        "eacsl: exit 7\n",
    );
}

#[test]
fn quotients_and_bits_in_asserts_are_those_of_mathematics(rt: HostRuntime) {
    text_gives(
        &rt,
        "int main(void) { int x = -7; /*@ assert x / 2 == -3 && x % 2 == -1 && x >> 1 == -4 && (x & 15) == 9; */ return 0; }",
        status::EXITED,
        "",
        "eacsl: exit 0\n",
    );
}

#[test]
fn a_count_of_a_shift_has_a_range_below_127(rt: HostRuntime) {
    text_gives(
        &rt,
        "int main(void) { int k = 37; /*@ assert 1 << (k & 31) == 32; */ return 0; }",
        status::EXITED,
        "",
        "eacsl: exit 0\n",
    );
    text_gives(
        &rt,
        "int main(void) { int k = 37; /*@ assert 1 << k == 32; */ return 0; }",
        status::REFUSED,
        "",
        "eacsl: refused E10 at 1:43: <<\n",
    );
}

#[test]
fn a_left_side_decides_whether_the_right_one_is_asked(rt: HostRuntime) {
    text_gives(
        &rt,
        "int main(void) {
  int x = 0;
  //@ assert x != 0 ==> 10 / x > 1;
  //@ assert 10 / x > 1 || x == 0;
  return 0;
}
",
        status::BROKEN,
        "",
        "eacsl: annotation 2, line 4: assert is undefined\n",
    );
}

#[test]
fn a_product_of_two_longs_has_128_bits(rt: HostRuntime) {
    text_gives(
        &rt,
        "int main(void) {
  long x = 9223372036854775807;
  long y = x;
  //@ assert x * y <= 9223372036854775807;
  return 0;
}
",
        status::BROKEN,
        "",
        "eacsl: annotation 1, line 4: assert is false\n",
    );
}

#[test]
fn a_product_of_three_longs_has_no_range(rt: HostRuntime) {
    text_gives(
        &rt,
        "int main(void) {
  long x = 1;
  long y = 1;
  long z = 1;
  //@ assert x * y * z == 1;
  return 0;
}
",
        status::REFUSED,
        "",
        "eacsl: refused E10 at 5:20: *\n",
    );
}
