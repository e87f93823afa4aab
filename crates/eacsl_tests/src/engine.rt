//! The calls on a text: what they hand out, and that its code runs again as it ran.

use crate::same::{made, same_bytes, same_number};
use c_machine::{Ran, Stop, run};
use c_model::limits::MOST_MONITORED;
use c_printer::print;
use ea_ports::{SureSink, SureSource};
use eacsl_engine::{Done, Ended, exec_text, instrument_text, run_text};
use std::process::Abort;

// Steps enough for each run here.
const STEPS: u64 = 1_000;

// A text with three annotations, which copies three bytes.
const COPIES: &[u8] = b"int main(void) {
  int i = 0;
  //@ assert i == 0;
  while (i < 3) {
    putchar(getchar());
    i = i + 1;
    /*@ assert i > 0; assert i < 4; */
  }
  return i;
}
";

// What a run came to, and how many annotations its text has.
#[derive(Drop)]
struct Found {
    ran: Ran,
    annotations: u32,
}

fn input(rt: &(impl Abort + AllocGlobal)) -> SureSource {
    SureSource::new(made(rt, b"abc".to_vec(rt.alloc())))
}

fn exits_alike(rt: &impl Abort, found: Ran, wanted: Ran) {
    same_number(rt, u128::from(found.left), u128::from(wanted.left));
    same_number(rt, u128::from(found.turns), u128::from(wanted.turns));
    same_number(rt, u128::from(found.stop == Stop::Exit(3)), 1);
    same_number(rt, u128::from(wanted.stop == Stop::Exit(3)), 1);
}

/// Runs the code that a run handed out once more, and compares both.
fn handed_out(rt: &(impl Abort + AllocGlobal), ended: Ended, monitored_text: &[u8]) -> Found {
    match ended {
        Ended::Finished {
            ran,
            annotations,
            monitored,
            code,
        } => {
            let mut again = SureSink::new(rt.alloc());
            let other = run(rt.alloc(), &code, STEPS, &mut input(rt), &mut again);
            exits_alike(rt, other, ran);
            same_bytes(rt, again.bytes(), b"abc");
            let mut text = SureSink::new(rt.alloc());
            made(rt, print(&monitored, &mut text));
            same_bytes(rt, text.bytes(), monitored_text);
            Found { ran, annotations }
        }
        Ended::Refused(_) => panic!(rt; "refused"),
        Ended::OutOfMemory => panic!(rt; "out of memory"),
    }
}

/// The monitored text of the one above.
fn translation(rt: &(impl Abort + AllocGlobal)) -> SureSink {
    let mut text = SureSink::new(rt.alloc());
    match instrument_text(rt.alloc(), COPIES, &mut text) {
        Done::Written => text,
        Done::Refused(_) => panic!(rt; "refused"),
        Done::WriteFault => panic!(rt; "write fault"),
        Done::OutOfMemory => panic!(rt; "out of memory"),
    }
}

/// Runs a text and compares what it prints.
fn run_of(rt: &(impl Abort + AllocGlobal), monitored_text: &[u8]) -> Found {
    let mut out = SureSink::new(rt.alloc());
    let ended = run_text(rt.alloc(), COPIES, STEPS, &mut input(rt), &mut out);
    same_bytes(rt, out.bytes(), b"abc");
    handed_out(rt, ended, monitored_text)
}

/// Runs the monitored text and compares what it prints.
fn exec_of(rt: &(impl Abort + AllocGlobal), text: &[u8]) -> Found {
    if text.len() > MOST_MONITORED {
        panic!(rt; "too long");
    }
    let mut out = SureSink::new(rt.alloc());
    let ended = exec_text(rt.alloc(), text, STEPS, &mut input(rt), &mut out);
    same_bytes(rt, out.bytes(), b"abc");
    handed_out(rt, ended, text)
}

#[test]
fn a_run_hands_out_the_code_that_ran_and_the_program_that_is_written(rt: HostRuntime) {
    let text = translation(&rt);
    let ran = run_of(&rt, text.bytes());
    let executed = exec_of(&rt, text.bytes());
    exits_alike(&rt, executed.ran, ran.ran);
    same_number(&rt, u128::from(ran.annotations), 3);
    same_number(&rt, u128::from(executed.annotations), 0);
}
