// Runs an annotated program without input. The first line of the input says the way, the steps and how often, as `fused 1000 1`,
// and what comes after it is the program's text. The way is `fused`, by forms; `plain`, instruction by instruction; `both`, and then
// what the two come to is compared; or `each`, and then it is so with each smaller number of steps.
#![tactic(auto)]

use c_lower::{Code, lower};
use c_machine::{Ran, Stop, run, run_plainly};
use c_model::limits::MOST_ANNOTATED;
use c_reader::read_text;
use ea_ports::{SureSink, SureSource};
use instrument::instrument;
use std::alloc::Global;
use std::io;
use std::io::Read;

// The code of an annotated program whose text is accepted.
fn code_of(alloc: Global, text: &[u8]) -> Option<Code> {
    if text.len() > MOST_ANNOTATED {
        return None;
    }
    let program = match read_text(alloc, text) {
        Ok(program) => program,
        Err(_) => return None,
    };
    match instrument(alloc, &program) {
        Ok(m) => lower(alloc, &m).ok(),
        Err(_) => None,
    }
}

/// What a run came to, and what it wrote.
#[derive(Drop)]
struct Done {
    ran: Ran,
    out: SureSink,
}

// Runs code by forms, or instruction by instruction.
fn outcome(alloc: Global, code: &Code, steps: u64, fused: bool) -> Done {
    let mut input = SureSource::new(Vec::new(alloc));
    let mut out = SureSink::new(alloc);
    let ran = if fused {
        run(alloc, code, steps, &mut input, &mut out)
    } else {
        run_plainly(alloc, code, steps, &mut input, &mut out)
    };
    Done { ran, out }
}

// Whether two runs came to the same.
fn are_same(first: &Done, second: &Done) -> bool {
    first.ran == second.ran && first.out.bytes() == second.out.bytes()
}

// Runs code both ways with each number of steps up to this one: the first number with which they differ.
fn difference(alloc: Global, code: &Code, steps: u64) -> Option<u64> {
    for n in 0..steps {
        if !are_same(
            &outcome(alloc, code, n, true),
            &outcome(alloc, code, n, false),
        ) {
            return Some(n);
        }
    }
    None
}

// How a run ended, in a word.
fn end_word(stop: Stop) -> &'static str {
    match stop {
        Stop::Exit(_) => "exit",
        Stop::Broken { .. } => "broken",
        Stop::Spent => "spent",
        Stop::Full(_) => "full",
        Stop::Fault => "fault",
        Stop::ReadFault => "read fault",
        Stop::WriteFault => "write fault",
        Stop::OutOfMemory => "out of memory",
    }
}

fn say(rt: &HostRuntime, done: &Done) -> io::Result<()> {
    let word = end_word(done.ran.stop);
    let left = done.ran.left;
    let turns = done.ran.turns;
    let bytes = done.out.bytes().len();
    println!(rt; "{word}: {turns} instructions, {left} steps left, {bytes} bytes")
}

// Runs code so often one way, or both ways once, and says what it came to.
fn work(rt: &HostRuntime, code: &Code, way: &str, steps: u64, times: u64) -> io::Result<()> {
    if way == "each" {
        return match difference(rt.alloc(), code, steps) {
            Some(n) => println!(rt; "different with {n} steps"),
            None => println!(rt; "the same with fewer than {steps} steps"),
        };
    }
    for _ in 1..times {
        let _again = outcome(rt.alloc(), code, steps, way != "plain");
    }
    let last = outcome(rt.alloc(), code, steps, way != "plain");
    if way == "both" && !are_same(&last, &outcome(rt.alloc(), code, steps, false)) {
        return println!(rt; "different");
    }
    say(rt, &last)
}

fn main(rt: HostRuntime) -> io::Result<()> {
    let mut input = Vec::new(rt.alloc());
    rt.stdin().read_to_end(&mut input)?;
    let Ok(all) = std::str::from_utf8(&input) else {
        return println!(rt; "no text");
    };
    let Some((words, text)) = all.split_once('\n') else {
        return println!(rt; "no line");
    };
    let Some((way, numbers)) = words.split_once(' ') else {
        return println!(rt; "no words");
    };
    let Some((steps, times)) = numbers.split_once(' ') else {
        return println!(rt; "no numbers");
    };
    let steps = steps.parse::<u64>().unwrap_or(0);
    let times = times.parse::<u64>().unwrap_or(0);
    match code_of(rt.alloc(), text.as_bytes()) {
        Some(code) => work(&rt, &code, way, steps, times),
        None => println!(rt; "refused"),
    }
}
