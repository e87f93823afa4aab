//! The top call.

ghost use Rattle.std.specs.Prelude.{◌≡◌, ◌≤◌, List, None, Some, length, map, string_bytes};
ghost use Rattle.c_syntax.specs.Programs.{plain_refusal};
ghost use Rattle.c_model.specs.Limits.{most_annotated, most_monitored};
ghost use Rattle.c_model.specs.Reports.{line_of, refused_words};
ghost use Rattle.c_model.specs.Statuses.{fault_status, no_memory_status, refused_status};
ghost use Rattle.c_model.specs.WordLaws.{file_named};
ghost use Rattle.c_model.specs.Words.{job_of};
ghost use Rattle.c_machine.specs.Inputs.{taking};
ghost use Rattle.eacsl_cli.specs.Answers.{Answered, Begins, ExecBegins, ExecDue, InstrumentBegins, InstrumentDue, IsDue, IsSaid, RunBegins, RunDue};
ghost use Rattle.eacsl_cli.specs.Answers.{TextBegins, TextDue, change, file_limit, memory_line};
ghost use Rattle.eacsl_cli.specs.Settled.{DoneSaid, EndedSaid, IsReported, IsSettled, IsTold, Reported};
ghost use Rattle.eacsl_cli.specs.Complete.{Complete, IsStatus, LeavesSource};
ghost use Rattle.eacsl_cli.specs.Faults.{ShowsFault};

use crate::lines::{broken_line, exit_line, refused_line, say};
use crate::status;
use c_machine::Stop;
use c_model::limits::{MOST_ANNOTATED, MOST_MONITORED};
use c_model::{FileName, Job};
use c_syntax::{How, Kind, Refusal, Segment};
use command_words::read_words;
use ea_ports::{FetchFault, Folder, Sink, Source};
use eacsl_engine::{Done, Ended, exec_text, instrument_text, run_text};
use std::alloc::{AllocError, Global};

// Says that memory ran out.
fn out_of_memory<E: Sink>(err: &mut E) -> u8
    ensures { IsSaid memory_line no_memory_status (change (E.told err.old) (E.told err.new) (E.faults err.old) (E.faults err.new)) result }
{
    say(err, b"eacsl: out of memory\n", status::OUT_OF_MEMORY)
}

fn report_exit<E: Sink>(alloc: Global, value: i128, err: &mut E) -> u8
    ensures { IsReported (Stop.Exit value) (change (E.told err.old) (E.told err.new) (E.faults err.old) (E.faults err.new)) result }
{
    match exit_line(alloc, value) {
        Ok(line) => say(err, line.as_bytes(), status::EXITED),
        Err(_) => out_of_memory(err),
    }
}

fn report_broken<E: Sink>(
    alloc: Global,
    number: u32,
    line: u32,
    kind: Kind,
    how: How,
    err: &mut E,
) -> u8
    ensures { IsReported (Stop.Broken number line kind how) (change (E.told err.old) (E.told err.new) (E.faults err.old) (E.faults err.new)) result }
{
    match broken_line(alloc, number, line, kind, how) {
        Ok(line) => say(err, &line, status::BROKEN),
        Err(_) => out_of_memory(err),
    }
}

// Says which segment is full.
fn report_full<E: Sink>(segment: Segment, err: &mut E) -> u8
    ensures { IsTold (Stop.Full segment) (change (E.told err.old) (E.told err.new) (E.faults err.old) (E.faults err.new)) result }
{
    match segment {
        Segment::Heap => say(err, b"eacsl: full heap\n", status::FULL),
        Segment::Stack => say(err, b"eacsl: full stack\n", status::FULL),
        Segment::Frames => say(err, b"eacsl: full frames\n", status::FULL),
        Segment::Numbers => say(err, b"eacsl: full numbers\n", status::FULL),
    }
}

// Says how a run ended; nothing where the output failed.
fn report_stop<E: Sink>(alloc: Global, stop: Stop, err: &mut E) -> u8
    ensures { Reported stop (change (E.told err.old) (E.told err.new) (E.faults err.old) (E.faults err.new)) result }
{
    match stop {
        Stop::Exit(value) => report_exit(alloc, value, err),
        Stop::Broken {
            number,
            line,
            kind,
            how,
        } => report_broken(alloc, number, line, kind, how, err),
        Stop::Spent => say(err, b"eacsl: steps spent\n", status::SPENT),
        Stop::Full(segment) => report_full(segment, err),
        Stop::Fault => say(err, b"eacsl: fault\n", status::FAULT),
        Stop::ReadFault => say(err, b"eacsl: read fault\n", status::READ_FAULT),
        Stop::WriteFault => status::WRITE_FAULT,
        Stop::OutOfMemory => out_of_memory(err),
    }
}

// Says why a text is refused.
fn refuse<E: Sink>(alloc: Global, refusal: &Refusal, err: &mut E) -> u8
    ensures { IsSettled (line_of (refused_words (plain_refusal refusal.now))) refused_status (change (E.told err.old) (E.told err.new) (E.faults err.old)
        (E.faults err.new)) result }
{
    match refused_line(alloc, refusal) {
        Ok(line) => say(err, &line, status::REFUSED),
        Err(_) => out_of_memory(err),
    }
}

// Says how a text was run, or why it is refused.
fn report_ended<E: Sink>(alloc: Global, ended: &Ended, err: &mut E) -> u8
    ensures { EndedSaid ended.now (change (E.told err.old) (E.told err.new) (E.faults err.old) (E.faults err.new)) result }
{
    match ended {
        Ended::Finished { ran, .. } => report_stop(alloc, ran.stop, err),
        Ended::Refused(refusal) => refuse(alloc, refusal, err),
        Ended::OutOfMemory => out_of_memory(err),
    }
}

// Says why a text isn't written; nothing where it is, and where the output failed.
fn report_done<E: Sink>(alloc: Global, done: &Done, err: &mut E) -> u8
    ensures { DoneSaid done.now (change (E.told err.old) (E.told err.new) (E.faults err.old) (E.faults err.new)) result }
{
    match done {
        Done::Written => status::EXITED,
        Done::Refused(refusal) => refuse(alloc, refusal, err),
        Done::WriteFault => status::WRITE_FAULT,
        Done::OutOfMemory => out_of_memory(err),
    }
}

// Runs the annotated program that a text spells with so many steps, and says how it ended.
fn run_file<I: Source, O: Sink, E: Sink>(
    alloc: Global,
    text: &[u8],
    steps: u64,
    input: &mut I,
    out: &mut O,
    err: &mut E,
) -> u8
    requires { length text.now ≤ most_annotated }
    ensures { Answered (RunDue (taking (I.left input.old) (I.left input.new) (I.faults input.old) (I.faults input.new)) text.now steps)
        (RunBegins (taking (I.left input.old) (I.left input.new) (I.faults input.old) (I.faults input.new)) text.now steps)
        (change (O.told out.old) (O.told out.new) (O.faults out.old) (O.faults out.new)) (change (E.told err.old) (E.told err.new) (E.faults err.old)
        (E.faults err.new)) result }
{
    let ended = run_text(alloc, text, steps, input, out);
    report_ended(alloc, &ended, err)
}

// Writes the monitored text of the annotated program that a text spells, or says why the text is refused.
fn instrument_file<O: Sink, E: Sink>(alloc: Global, text: &[u8], out: &mut O, err: &mut E) -> u8
    requires { length text.now ≤ most_annotated }
    ensures { Answered (InstrumentDue text.now) (InstrumentBegins text.now) (change (O.told out.old) (O.told out.new) (O.faults out.old) (O.faults out.new))
        (change (E.told err.old) (E.told err.new) (E.faults err.old) (E.faults err.new)) result }
{
    let done = instrument_text(alloc, text, out);
    report_done(alloc, &done, err)
}

// Runs the program in monitored C that a text spells with so many steps, and says how it ended.
fn exec_file<I: Source, O: Sink, E: Sink>(
    alloc: Global,
    text: &[u8],
    steps: u64,
    input: &mut I,
    out: &mut O,
    err: &mut E,
) -> u8
    requires { length text.now ≤ most_monitored }
    ensures { Answered (ExecDue (taking (I.left input.old) (I.left input.new) (I.faults input.old) (I.faults input.new)) text.now steps)
        (ExecBegins (taking (I.left input.old) (I.left input.new) (I.faults input.old) (I.faults input.new)) text.now steps)
        (change (O.told out.old) (O.told out.new) (O.faults out.old) (O.faults out.new)) (change (E.told err.old) (E.told err.new) (E.faults err.old)
        (E.faults err.new)) result }
{
    let ended = exec_text(alloc, text, steps, input, out);
    report_ended(alloc, &ended, err)
}

// Does a job on the text of its file.
fn do_job<I: Source, O: Sink, E: Sink>(
    alloc: Global,
    job: &Job,
    text: &[u8],
    input: &mut I,
    out: &mut O,
    err: &mut E,
) -> u8
    requires { length text.now ≤ file_limit job.now }
    ensures answered { Answered (TextDue (taking (I.left input.old) (I.left input.new) (I.faults input.old) (I.faults input.new)) job.now text.now)
        (TextBegins (taking (I.left input.old) (I.left input.new) (I.faults input.old) (I.faults input.new)) job.now text.now)
        (change (O.told out.old) (O.told out.new) (O.faults out.old) (O.faults out.new)) (change (E.told err.old) (E.told err.new) (E.faults err.old)
        (E.faults err.new)) result }
    ensures unread { LeavesSource (Some job.now) (taking (I.left input.old) (I.left input.new) (I.faults input.old) (I.faults input.new)) }
{
    match job {
        Job::Run { steps, .. } => run_file(alloc, text, *steps, input, out, err),
        Job::Instrument { .. } => instrument_file(alloc, text, out, err),
        Job::Exec { steps, .. } => exec_file(alloc, text, *steps, input, out, err),
    }
}

// The name of the file of a job.
fn file_name(job: &Job) -> &FileName
    ensures { result.now ≡ file_named job.now }
{
    match job {
        Job::Run { file, .. } => file,
        Job::Instrument { file, .. } => file,
        Job::Exec { file, .. } => file,
    }
}

// The most bytes that the file of a job may have.
fn limit_of(job: &Job) -> usize
    ensures { result ≡ file_limit job.now }
{
    match job {
        Job::Run { .. } => MOST_ANNOTATED,
        Job::Instrument { .. } => MOST_ANNOTATED,
        Job::Exec { .. } => MOST_MONITORED,
    }
}

/// Does what the words of a command line ask for, without the program's name, and returns the exit status.
///
/// `run FILE [--steps N]` reads the annotated C text of at most 1 MiB that `files` has under the name, translates its
/// program into monitored C and runs that: what it prints goes to `out`, and one line to `err` says how it ended.
/// `instrument FILE` writes the translation to `out` instead. `exec FILE [--steps N]` runs a text in monitored C, of at
/// most 64 MiB.
///
/// | Status | Line |
/// |---|---|
/// | 0 | `exit K`: the program ended with the value `K`; none for `instrument` |
/// | 1 | `annotation A, line L: KIND is HOW`: the first annotation that is false or undefined |
/// | 2 | `refused EC at L:C: WORD`: the text is outside the language |
/// | 3 | `usage`: the words have no job |
/// | 4 | `full SEGMENT`: the run wants more room than there is |
/// | 5 | `steps spent` |
/// | 6 | `fault`: the machine faulted; for `run` only after an undefined operation of the source |
/// | 7 | `read fault`: the folder failed, or `input` did |
/// | 8 | none, or a part of a line: `out` or `err` failed |
/// | 9 | `out of memory`, or a part of a line |
/// | 10 | `no file` |
/// | 11 | `file too long` |
///
/// The program's input is `input`. After its end it is asked no more.
pub fn eacsl<F: Folder, I: Source, O: Sink, E: Sink>(
    alloc: Global,
    words: Vec<String>,
    files: &mut F,
    input: &mut I,
    out: &mut O,
    err: &mut E,
) -> u8
    ensures answered { Answered
        (IsDue (map string_bytes words.items) (F.content files.old) (F.faults files.old) (F.faults files.new)
        (taking (I.left input.old) (I.left input.new) (I.faults input.old) (I.faults input.new)))
        (Begins (map string_bytes words.items) (F.content files.old) (F.faults files.old) (F.faults files.new)
        (taking (I.left input.old) (I.left input.new) (I.faults input.old) (I.faults input.new)))
        (change (O.told out.old) (O.told out.new) (O.faults out.old) (O.faults out.new))
        (change (E.told err.old) (E.told err.new) (E.faults err.old) (E.faults err.new))
        result }
    ensures complete { Complete (map string_bytes words.items) (F.content files.old) (F.faults files.old) (F.faults files.new)
        (taking (I.left input.old) (I.left input.new) (I.faults input.old) (I.faults input.new))
        (change (O.told out.old) (O.told out.new) (O.faults out.old) (O.faults out.new))
        (change (E.told err.old) (E.told err.new) (E.faults err.old) (E.faults err.new))
        result }
    ensures status { IsStatus (F.faults files.old) (F.faults files.new) (taking (I.left input.old) (I.left input.new) (I.faults input.old) (I.faults input.new))
        result }
    ensures fault { result ≡ fault_status → ShowsFault (F.content files.old) (taking (I.left input.old) (I.left input.new) (I.faults input.old)
        (I.faults input.new)) (job_of (map string_bytes words.items)) }
    ensures kept { F.content files.new ≡ F.content files.old }
    ensures unread { LeavesSource (job_of (map string_bytes words.items)) (taking (I.left input.old) (I.left input.new) (I.faults input.old)
        (I.faults input.new)) }
    ensures unfetched { job_of (map string_bytes words.items) ≡ None → files.new ≡ files.old }
{
    let job = match read_words(alloc, &words) {
        Ok(Some(job)) => job,
        Ok(None) => return say(err, b"eacsl: usage\n", status::USAGE),
        Err(_) => return out_of_memory(err),
    };
    match files.fetch(alloc, file_name(&job).text(), limit_of(&job)) {
        Ok(text) => do_job(alloc, &job, &text, input, out, err),
        Err(FetchFault::Missing) => say(err, b"eacsl: no file\n", status::NO_FILE),
        Err(FetchFault::TooLong) => say(err, b"eacsl: file too long\n", status::TOO_LONG),
        Err(FetchFault::Failed) => say(err, b"eacsl: read fault\n", status::READ_FAULT),
        Err(FetchFault::Memory) => out_of_memory(err),
    }
}
