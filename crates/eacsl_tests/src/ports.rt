//! Folders, sources and sinks in memory.

ghost use Rattle.std.specs.Prelude.{◌≤◌};

use crate::same::{made, same_bytes, same_number};
use ea_ports::{
    Buffer, Failed, FetchFault, Folder, MemFolder, MemSink, MemSource, Sink, SinkFault, Source,
    SureFolder, SureSink, SureSource,
};
use std::process::Abort;

fn file(rt: &(impl Abort + AllocGlobal), name: &str, content: &str) -> (String, Vec<u8>) {
    let name = made(rt, String::from_str(rt.alloc(), name));
    let content = made(rt, content.as_bytes().to_vec(rt.alloc()));
    (name, content)
}

/// `a.c` twice, of which the first counts, and an empty `b.c`.
fn files(rt: &(impl Abort + AllocGlobal)) -> Vec<(String, Vec<u8>)> {
    let mut files = Vec::new(rt.alloc());
    for (name, content) in [("a.c", "int x;"), ("a.c", "char y;"), ("b.c", "")] {
        made(rt, files.push(file(rt, name, content)));
    }
    files
}

fn fault_word(fault: FetchFault) -> &'static str {
    match fault {
        FetchFault::Missing => "missing",
        FetchFault::TooLong => "long",
        FetchFault::Failed => "failed",
        FetchFault::Memory => "memory",
    }
}

/// Compares what a folder gives under names, each with a limit, with their contents, or why there are none.
pub fn fetches<F: Folder>(
    rt: &(impl Abort + AllocGlobal),
    folder: &mut F,
    rows: &[(&str, u16, &str)],
) {
    for (name, limit, wanted) in rows {
        match folder.fetch(rt.alloc(), name, usize::from(*limit)) {
            Ok(content) => same_bytes(rt, &content, wanted.as_bytes()),
            Err(fault) => same_bytes(rt, fault_word(fault).as_bytes(), wanted.as_bytes()),
        }
    }
}

/// Compares what a source gives with a line: each byte, `-` for the end, and `!` for a failure.
pub fn gives<S: Source>(rt: &impl Abort, source: &mut S, wanted: &[u8]) {
    for byte in wanted {
        let found = match source.next() {
            Ok(Some(byte)) => byte,
            Ok(None) => b'-',
            Err(Failed) => b'!',
        };
        same_number(rt, u128::from(found), u128::from(*byte));
    }
}

/// Puts words, and compares what comes of each with a line: `.` where all was put, and `!` where the sink failed.
pub fn puts<S: Sink>(rt: &impl Abort, sink: &mut S, words: &str, wanted: &[u8]) {
    for (word, byte) in words.split(' ').zip(wanted) {
        same_number(
            rt,
            u128::from(put_byte(sink.put(word.as_bytes()))),
            u128::from(*byte),
        );
    }
}

fn put_byte(put: Result<(), SinkFault>) -> u8 {
    match put {
        Ok(()) => b'.',
        Err(SinkFault::Failed) => b'!',
        Err(SinkFault::Memory) => b'?',
    }
}

#[test]
fn a_sure_folder_gives_the_first_entry(rt: HostRuntime) {
    let mut folder = SureFolder::new(files(&rt));
    let rows = [
        ("a.c", 6, "int x;"),
        ("a.c", 5, "long"),
        ("b.c", 0, ""),
        ("a.", 9, "missing"),
    ];
    fetches(&rt, &mut folder, &rows);
}

#[test]
fn a_folder_fails_at_the_listed_calls(rt: HostRuntime) {
    let failing = made(&rt, [2, 4].to_vec(rt.alloc()));
    let mut folder = MemFolder::new(files(&rt), failing);
    let rows = [
        ("a.c", 6, "int x;"),
        ("a.c", 6, "failed"),
        ("a.c", 5, "long"),
        ("none", 9, "failed"),
        ("none", 9, "missing"),
    ];
    fetches(&rt, &mut folder, &rows);
}

#[test]
fn a_sure_source_gives_each_byte_and_then_the_end(rt: HostRuntime) {
    let mut source = SureSource::new(made(&rt, b"ab".to_vec(rt.alloc())));
    gives(&rt, &mut source, b"ab--");
}

#[test]
fn a_source_fails_at_the_listed_calls(rt: HostRuntime) {
    let failing = made(&rt, [1, 3, 5].to_vec(rt.alloc()));
    let mut source = MemSource::new(made(&rt, b"ab".to_vec(rt.alloc())), failing);
    gives(&rt, &mut source, b"!a!b!-");
}

#[test]
fn a_sure_sink_keeps_what_was_put(rt: HostRuntime) {
    let mut sink = SureSink::new(rt.alloc());
    puts(&rt, &mut sink, "ab  c", b"...");
    same_bytes(&rt, sink.bytes(), b"abc");
}

#[test]
fn a_sink_fails_at_the_listed_calls(rt: HostRuntime) {
    let failing = made(&rt, [2, 3].to_vec(rt.alloc()));
    let mut sink = MemSink::new(rt.alloc(), failing);
    puts(&rt, &mut sink, "ab cd  e", b".!..");
    same_bytes(&rt, sink.bytes(), b"abe");
}

/// Fills a buffer but for its last byte, puts more than fits, and ends it; the rest is given later. The line says what came of it.
fn fill(sink: &mut MemSink) -> [u8; 5] {
    let mut buffer = Buffer::new();
    let mut filled = Ok(());
    for _byte in 0..4095 {
        filled = buffer.byte(sink, b'a');
    }
    let whole = buffer.bytes(sink, b"bc");
    let failed = buffer.flush(sink);
    let later = buffer.bytes(sink, b"d");
    let rest = buffer.flush(sink);
    [
        put_byte(filled),
        put_byte(whole),
        put_byte(failed),
        put_byte(later),
        put_byte(rest),
    ]
}

#[test]
fn a_buffer_puts_whole_pieces_and_the_rest(rt: HostRuntime) {
    let failing = made(&rt, [2].to_vec(rt.alloc()));
    let mut sink = MemSink::new(rt.alloc(), failing);
    same_bytes(&rt, &fill(&mut sink), b"..!..");
    same_number(&rt, sink.bytes().len() as u128, 4097);
}
