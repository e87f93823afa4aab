//! Folders, sources and sinks over the host.

ghost use Rattle.std.specs.Prelude.{◌≤◌, IfOk};

use crate::ports::{fetches, gives, puts};
use crate::same::same_bytes;
use ea_ports::{FileFolder, ReadSource, WriteSink};
use std::io;
use std::io::{ErrorKind, Read, Write};

#[test]
fn files_are_fetched(rt: HostRuntime) {
    let mut folder = FileFolder::new(&rt);
    let rows = [
        ("/proc/sys/kernel/ostype", 6, "Linux\n"),
        ("/proc/sys/kernel/ostype", 5, "long"),
        ("/dev/zero", 9000, "long"),
        ("/dev/null", 0, ""),
        ("/no such file", 9, "missing"),
        ("/", 9, "failed"),
    ];
    fetches(&rt, &mut folder, &rows);
}

/// Gives and takes at most two bytes a call. The second call fails, and the fifth moves nothing.
#[derive(Drop)]
struct Fitful<'a> {
    calls: u8,
    taken: &'a mut Vec<u8>,
}

impl Fitful<'_> {
    fn room(&mut self, asked: usize) -> io::Result<usize>
        ensures { IfOk result (λ n. n ≤ asked) }
    {
        self.calls = self.calls.saturating_add(1);
        match self.calls {
            2 => Err(io::Error::from(ErrorKind::Interrupted)),
            5 => Ok(0),
            _ => Ok(asked.min(2)),
        }
    }
}

impl Read for Fitful<'_> {
    fn read(&mut self, buf: &mut [u8]) -> io::Result<usize> {
        let room = self.room(buf.len())?;
        for byte in &mut buf[..room] {
            *byte = b'z';
        }
        Ok(room)
    }
}

impl Write for Fitful<'_> {
    fn write(&mut self, buf: &[u8]) -> io::Result<usize> {
        let room = self.room(buf.len())?;
        self.taken.extend_from_slice(&buf[..room])?;
        Ok(room)
    }

    fn flush(&mut self) -> io::Result<()> {
        Ok(())
    }
}

#[test]
fn a_source_gives_what_its_reader_gives(rt: HostRuntime) {
    let mut unused = Vec::new(rt.alloc());
    let mut source = ReadSource::new(Fitful {
        calls: 0,
        taken: &mut unused,
    });
    gives(&rt, &mut source, b"z!zz-");
}

#[test]
fn a_sink_writes_all_or_fails(rt: HostRuntime) {
    let mut taken = Vec::new(rt.alloc());
    let mut sink = WriteSink::new(Fitful {
        calls: 0,
        taken: &mut taken,
    });
    puts(&rt, &mut sink, "ab cd  efghij klm", b".!.!.");
    drop(sink);
    same_bytes(&rt, &taken, b"abefghklm");
}
