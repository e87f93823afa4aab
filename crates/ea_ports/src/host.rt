// Adapters over the host. They tell no content, and count the errors of the host.
ghost use Rattle.std.specs.Prelude.{◌≡◌, ◌+◌, ◌<◌, ◌≤◌, None, Result, length, IfOk, OnErr, IsErrOf};
ghost use Rattle.std.specs.Io.KnownBytes.{WriteAppends};
ghost use Rattle.std.specs.IoError.{error_kind};
ghost use Rattle.std.specs.declared.io.Error.{Error};
ghost use Rattle.ea_ports.specs.Port.{FailsOnBytes, Fetches, FolderCount, Puts, SinkCount, SourceCount, Takes, most_fetched};
ghost use Rattle.ea_ports.specs.HostFiles.{fault_of, FollowsOpened, ReadsWithin, LosesAtMost, ReadsPiece, Reads, Writes};

use crate::{Failed, FetchFault, Folder, Sink, SinkFault, Source};
use std::alloc::Global;
use std::io::{ErrorKind, Read, Write};
use std::rt::Files;
use std::{fs, io};

// The most bytes that one read of a file asks for.
const PIECE: usize = 4096;

/// A folder over the host's files, each name a path. Besides the errors of the host it counts a file that is
/// absent or over the limit, and running out of memory not at all.
#[derive(Drop)]
pub struct FileFolder<R> {
    rt: R,
    faults: u64,
}

impl<R: Files + Clone + Drop> FileFolder<R> {
    ghost use Rattle.ea_ports.specs.Host.{folder_faults};

    pub fn new(rt: R) -> FileFolder<R>
        ensures { folder_faults result ≡ 0 }
    {
        FileFolder { rt, faults: 0 }
    }
}

impl<R: Files + Clone + Drop> Folder for FileFolder<R> {
    ghost use Rattle.ea_ports.specs.Host.{folder_faults};

    ghost content = { λ _. None };

    ghost faults = { folder_faults };

    fn fetch(&mut self, alloc: Global, name: &str, limit: usize) -> Result<Vec<u8>, FetchFault>
        requires { limit ≤ most_fetched }
        ensures bytes { Fetches None name.now limit result }
        ensures count { FolderCount None (folder_faults self.old) (folder_faults self.new) result }

        // What opening a file of the host gave decides the answer.
        ensures opened { (opened : Result R.File Error) × FollowsOpened R.File.remaining limit opened result }
    {
        match content_of_opened(fs::open(&self.rt, name), alloc, limit) {
            Ok(bytes) => Ok(bytes),
            Err(FetchFault::Memory) => Err(FetchFault::Memory),
            Err(fault) => {
                self.faults = self.faults.saturating_add(1);
                Err(fault)
            }
        }
    }
}

// What the host's error means for a fetch.
fn fault_of_error(error: &io::Error) -> FetchFault
    ensures { result ≡ fault_of (error_kind error.now) }
{
    match error.kind() {
        ErrorKind::NotFound => FetchFault::Missing,
        ErrorKind::OutOfMemory => FetchFault::Memory,
        _ => FetchFault::Failed,
    }
}

// The whole content of an opened file, where it has at most `limit` bytes.
fn content_of_opened<F: Read + Drop>(
    opened: io::Result<F>,
    alloc: Global,
    limit: usize,
) -> Result<Vec<u8>, FetchFault>
    requires { limit ≤ most_fetched }
    ensures { FollowsOpened F.remaining limit opened result }
{
    match opened {
        Ok(mut file) => read_within(&mut file, alloc, limit),
        Err(error) => Err(fault_of_error(&error)),
    }
}

// All that a reader has left, where that is at most `limit` bytes. It reads at most one byte more.
fn read_within<F: Read>(file: &mut F, alloc: Global, limit: usize) -> Result<Vec<u8>, FetchFault>
    requires { limit ≤ most_fetched }
    ensures content { ReadsWithin (F.remaining file.old) limit result }
    ensures limited { LosesAtMost (F.remaining file.old) (F.remaining file.new) (limit + 1) }
{
    let mut bytes: Vec<u8> = Vec::new(alloc);
    while bytes.len() <= limit {
        let room = (limit - bytes.len() + 1).min(PIECE);
        if read_piece(file, &mut bytes, room)? == 0 {
            return Ok(bytes);
        }
    }
    Err(FetchFault::TooLong)
}

// One read of at most `room` bytes, put after those that are there. It gives their number, 0 at the end.
fn read_piece<F: Read>(file: &mut F, bytes: &mut Vec<u8>, room: usize) -> Result<usize, FetchFault>
    requires some { 0 < room }
    requires most { room ≤ PIECE }
    ensures content { ReadsPiece (F.remaining file.old) (F.remaining file.new) bytes.old.items bytes.new.items result }
    ensures limited { LosesAtMost (F.remaining file.old) (F.remaining file.new) room }
    ensures room { IfOk result (λ n. n ≤ room) }
{
    let mut piece = [0u8; PIECE];
    match file.read(&mut piece[..room]) {
        Ok(n) => match bytes.extend_from_slice(&piece[..n]) {
            Ok(()) => Ok(n),
            Err(_) => Err(FetchFault::Memory),
        },
        Err(error) => Err(fault_of_error(&error)),
    }
}

/// A source over a reader, of which it reads one byte a call.
#[derive(Drop)]
pub struct ReadSource<R> {
    reader: R,
    faults: u64,
}

impl<R: Read + Drop> ReadSource<R> {
    ghost use Rattle.ea_ports.specs.Host.{source_faults, source_reader};

    pub fn new(reader: R) -> ReadSource<R>
        ensures faults { source_faults result ≡ 0 }
        ensures reader { source_reader result ≡ reader }
    {
        ReadSource { reader, faults: 0 }
    }
}

impl<R: Read + Drop> Source for ReadSource<R> {
    ghost use Rattle.ea_ports.specs.Host.{source_faults, source_reader};

    ghost left = { λ _. None };

    ghost faults = { source_faults };

    fn next(&mut self) -> Result<Option<u8>, Failed>
        ensures bytes { Takes None None result }
        ensures count { SourceCount (source_faults self.old) (source_faults self.new) result }

        ensures read { Reads (R.remaining (source_reader self.old)) (R.remaining (source_reader self.new)) result }
    {
        let mut byte = [0u8];
        match self.reader.read(&mut byte) {
            Ok(0) => Ok(None),
            Ok(_) => Ok(Some(byte[0])),
            Err(_) => {
                self.faults = self.faults.saturating_add(1);
                Err(Failed)
            }
        }
    }
}

/// A sink over a writer. A write that takes no byte is a failure, and so is each error of the host.
#[derive(Drop)]
pub struct WriteSink<W> {
    writer: W,
    faults: u64,
}

impl<W: Write + Drop> WriteSink<W> {
    ghost use Rattle.ea_ports.specs.Host.{sink_faults, sink_writer};

    pub fn new(writer: W) -> WriteSink<W>
        ensures faults { sink_faults result ≡ 0 }
        ensures writer { sink_writer result ≡ writer }
    {
        WriteSink { writer, faults: 0 }
    }
}

impl<W: Write + Drop> Sink for WriteSink<W> {
    ghost use Rattle.ea_ports.specs.Host.{sink_faults, sink_writer};

    ghost told = { λ _. None };

    ghost faults = { sink_faults };

    fn put(&mut self, bytes: &[u8]) -> Result<(), SinkFault>
        ensures bytes { Puts None None bytes.now result }
        ensures empty { FailsOnBytes bytes.now result }
        ensures count { SinkCount (sink_faults self.old) (sink_faults self.new) result }

        ensures takes_no_memory { ¬ IsErrOf result SinkFault.Memory }
        ensures written { Writes (W.contents (sink_writer self.old)) (W.contents (sink_writer self.new)) bytes.now result }
    {
        match write_whole(&mut self.writer, bytes) {
            Ok(()) => Ok(()),
            Err(Failed) => {
                self.faults = self.faults.saturating_add(1);
                Err(SinkFault::Failed)
            }
        }
    }
}

// Writes all bytes, or a prefix of them where the writer fails.
fn write_whole<W: Write>(writer: &mut W, bytes: &[u8]) -> Result<(), Failed>
    ensures written { Writes (W.contents writer.old) (W.contents writer.new) bytes.now result }
    ensures empty { OnErr result (0 < length bytes.now) }
{
    let mut at = 0;
    while at < bytes.len() {
        at += write_some(writer, &bytes[at..])?;
    }
    Ok(())
}

// One write of at least one byte. It gives their number.
fn write_some<W: Write>(writer: &mut W, bytes: &[u8]) -> Result<usize, Failed>
    ensures some { IfOk result (λ n. 0 < n) }
    ensures bound { IfOk result (λ n. n ≤ length bytes.now) }
    ensures written { WriteAppends (W.contents writer.old) (W.contents writer.new) result bytes.now }
{
    match writer.write(bytes) {
        Ok(0) | Err(_) => Err(Failed),
        Ok(n) => Ok(n),
    }
}
