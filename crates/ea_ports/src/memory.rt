// Ports in memory whose listed calls fail. The first call has the number 1.
ghost use Rattle.std.specs.Prelude.{◌≡◌, ◌≤◌, ◌↔◌, [], Some, IsTrue, IsErr, OnErr};
ghost use Rattle.ea_ports.specs.Port.{FailsOnBytes, Fetches, FolderCount, Puts, SinkCount, SourceCount, Takes, most_fetched};
ghost use Rattle.ea_ports.specs.Files.{content_of, named_contents};
ghost use Rattle.ea_ports.specs.Calls.{no_calls, next_is_listed, after_call};
ghost use Rattle.ea_ports.specs.Memory.{put_fails};

use crate::calls::CallLog;
use crate::files::fetch_from;
use crate::{Failed, FetchFault, Folder, Sink, SinkFault, Source};
use std::alloc::Global;
use std::marker::Model;

/// A folder of the files that it is given.
#[derive(Drop)]
pub struct MemFolder {
    files: Vec<(String, Vec<u8>)>,
    calls: CallLog,
}

impl Model for MemFolder {
    ghost use Rattle.ea_ports.specs.Files.{named_contents};
    ghost use Rattle.ea_ports.specs.Memory.{FolderState};

    ghost Value = { FolderState };

    ghost view = { λ folder. record { files = named_contents folder.files.items; calls = folder.calls } };
}

impl MemFolder {
    /// The first entry of a name counts. `failing` has the numbers of the calls that fail, from 1.
    pub fn new(files: Vec<(String, Vec<u8>)>, failing: Vec<u32>) -> MemFolder
        ensures { result ≡ record { files = named_contents files.items; calls = no_calls failing.items } }
    {
        MemFolder {
            files,
            calls: CallLog::new(failing),
        }
    }
}

impl Folder for MemFolder {
    ghost content = { λ folder. Some (content_of folder.files) };

    ghost faults = { λ folder. folder.calls.failed };

    fn fetch(&mut self, alloc: Global, name: &str, limit: usize) -> Result<Vec<u8>, FetchFault>
        requires { limit ≤ most_fetched }
        ensures bytes { Fetches (Some (content_of self.old.files)) name.now limit result }
        ensures kept { Some (content_of self.new.files) ≡ Some (content_of self.old.files) }
        ensures count { FolderCount (Some (content_of self.old.files)) self.old.calls.failed self.new.calls.failed result }

        ensures files { self.new.files ≡ self.old.files }
        ensures listed { (result ≡ Err FetchFault.Failed) ↔ IsTrue (next_is_listed self.old.calls) }
        ensures called { self.new.calls ≡ after_call (next_is_listed self.old.calls) self.old.calls }
    {
        if self.calls.call(true) {
            return Err(FetchFault::Failed);
        }
        fetch_from(&self.files, alloc, name, limit)
    }
}

/// A source of the bytes that it is given.
#[derive(Drop)]
pub struct MemSource {
    bytes: Vec<u8>,
    at: usize,
    calls: CallLog,
}

impl Model for MemSource {
    ghost use Rattle.std.specs.Prelude.{◌≤◌, drop, length};
    ghost use Rattle.ea_ports.specs.Memory.{SourceState};

    ghost Value = { SourceState };

    ghost view = { λ source. record { left = drop source.at source.bytes.items; calls = source.calls } };

    ghost invariant = { λ source. source.at ≤ length source.bytes.items };
}

impl MemSource {
    /// `failing` has the numbers of the calls that fail, from 1.
    pub fn new(bytes: Vec<u8>, failing: Vec<u32>) -> MemSource
        ensures { result ≡ record { left = bytes.items; calls = no_calls failing.items } }
    {
        MemSource {
            bytes,
            at: 0,
            calls: CallLog::new(failing),
        }
    }
}

impl Source for MemSource {
    ghost left = { λ source. Some source.left };

    ghost faults = { λ source. source.calls.failed };

    fn next(&mut self) -> Result<Option<u8>, Failed>
        ensures bytes { Takes (Some self.old.left) (Some self.new.left) result }
        ensures count { SourceCount self.old.calls.failed self.new.calls.failed result }

        ensures listed { IsErr result ↔ IsTrue (next_is_listed self.old.calls) }
        ensures called { self.new.calls ≡ after_call (next_is_listed self.old.calls) self.old.calls }
    {
        if self.calls.call(true) {
            return Err(Failed);
        }
        if self.at < self.bytes.len() {
            let byte = self.bytes[self.at];
            self.at += 1;
            Ok(Some(byte))
        } else {
            Ok(None)
        }
    }
}

/// A sink that keeps its bytes.
#[derive(Drop)]
pub struct MemSink {
    bytes: Vec<u8>,
    calls: CallLog,
}

impl Model for MemSink {
    ghost use Rattle.ea_ports.specs.Memory.{SinkState};

    ghost Value = { SinkState };

    ghost view = { λ sink. record { bytes = sink.bytes.items; calls = sink.calls } };
}

impl MemSink {
    /// `failing` has the numbers of the calls that fail, from 1. A `put` of no bytes is a call, and doesn't fail.
    pub fn new(alloc: Global, failing: Vec<u32>) -> MemSink
        ensures { result ≡ record { bytes = []; calls = no_calls failing.items } }
    {
        MemSink {
            bytes: Vec::new(alloc),
            calls: CallLog::new(failing),
        }
    }

    /// The bytes so far.
    pub fn bytes(&self) -> &[u8]
        ensures { result.now ≡ self.now.bytes }
    {
        &self.bytes
    }
}

impl Sink for MemSink {
    ghost told = { λ sink. Some sink.bytes };

    ghost faults = { λ sink. sink.calls.failed };

    fn put(&mut self, bytes: &[u8]) -> Result<(), SinkFault>
        ensures bytes { Puts (Some self.old.bytes) (Some self.new.bytes) bytes.now result }
        ensures empty { FailsOnBytes bytes.now result }
        ensures count { SinkCount self.old.calls.failed self.new.calls.failed result }

        ensures nothing { OnErr result (self.new.bytes ≡ self.old.bytes) }
        ensures listed { (result ≡ Err SinkFault.Failed) ↔ IsTrue (put_fails self.old.calls bytes.now) }
        ensures called { self.new.calls ≡ after_call (put_fails self.old.calls bytes.now) self.old.calls }
    {
        if self.calls.call(!bytes.is_empty()) {
            return Err(SinkFault::Failed);
        }
        match self.bytes.extend_from_slice(bytes) {
            Ok(()) => Ok(()),
            Err(_) => Err(SinkFault::Memory),
        }
    }
}
