// Ports in memory that never fail, but when memory runs out: their counts are the constant 0.
ghost use Rattle.std.specs.Prelude.{◌≡◌, ◌≤◌, [], Some, OnErr};
ghost use Rattle.ea_ports.specs.Port.{FailsOnBytes, Fetches, FolderCount, Puts, SinkCount, most_fetched};
ghost use Rattle.ea_ports.specs.Files.{content_of, named_contents};

use crate::files::fetch_from;
use crate::{Failed, FetchFault, Folder, Sink, SinkFault, Source};
use std::alloc::Global;
use std::marker::Model;

/// A folder of the files that it is given. In a contract it is the list of their names and contents.
#[derive(Drop)]
pub struct SureFolder {
    files: Vec<(String, Vec<u8>)>,
}

impl Model for SureFolder {
    ghost use Rattle.std.specs.Prelude.{ℕ, List};
    ghost use Rattle.ea_ports.specs.Files.{named_contents};

    ghost Value = { List (List ℕ × List ℕ) };

    ghost view = { λ folder. named_contents folder.files.items };
}

impl SureFolder {
    /// The first entry of a name counts.
    pub fn new(files: Vec<(String, Vec<u8>)>) -> SureFolder
        ensures { result ≡ named_contents files.items }
    {
        SureFolder { files }
    }
}

impl Folder for SureFolder {
    ghost content = { λ files. Some (content_of files) };

    ghost faults = { λ _. 0 };

    fn fetch(&mut self, alloc: Global, name: &str, limit: usize) -> Result<Vec<u8>, FetchFault>
        requires { limit ≤ most_fetched }
        ensures bytes { Fetches (Some (content_of self.old)) name.now limit result }
        ensures count { FolderCount (Some (content_of self.old)) 0 0 result }

        ensures files { self.new ≡ self.old }
    {
        fetch_from(&self.files, alloc, name, limit)
    }
}

/// A source of the bytes that it is given. In a contract it is the list of the bytes left.
#[derive(Drop)]
pub struct SureSource {
    bytes: Vec<u8>,
    at: usize,
}

impl Model for SureSource {
    ghost use Rattle.std.specs.Prelude.{ℕ, ◌≤◌, List, drop, length};

    ghost Value = { List ℕ };

    ghost view = { λ source. drop source.at source.bytes.items };

    ghost invariant = { λ source. source.at ≤ length source.bytes.items };
}

impl SureSource {
    pub fn new(bytes: Vec<u8>) -> SureSource
        ensures { result ≡ bytes.items }
    {
        SureSource { bytes, at: 0 }
    }
}

impl Source for SureSource {
    ghost left = { λ bytes. Some bytes };

    ghost faults = { λ _. 0 };

    fn next(&mut self) -> Result<Option<u8>, Failed> {
        if self.at < self.bytes.len() {
            let byte = self.bytes[self.at];
            self.at += 1;
            Ok(Some(byte))
        } else {
            Ok(None)
        }
    }
}

/// A sink that keeps its bytes. In a contract it is the list of them.
#[derive(Drop)]
pub struct SureSink {
    bytes: Vec<u8>,
}

impl Model for SureSink {
    ghost use Rattle.std.specs.Prelude.{ℕ, List};

    ghost Value = { List ℕ };

    ghost view = { λ sink. sink.bytes.items };
}

impl SureSink {
    pub fn new(alloc: Global) -> SureSink
        ensures { result ≡ [] }
    {
        SureSink {
            bytes: Vec::new(alloc),
        }
    }

    /// The bytes so far.
    pub fn bytes(&self) -> &[u8]
        ensures { result.now ≡ self.now }
    {
        &self.bytes
    }
}

impl Sink for SureSink {
    ghost told = { λ bytes. Some bytes };

    ghost faults = { λ _. 0 };

    fn put(&mut self, bytes: &[u8]) -> Result<(), SinkFault>
        ensures bytes { Puts (Some self.old) (Some self.new) bytes.now result }
        ensures empty { FailsOnBytes bytes.now result }
        ensures count { SinkCount 0 0 result }

        ensures nothing { OnErr result (self.new ≡ self.old) }
    {
        match self.bytes.extend_from_slice(bytes) {
            Ok(()) => Ok(()),
            Err(_) => Err(SinkFault::Memory),
        }
    }
}
