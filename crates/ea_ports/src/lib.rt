//! The outside of a run: a folder gives files, a source gives bytes one at a time, and a sink takes bytes.
//! Each has a count of its faults, and may tell what it holds, has left or has taken.
#![tactic(auto)]

ghost use Rattle.std.specs.Prelude.{◌≡◌, ℕ, ◌≤◌, List, Option};
ghost use Rattle.ea_ports.specs.Port.{FailsOnBytes, Fetches, FolderCount, Puts, SinkCount, SourceCount, Takes, most_fetched};

use std::alloc::Global;
use thiserror::Error;

mod buffer;
mod calls;
mod files;
mod host;
mod memory;
mod sure;

pub use buffer::Buffer;
pub use host::{FileFolder, ReadSource, WriteSink};
pub use memory::{MemFolder, MemSink, MemSource};
pub use sure::{SureFolder, SureSink, SureSource};

/// Why a folder gives no content.
#[derive(Clone, Copy, PartialEq, Eq, Debug, Drop, Error)]
pub enum FetchFault {
    #[error("there is no such file")]
    Missing,
    #[error("the file is too long")]
    TooLong,
    #[error("the file could not be read")]
    Failed,
    #[error("out of memory")]
    Memory,
}

/// Why a sink did not take all bytes.
#[derive(Clone, Copy, PartialEq, Eq, Debug, Drop, Error)]
pub enum SinkFault {
    #[error("the output could not be written")]
    Failed,
    #[error("out of memory")]
    Memory,
}

/// A source could not say what comes next.
#[derive(Clone, Copy, PartialEq, Eq, Debug, Drop, Error)]
#[error("the input could not be read")]
pub struct Failed;

/// Gives the content of files by name.
pub trait Folder {
    /// The content by the bytes of a name, where the folder tells it.
    ghost content: { Self → Option (List ℕ → Option (List ℕ)) };

    /// How often the folder has failed, up to the last value of a `u64`.
    ghost faults: { Self → ℕ };

    /// The whole content under `name`, of at most `limit` bytes. The limit is at most 64 MiB.
    fn fetch(&mut self, alloc: Global, name: &str, limit: usize) -> Result<Vec<u8>, FetchFault>
        requires { limit ≤ most_fetched }
        ensures bytes { Fetches (content self.old) name.now limit result }
        ensures kept { content self.new ≡ content self.old }
        ensures count { FolderCount (content self.old) (faults self.old) (faults self.new) result };
}

/// Gives bytes one at a time.
pub trait Source {
    /// The bytes left, where the source tells them.
    ghost left: { Self → Option (List ℕ) };

    /// How often the source has failed, up to the last value of a `u64`.
    ghost faults: { Self → ℕ };

    /// The next byte, or `None` at the end.
    fn next(&mut self) -> Result<Option<u8>, Failed>
        ensures bytes { Takes (left self.old) (left self.new) result }
        ensures count { SourceCount (faults self.old) (faults self.new) result };
}

/// Takes bytes.
pub trait Sink {
    /// The bytes so far, where the sink tells them.
    ghost told: { Self → Option (List ℕ) };

    /// How often the sink has failed, up to the last value of a `u64`.
    ghost faults: { Self → ℕ };

    /// Appends all bytes, or a prefix of them where it fails.
    fn put(&mut self, bytes: &[u8]) -> Result<(), SinkFault>
        ensures bytes { Puts (told self.old) (told self.new) bytes.now result }
        ensures empty { FailsOnBytes bytes.now result }
        ensures count { SinkCount (faults self.old) (faults self.new) result };
}
