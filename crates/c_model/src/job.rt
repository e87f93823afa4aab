//! What a command line asks the program to do.

ghost use Rattle.std.specs.Prelude.{◌≡◌, ℕ, List, string_bytes};

use std::marker::Model;

/// The name of a file, which contracts see as the bytes of its text.
#[derive(Drop)]
pub struct FileName {
    text: String,
}

impl Model for FileName {
    ghost Value = { List ℕ };

    ghost view = { λ name. string_bytes name.text };
}

impl FileName {
    /// Takes the text as it is, and no memory.
    pub fn new(text: String) -> FileName
        ensures { result ≡ string_bytes text }
    {
        FileName { text }
    }

    pub fn text(&self) -> &str
        ensures { result.now ≡ self.now }
    {
        self.text.as_str()
    }
}

/// A job of the program.
#[derive(Drop)]
pub enum Job {
    /// Instruments the file and runs it with at most this many steps; `rte` asks for run-time error annotations.
    Run {
        file: FileName,
        steps: u64,
        rte: bool,
    },
    /// Instruments the file; `rte` asks for run-time error annotations.
    Instrument {
        file: FileName,
        rte: bool,
    },
    /// Runs the monitored text of the file with at most this many steps.
    Exec {
        file: FileName,
        steps: u64,
    },
}
