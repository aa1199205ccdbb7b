//! The standard streams.

ghost use Rattle.std.specs.Prelude.{◌≡◌, None};

use crate::{Failed, Sink};
use std::io::{Stderr, Stdout, Write};

/// A standard stream of the program. It tells nothing of what it has taken.
#[derive(Drop)]
pub struct StreamSink<W> {
    stream: W,
    faults: u64,
}

impl StreamSink<Stdout> {
    /// Standard output, of which no write has failed yet.
    pub fn out(stdout: Stdout) -> StreamSink<Stdout>
        ensures { (⟦<StreamSink<Stdout> as Sink>⟧.state result).faults ≡ 0 }
    {
        StreamSink {
            stream: stdout,
            faults: 0,
        }
    }
}

impl StreamSink<Stderr> {
    /// Standard error, of which no write has failed yet.
    pub fn err(stderr: Stderr) -> StreamSink<Stderr>
        ensures { (⟦<StreamSink<Stderr> as Sink>⟧.state result).faults ≡ 0 }
    {
        StreamSink {
            stream: stderr,
            faults: 0,
        }
    }
}

impl<W: Write> Sink for StreamSink<W> {
    ghost state = { λ s. record { told = None; faults = s.faults } };

    ghost fails_at = { λ _ _. ⊥ };

    ghost reliable = { λ _. ⊥ };

    fn write(&mut self, bytes: &[u8]) -> Result<usize, Failed> {
        match self.stream.write(bytes) {
            Ok(count) if count > 0 || bytes.is_empty() => Ok(count),
            _ => {
                self.faults = self.faults.saturating_add(1);
                Err(Failed)
            }
        }
    }
}
